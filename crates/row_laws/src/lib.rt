//! Linear rows by bases: the laws of forms, of wide rows and of the walk of the least-index rule.
//!
//! What a form, a wide row and a walk are stands in words in `seq_model` (`Dictionaries`, `Walks`). The calls here do nothing: each is
//! a law that its contract states. A basis has at most one form, so that "the form", "the walk" and "wide" mean one thing, and what is
//! computed of a form's lines (`specs/Computed.antt`) is the step of the walk in words. The lemmas are in `specs/Laws`: a solution of few
//! equations (`Kernel`), independent variables (`Independence`), one form (`OneForm`), the lines of a basis (`Lines`), where it is wide
//! (`Wide`), its step (`Pivots`) and one walk (`OneWalk`).
#![tactic(auto)]

ghost use Rattle.std.specs.Prelude.{◌≡◌, ℕ, ◌+◌, List, length, IsTrue, Some, None, ◌↔◌};
ghost use Rattle.row_laws.specs.Computed.{is_wide, line_of, next_basis};
ghost use Rattle.seq_model.specs.Dictionaries.{Form, WideAt};
ghost use Rattle.seq_model.specs.declared.row.Row.{Row};
ghost use Rattle.seq_model.specs.Walks.{Pivots, Stops, Walk, EndsWide};

/// A basis has at most one form.
pub fn a_basis_has_one_form_at_most()
    ensures { (vars : ℕ) (rows : List Row) (basis : List ℕ) (f g : Form vars rows basis)
        → (f.d ≡ g.d) × (f.lines ≡ g.lines) }
{}

/// The form of a basis decides where it is wide.
pub fn a_form_decides_where_it_is_wide()
    ensures { (vars : ℕ) (rows : List Row) (basis : List ℕ) (f : Form vars rows basis) (row : ℕ)
        → WideAt vars rows basis row ↔ IsTrue (is_wide f.d (line_of row basis f.lines)) }
{}

/// A start has at most one walk.
pub fn a_start_has_one_walk_at_most()
    ensures { (vars : ℕ) (rows : List Row) (start : List ℕ) (bases others : List (List ℕ))
        → Walk vars rows start bases → Walk vars rows start others → bases ≡ others }
{}

/// The walk from a start ends before one wide basis at most, and one row of it is the least at which it is wide.
pub fn a_walk_ends_before_one_wide_basis_at_most()
    ensures { (vars : ℕ) (rows : List Row) (start basis other : List ℕ) (row another : ℕ)
        → EndsWide vars rows start basis row
        → EndsWide vars rows start other another → (basis ≡ other) × (row ≡ another) }
{}

/// What is computed of the form of a basis is the step in words: the least-numbered basic variable with a negative constant leaves, the
/// least-numbered free one with a positive entry in its row enters, and the next basis has the one in place of the other; or there is no
/// such variable.
pub fn a_step_leaves_and_enters_by_the_least_numbers()
    ensures goes_on { (vars : ℕ) (rows : List Row) (basis : List ℕ) (f : Form vars rows basis) (next : List ℕ)
        → (next_basis (vars + length rows) basis f.lines ≡ Some next) ↔ Pivots vars rows basis next }
    ensures stops { (vars : ℕ) (rows : List Row) (basis : List ℕ) (f : Form vars rows basis)
        → (next_basis (vars + length rows) basis f.lines ≡ None) ↔ Stops vars rows basis }
{}
