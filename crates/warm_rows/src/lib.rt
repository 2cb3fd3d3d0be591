//! One dictionary for many systems: rows are added one by one, the basis is repaired, and both are undone.
//!
//! A `Warm` value is seen as the list of its steps: a row that `add` held, or a pivot that `repair` made. Its rows and its
//! dictionary are those that the steps give from a system without rows (`Gives` in `specs/Warming.antt`), so that `undo_to`
//! gives back *exactly* the dictionary of a mark: it pivots back in reverse and takes the rows away, and needs no memory.
//! That no pivot back is refused comes from `Kept` in `specs/Keeping.antt`: each step went from a dictionary that was held.
//!
//! `repair` walks by the least-index rule from the basis that it finds. It answers as `feasible_point::solve` does, and is
//! `Cold` where that walk ends before a wide basis; `add` is `Cold` where the row over the present basis, times the
//! denominator, has a number of 2^62 or more. The search keeps one for an extent, and solves from scratch where it is cold.
#![tactic(auto)]

ghost use Rattle.std.specs.Prelude.{◌≡◌, ℕ, List};
ghost use Rattle.row_dictionary.specs.Seen.{Seen};
ghost use Rattle.warm_rows.specs.Warming.{Gives};
ghost use Rattle.warm_rows.specs.declared.step.Step.{Step as Kind};

mod answering;
mod step;
mod walking;
mod warm;

pub use step::{Added, Mark, Step, Warmed};
pub use warm::Warm;

/// What steps give is one table.
pub fn the_steps_determine_the_table()
    ensures { (vars : ℕ) (steps : List Kind) (t u : Seen) → Gives vars steps t → Gives vars steps u → t ≡ u }
{}
