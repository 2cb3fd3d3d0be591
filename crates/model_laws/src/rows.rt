//! Rows of a linear system.

ghost use Rattle.std.specs.Prelude.{ℤ, List};
ghost use Rattle.seq_model.specs.declared.row.Row.{Row};
ghost use Rattle.seq_model.specs.Systems.{MeetsRows, Contradiction};
ghost use Rattle.seq_model.specs.declared.tree.Mult.{Mult};

/// No point meets rows that have a contradiction.
pub fn no_point_meets_a_contradiction()
    ensures { (rows : List Row) (mults : List Mult) → Contradiction rows mults → (d : ℤ) (u : List ℤ)
        → MeetsRows rows d u → ⊥ }
{}
