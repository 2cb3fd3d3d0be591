ghost use Rattle.std.specs.Prelude.{◌≡◌, ℕ, ◌+◌, ◌<◌, ◌^◌, IfOk, length};
ghost use Rattle.feasible_point.specs.Answering.{mults_of};
ghost use Rattle.feasible_point.specs.Walked.{GoesOn};
ghost use Rattle.row_dictionary.specs.declared.turn.Turn.TheVariants as Turns;
ghost use Rattle.warm_rows.specs.Answering.{Finds, HasSmallDen};

use crate::step::Warmed;
use feasible_point::{nums_of, shortest_of};
use row_dictionary::{Dictionary, Turn};
use seq_num::NoMemory;
use std::alloc::Global;

/// What a walk that has ended found.
pub fn answer(
    alloc: Global,
    dictionary: &Dictionary,
    vars: u32,
    turn: Turn,
) -> Result<Warmed, NoMemory>
    requires vars { dictionary.now.vars ≡ vars }
    requires count { vars + length dictionary.now.basic < 2 ^ 32 }
    requires ended { GoesOn turn → ⊥ }
    requires some { (out : ℕ) → turn ≡ Turns.Contradiction out → 0 < length (mults_of dictionary.now out) }
    ensures is { IfOk result (Finds dictionary.now turn) }
    ensures den { IfOk result HasSmallDen }
{
    match turn {
        Turn::Point => Ok(Warmed::Point {
            den: dictionary.den(),
            nums: nums_of(alloc, dictionary, vars)?,
        }),
        Turn::Contradiction { out } => Ok(Warmed::Contradiction(shortest_of(
            alloc,
            dictionary,
            vars,
            dictionary.count(),
            out,
        )?)),
        Turn::Wide {
            out: _,
            into: _,
            row: _,
        } => Ok(Warmed::Cold),
        Turn::Next { out: _, into: _ } => unreachable!(),
    }
}
