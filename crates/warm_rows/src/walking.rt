ghost use Rattle.std.specs.Prelude.{◌≡◌, ◌↔◌, ◌++◌, ◌∷◌, ◌<◌, [], IsTrue, IfOk, vec_len, vec_capacity};
ghost use Rattle.feasible_point.specs.Walked.{GoesOn};
ghost use Rattle.row_dictionary.specs.declared.turn.Turn.TheVariants as Turns;
ghost use Rattle.warm_rows.specs.Keeping.{Kept};
ghost use Rattle.warm_rows.specs.Walking.{AtEnd, OnWalk, noted};

use crate::step::Step;
use row_dictionary::{Dictionary, Turn};
use seq_num::NoMemory;

/// Appends a step where there is room for it.
pub fn push_step(steps: &mut Vec<Step>, step: Step)
    requires { vec_len steps.old < vec_capacity steps.old }
    ensures { steps.new.items ≡ steps.old.items ++ step ∷ [] }
{
    match steps.push(step) {
        Ok(()) => {}
        Err(_) => unreachable!(),
    }
}

/// Notes the pivot of a turn, and says whether it made one.
fn note(steps: &mut Vec<Step>, turn: &Turn) -> bool
    requires { vec_len steps.old < vec_capacity steps.old }
    ensures goes { IsTrue result ↔ GoesOn turn.now }
    ensures steps { steps.new.items ≡ noted steps.old.items turn.now }
{
    match turn {
        Turn::Next { out, into } => {
            push_step(
                steps,
                Step::Pivot {
                    leaving: *out,
                    entering: *into,
                },
            );
            true
        }
        _ => false,
    }
}

/// Walks by the least-index rule from the present basis to where its walk ends, and notes each pivot.
pub fn walk(dictionary: &mut Dictionary, steps: &mut Vec<Step>) -> Result<Turn, NoMemory>
    requires { Kept dictionary.old.vars steps.old.items dictionary.old }
    ensures on { OnWalk steps.old.items dictionary.old steps.new.items dictionary.new }
    ensures end { IfOk result (AtEnd steps.old.items dictionary.old dictionary.new) }
{
    loop {
        steps.reserve(1)?;
        let turn = dictionary.turn_any();
        if !note(steps, &turn) {
            return Ok(turn);
        }
    }
}
