//! One extent tried.

ghost use Rattle.std.specs.Prelude.{◌≤◌, IfOk};
ghost use Rattle.plate_shrink.specs.Outcomes.{IsAttempt};

use crate::Cause;
use crate::fitting::{Fitted, least_fitted};
use node_looks::Looks;
use refinement_loop::{Decision, decide_by};
use seq_limits::MOST_NODES;
use seq_model::{Job, Tree};
use seq_num::NoMemory;
use std::alloc::Global;

/// What an extent without a plan gave.
#[derive(Debug, Drop)]
pub enum Tried {
    Refuted(Tree),
    Open(Cause),
}

#[derive(Debug, Drop)]
pub enum Attempt {
    With(Fitted),
    Without(Tried),
}

pub fn try_extent<L: Looks>(
    alloc: Global,
    job: &Job,
    extent: u32,
    budget: u64,
    looks: &mut L,
) -> Result<Attempt, NoMemory>
    requires low { 1 ≤ extent }
    requires high { extent ≤ job.now.printer.grid }
    requires some { 1 ≤ budget }
    requires limit { budget ≤ MOST_NODES }
    requires made { L.IsFor looks.old job.now }
    ensures stays { L.IsFor looks.new job.now }
    ensures is { IfOk result (IsAttempt job.now extent budget) }
{
    match decide_by(alloc, job, extent, budget, looks)? {
        Decision::Found(plan) => Ok(Attempt::With(least_fitted(alloc, job, extent, plan)?)),
        Decision::Refuted(tree) => Ok(Attempt::Without(Tried::Refuted(tree))),
        Decision::Spent(tree) => Ok(Attempt::Without(Tried::Open(Cause::Budget(tree)))),
        Decision::Wide(note, tree) => Ok(Attempt::Without(Tried::Open(Cause::Wide(note, tree)))),
    }
}
