ghost use Rattle.std.specs.Prelude.{◌≡◌, ◌≤◌, ◌<◌, ℕ, IfOk};
ghost use Rattle.plate_shrink.specs.Outcomes.{HasNoWideJob, IsBudgetOutcome, IsDecided, IsOutcome, failed_at, kept_below, outcome_of};
ghost use Rattle.plate_shrink.specs.Fitting.{IsFitted};
ghost use Rattle.seq_model.specs.Budgets.{Full};

use crate::fitting::Fitted;
use crate::trying::{Attempt, Tried, try_extent};
use crate::{Cause, Outcome};
use node_looks::{Looker, Looks};
use seq_limits::MOST_NODES;
use seq_model::{Job, Plan, Tree};
use seq_num::NoMemory;
use std::alloc::Global;

/// The greatest extent below the plan's that was tried without a plan.
#[derive(Debug, Drop)]
pub struct Failed {
    pub extent: u32,
    pub tried: Tried,
}

// 0 where none was tried.
fn extent_of(failed: &Option<Failed>) -> u32
    ensures { result ≡ failed_at failed.now }
{
    match failed {
        Some(failed) => failed.extent,
        None => 0,
    }
}

// What was tried above the plan counts no longer.
fn below(failed: Option<Failed>, extent: u32) -> Option<Failed>
    ensures { result ≡ kept_below failed extent }
{
    match failed {
        Some(failed) if failed.extent < extent => Some(failed),
        _ => None,
    }
}

fn ended(best: Fitted, failed: Option<Failed>) -> Outcome
    ensures { result ≡ outcome_of best failed }
{
    let Fitted { extent, plan } = best;
    match failed {
        None => Outcome::Least {
            plan,
            extent,
            tree: None,
        },
        Some(
            Failed {
                extent: _,
                tried: Tried::Refuted(tree),
            },
        ) => Outcome::Least {
            plan,
            extent,
            tree: Some(tree),
        },
        Some(
            Failed {
                extent: _,
                tried: Tried::Open(cause),
            },
        ) => Outcome::Unproved {
            plan,
            extent,
            cause,
        },
    }
}

// Between an extent that has a plan and one that was tried without, until they are neighbours.
fn halved<L: Looks>(
    alloc: Global,
    job: &Job,
    budget: u64,
    looks: &mut L,
    whole: Fitted,
) -> Result<Outcome, NoMemory>
    requires some { 1 ≤ budget }
    requires limit { budget ≤ MOST_NODES }
    requires made { L.IsFor looks.old job.now }
    requires whole { IsFitted job.now job.now.printer.grid whole }
    ensures stays { L.IsFor looks.new job.now }
    ensures is { IfOk result (IsOutcome job.now budget) }
{
    let mut best = whole;
    let mut failed: Option<Failed> = None;
    while best.extent - extent_of(&failed) > 1 {
        let low = extent_of(&failed);
        let middle = low + (best.extent - low) / 2;
        match try_extent(alloc, job, middle, budget, looks)? {
            Attempt::With(fitted) => {
                failed = below(failed, fitted.extent);
                best = fitted;
            }
            Attempt::Without(tried) => {
                failed = Some(Failed {
                    extent: middle,
                    tried,
                });
            }
        }
    }
    Ok(ended(best, failed))
}

fn shrunk<L: Looks>(
    alloc: Global,
    job: &Job,
    budget: u64,
    looks: &mut L,
) -> Result<Outcome, NoMemory>
    requires some { 1 ≤ budget }
    requires limit { budget ≤ MOST_NODES }
    requires made { L.IsFor looks.old job.now }
    ensures stays { L.IsFor looks.new job.now }
    ensures is { IfOk result (IsOutcome job.now budget) }
{
    match try_extent(alloc, job, job.printer.grid, budget, looks)? {
        Attempt::With(whole) => halved(alloc, job, budget, looks, whole),
        Attempt::Without(Tried::Refuted(tree)) => Ok(Outcome::NoPlan(tree)),
        Attempt::Without(Tried::Open(cause)) => Ok(Outcome::Undecided(cause)),
    }
}

/// The least extent at which the job has a plan, by looks at nodes. The budget holds for each extent tried.
pub fn least_by<L: Looks>(
    alloc: Global,
    job: &Job,
    budget: u64,
    looks: &mut L,
) -> Result<Outcome, NoMemory>
    requires some { 1 ≤ budget }
    requires limit { budget ≤ MOST_NODES }
    requires made { L.IsFor looks.old job.now }
    ensures stays { L.IsFor looks.new job.now }
    ensures is { IfOk result (IsOutcome job.now budget) }
    ensures unspent { (full : ℕ) → Full job.now full → full ≤ budget
        → IfOk result (λ outcome. IsBudgetOutcome outcome → ⊥) }
    ensures complete { (full : ℕ) → Full job.now full → full ≤ budget → HasNoWideJob job.now
        → IfOk result IsDecided }
{
    shrunk(alloc, job, budget, looks)
}

/// The least extent at which the job has a plan. The budget holds for each extent tried.
pub fn least(alloc: Global, job: &Job, budget: u64) -> Result<Outcome, NoMemory>
    requires some { 1 ≤ budget }
    requires limit { budget ≤ MOST_NODES }
    ensures is { IfOk result (IsOutcome job.now budget) }
    ensures unspent { (full : ℕ) → Full job.now full → full ≤ budget
        → IfOk result (λ outcome. IsBudgetOutcome outcome → ⊥) }
    ensures complete { (full : ℕ) → Full job.now full → full ≤ budget → HasNoWideJob job.now
        → IfOk result IsDecided }
{
    let mut looks = Looker::new(alloc, job)?;
    least_by(alloc, job, budget, &mut looks)
}
