ghost use Rattle.std.specs.Prelude.{◌≡◌};
ghost use Rattle.decision_text.specs.DecisionText.{block_below, block_of_cause, excludes, open_state, placed, statement_for, statement_of, tried, tried_wide, undecided_state};
ghost use Rattle.plan_text.specs.Reading.{bare};
ghost use Rattle.refinement_loop.specs.declared.deciding.Decision.TheVariants.{Refuted};

use cert_text::{Head, Kind};
use owned_lists::Items;
use plan_text::{PlanFile, State};
use plate_shrink::{Cause, Outcome};
use refinement_loop::Decision;
use seq_model::{Plan, Tree, WideNote};
use std::alloc::Global;

/// What a text states: a plan file, and the tree block behind it where one is due.
#[derive(Debug, Drop)]
pub struct Statement {
    pub file: PlanFile,
    pub block: Option<(Head, Tree)>,
}

fn placed(state: State, grid: u32, extent: u32, plan: Plan) -> PlanFile
    ensures { result ≡ placed state grid extent plan }
{
    PlanFile {
        state,
        grid,
        extent,
        plan,
    }
}

// The file of a state without places.
fn bare(alloc: Global, state: State, grid: u32) -> PlanFile
    ensures { result ≡ bare state grid }
{
    PlanFile {
        state,
        grid,
        extent: 0,
        plan: Plan {
            scale: 1,
            places: Items::new(alloc),
        },
    }
}

fn excludes(extent: u32) -> Head
    ensures { result ≡ excludes extent }
{
    Head {
        kind: Kind::Certificate,
        extent,
        wide: None,
    }
}

fn tried(extent: u32) -> Head
    ensures { result ≡ tried extent }
{
    Head {
        kind: Kind::OpenBudget,
        extent,
        wide: None,
    }
}

fn tried_wide(extent: u32, note: WideNote) -> Head
    ensures { result ≡ tried_wide extent note }
{
    Head {
        kind: Kind::OpenWide,
        extent,
        wide: Some(note),
    }
}

fn no_plan(alloc: Global, grid: u32, tree: Tree) -> Statement
    ensures { result ≡ statement_of grid (Refuted tree) }
{
    Statement {
        file: bare(alloc, State::NoPlan, grid),
        block: Some((excludes(grid), tree)),
    }
}

/// What is stated of a decision of the whole plate.
pub fn statement_of(alloc: Global, grid: u32, decision: Decision) -> Statement
    ensures { result ≡ statement_of grid decision }
{
    match decision {
        Decision::Found(plan) => Statement {
            file: placed(State::Found, grid, grid, plan),
            block: None,
        },
        Decision::Refuted(tree) => no_plan(alloc, grid, tree),
        Decision::Spent(tree) => Statement {
            file: bare(alloc, State::UndecidedBudget, grid),
            block: Some((tried(grid), tree)),
        },
        Decision::Wide(note, tree) => Statement {
            file: bare(alloc, State::UndecidedWide, grid),
            block: Some((tried_wide(grid, note), tree)),
        },
    }
}

fn open_state(cause: &Cause) -> State
    ensures { result ≡ open_state cause.now }
{
    match cause {
        Cause::Budget(_) => State::OpenBudget,
        Cause::Wide(_, _) => State::OpenWide,
    }
}

fn undecided_state(cause: &Cause) -> State
    ensures { result ≡ undecided_state cause.now }
{
    match cause {
        Cause::Budget(_) => State::UndecidedBudget,
        Cause::Wide(_, _) => State::UndecidedWide,
    }
}

fn block_of_cause(extent: u32, cause: Cause) -> Option<(Head, Tree)>
    ensures { result ≡ block_of_cause extent cause }
{
    match cause {
        Cause::Budget(tree) => Some((tried(extent), tree)),
        Cause::Wide(note, tree) => Some((tried_wide(extent, note), tree)),
    }
}

fn block_below(extent: u32, tree: Option<Tree>) -> Option<(Head, Tree)>
    ensures { result ≡ block_below extent tree }
{
    match tree {
        None => None,
        Some(tree) => Some((excludes(extent.saturating_sub(1)), tree)),
    }
}

/// What is stated of a search for the least extent.
pub fn statement_for(alloc: Global, grid: u32, outcome: Outcome) -> Statement
    ensures { result ≡ statement_for grid outcome }
{
    match outcome {
        Outcome::Least { plan, extent, tree } => Statement {
            file: placed(State::Least, grid, extent, plan),
            block: block_below(extent, tree),
        },
        Outcome::NoPlan(tree) => no_plan(alloc, grid, tree),
        Outcome::Unproved {
            plan,
            extent,
            cause,
        } => Statement {
            file: placed(open_state(&cause), grid, extent, plan),
            block: block_of_cause(extent.saturating_sub(1), cause),
        },
        Outcome::Undecided(cause) => Statement {
            file: bare(alloc, undecided_state(&cause), grid),
            block: block_of_cause(grid, cause),
        },
    }
}
