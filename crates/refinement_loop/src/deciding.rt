ghost use Rattle.std.specs.Prelude.{◌≤◌, ℕ, IfOk};
ghost use Rattle.node_looks.specs.Looks.{HasZeroPlan};
ghost use Rattle.refinement_loop.specs.Decisions.{HasNoWideWalk, IsDecision, IsSettled, IsSpentDecision, IsZeroDecision};
ghost use Rattle.seq_model.specs.Budgets.{Full};

use crate::wide_nodes::{WideNode, first_of};
use node_looks::{Look, Looker, Looks};
use refutation_tree::Growing;
use search_agenda::Agenda;
use seq_limits::MOST_NODES;
use seq_model::{Job, Plan, Tree, WideNote};
use seq_num::NoMemory;
use std::alloc::Global;

/// What a search of an extent answers.
#[derive(Debug, Drop)]
pub enum Decision {
    /// This plan is valid.
    Found(Plan),
    /// This tree refutes the extent.
    Refuted(Tree),
    /// This tree has used the budget up.
    Spent(Tree),
    /// The pending nodes of this tree have walks that end wide; the note names the one that was met first.
    Wide(WideNote, Tree),
}

// The loop over the open nodes.
fn search<L: Looks>(
    alloc: Global,
    job: &Job,
    extent: u32,
    budget: u64,
    looks: &mut L,
) -> Result<Decision, NoMemory>
    requires low { 1 ≤ extent }
    requires high { extent ≤ job.now.printer.grid }
    requires some { 1 ≤ budget }
    requires limit { budget ≤ MOST_NODES }
    requires made { L.IsFor looks.old job.now }
    ensures stays { L.IsFor looks.new job.now }
    ensures is { IfOk result (IsDecision job.now extent budget) }
    ensures zero { HasZeroPlan job.now extent → IfOk result (IsZeroDecision job.now extent) }
{
    let mut tree = Growing::new(alloc, job.objects.len() as u32)?;
    let mut agenda = Agenda::new(alloc)?;
    let mut wide: Option<WideNode> = None;
    while let Some(number) = agenda.pop()? {
        match looks.look(job, extent, agenda.path())? {
            Look::Found(plan) => return Ok(Decision::Found(plan)),
            Look::Close(leaf) => tree.close(number, leaf),
            Look::Wide { basis, row } => wide = first_of(wide, WideNode { number, basis, row }),
            Look::Split {
                node,
                choices,
                visit,
            } => {
                if tree.node_count() >= budget {
                    return Ok(Decision::Spent(tree.whole()?));
                }
                let first = tree.split(number, node)?;
                agenda.push_all(first, choices.as_slice(), visit.as_slice())?;
            }
        }
    }
    let Some(held) = wide else {
        return Ok(Decision::Refuted(tree.preorder()?));
    };
    let node = tree.number(held.number)?;
    let whole = tree.whole()?;
    let WideNode {
        number: _,
        basis,
        row,
    } = held;
    Ok(Decision::Wide(WideNote { node, basis, row }, whole))
}

/// Decides an extent by looks at nodes, with at most the budget of nodes but for the children of the last split.
pub fn decide_by<L: Looks>(
    alloc: Global,
    job: &Job,
    extent: u32,
    budget: u64,
    looks: &mut L,
) -> Result<Decision, NoMemory>
    requires low { 1 ≤ extent }
    requires high { extent ≤ job.now.printer.grid }
    requires some { 1 ≤ budget }
    requires limit { budget ≤ MOST_NODES }
    requires made { L.IsFor looks.old job.now }
    ensures stays { L.IsFor looks.new job.now }
    ensures is { IfOk result (IsDecision job.now extent budget) }
    ensures zero { HasZeroPlan job.now extent → IfOk result (IsZeroDecision job.now extent) }
    ensures unspent { (full : ℕ) → Full job.now full → full ≤ budget
        → IfOk result (λ d. IsSpentDecision d → ⊥) }
    ensures complete { (full : ℕ) → Full job.now full → full ≤ budget → HasNoWideWalk job.now extent
        → IfOk result IsSettled }
{
    search(alloc, job, extent, budget, looks)
}

/// Decides an extent: a plan, a certificate that there is none, or why neither was found within the budget.
pub fn decide(alloc: Global, job: &Job, extent: u32, budget: u64) -> Result<Decision, NoMemory>
    requires low { 1 ≤ extent }
    requires high { extent ≤ job.now.printer.grid }
    requires some { 1 ≤ budget }
    requires limit { budget ≤ MOST_NODES }
    ensures is { IfOk result (IsDecision job.now extent budget) }
    ensures zero { HasZeroPlan job.now extent → IfOk result (IsZeroDecision job.now extent) }
    ensures unspent { (full : ℕ) → Full job.now full → full ≤ budget
        → IfOk result (λ d. IsSpentDecision d → ⊥) }
    ensures complete { (full : ℕ) → Full job.now full → full ≤ budget → HasNoWideWalk job.now extent
        → IfOk result IsSettled }
{
    let mut looks = Looker::new(alloc, job)?;
    decide_by(alloc, job, extent, budget, &mut looks)
}
