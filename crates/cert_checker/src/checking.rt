// The check of a tree.
ghost use Rattle.std.specs.Prelude.{◌≡◌, ◌≤◌, ℕ, All, ◌↔◌, IfOk};
ghost use Rattle.cert_text.specs.TreeText.{IsSpelt};
ghost use Rattle.seq_model.specs.Jobs.{scene_of_job};
ghost use Rattle.seq_model.specs.Scenes.{Valid};
ghost use Rattle.seq_model.specs.Trees.{IsWhole, TreeRefutes};
ghost use Rattle.seq_model.specs.declared.plan.Plan.{Plan};
ghost use Rattle.cert_checker.specs.Rules.{IsFirstBroken};
ghost use Rattle.cert_checker.specs.declared.rules.Rule.{Rule};

use crate::kept::keep;
use crate::rules::Checked;
use crate::trail::Trail;
use crate::walking::walk;
use seq_model::{Job, Tree};
use seq_num::NoMemory;
use std::alloc::Global;

/// Whether a tree refutes an extent, or the first node in preorder that breaks a rule, with its first broken rule. The tree is whole,
/// and one that the grammar of trees spells, as `read_tree` gives it. A tree that passes leaves no valid plan at the extent nor below,
/// over all orders and all rational places.
pub fn check(alloc: Global, job: &Job, extent: u32, tree: &Tree) -> Result<Checked, NoMemory>
    requires from_one { 1 ≤ extent }
    requires to_grid { extent ≤ job.now.printer.grid }
    requires whole { IsWhole tree.now }
    requires spelt { All IsSpelt tree.now.nodes }
    ensures passes { IfOk result (λ c. (c ≡ Checked.Passes) ↔ TreeRefutes job.now extent tree.now) }
    ensures fails { IfOk result (λ c. (k : ℕ) (rule : Rule)
        → (c ≡ Checked.Fails k rule) ↔ IsFirstBroken job.now extent tree.now.nodes k rule) }
    ensures sound { IfOk result (λ c. c ≡ Checked.Passes → (e : ℕ) (plan : Plan) → e ≤ extent
        → Valid (scene_of_job job.now) e plan → ⊥) }
{
    let nodes = tree.nodes.as_slice();
    let kept = keep(alloc, job, extent, nodes)?;
    let mut trail = Trail::with_room(alloc, nodes.len())?;
    let mut frames = Vec::with_capacity(alloc, nodes.len())?;
    let mut sums = Vec::new(alloc);
    sums.resize(kept.rooms.len(), 0)?;
    Ok(walk(
        job,
        &kept,
        nodes,
        &mut trail,
        &mut frames,
        sums.as_mut_slice(),
    ))
}
