ghost use Rattle.std.specs.Prelude.{◌≡◌, ◌≤◌, [], length, IfOk};
ghost use Rattle.node_looks.specs.Looks.{HasZeroPlan, IsLook, IsZeroLook};
ghost use Rattle.seq_model.specs.Trees.{IsPath};
ghost use Rattle.seq_model.specs.declared.job.Job.{Job};

use owned_lists::Items;
use seq_limits::MOST_NODES;
use seq_model::{Choice, Job, Node, Plan};
use seq_num::NoMemory;

/// What is to be done at a node.
#[derive(Debug, Drop)]
pub enum Look {
    /// This plan is valid.
    Found(Plan),
    /// It is closed by this leaf.
    Close(Node),
    /// It becomes this split, whose children have these choices more, and are to be looked at in the order of `visit`.
    Split {
        node: Node,
        choices: Items<Choice>,
        visit: Items<u32>,
    },
    /// The walk of its system ends before this basis, which is wide at this variable.
    Wide {
        basis: Items<u32>,
        row: u32,
    },
}

/// Who looks at nodes of a job.
pub trait Looks {
    /// Whether it was made for this job.
    ghost IsFor: { Self → Job → Type 0 };

    /// What is to be done at the node of this path.
    fn look(&mut self, job: &Job, extent: u32, path: &[Choice]) -> Result<Look, NoMemory>
        requires made { IsFor self.old job.now }
        requires low { 1 ≤ extent }
        requires high { extent ≤ job.now.printer.grid }
        requires path { IsPath job.now path.now }
        requires short { length path.now ≤ MOST_NODES }
        ensures stays { IsFor self.new job.now }
        ensures look { IfOk result (IsLook job.now extent path.now) }
        ensures zero { path.now ≡ [] → HasZeroPlan job.now extent → IfOk result (IsZeroLook job.now extent) };
}
