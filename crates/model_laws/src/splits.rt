//! Splits of a search and of a certificate.

ghost use Rattle.std.specs.Prelude.{ℕ, List};
ghost use Rattle.seq_model.specs.Splits.{Earned, Grounded};
ghost use Rattle.seq_model.specs.declared.job.Job.{Job};
ghost use Rattle.seq_model.specs.declared.tree.Choice.{Choice};
ghost use Rattle.seq_model.specs.declared.tree.Node.{Node};

/// What a search may split, a certificate may hold.
pub fn earned_splits_are_grounded()
    ensures { (job : Job) (e : ℕ) (path : List Choice) (node : Node) → Earned job e path node
        → Grounded job e path node }
{}
