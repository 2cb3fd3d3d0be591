//! What a search of Full nodes stands on.

ghost use Rattle.std.specs.Prelude.{ℕ, ◌<◌, length};
ghost use Rattle.search_laws.specs.Searches.{IsEarnedTree};
ghost use Rattle.seq_model.specs.Budgets.{Full};
ghost use Rattle.seq_model.specs.Splits.{SpentTree};
ghost use Rattle.seq_model.specs.declared.job.Job.{Job};
ghost use Rattle.seq_model.specs.declared.tree.Tree.{Tree};

/// A tree whose nodes are sound and whose splits are earned has fewer nodes than Full, and so a spent tree's budget is below Full.
pub fn full_is_enough_for_any_search()
    ensures tree { (job : Job) (e full : ℕ) (tree : Tree) → Full job full → IsEarnedTree job e tree
        → length tree.nodes < full }
    ensures spent { (job : Job) (e full budget : ℕ) (tree : Tree) → Full job full
        → SpentTree job e budget tree → budget < full }
{}
