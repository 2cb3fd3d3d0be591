//! Trees on other paths.

ghost use Rattle.std.specs.Prelude.{ℕ, List, ◌++◌, length, map};
ghost use Rattle.std.specs.List.{AllZip};
ghost use Rattle.plan_laws.specs.Dropping.{IsFreeTree, dropped_node};
ghost use Rattle.plan_laws.specs.Members.{IsPart};
ghost use Rattle.plan_laws.specs.Renumbered.{move, IsRenumbered};
ghost use Rattle.seq_model.specs.Systems.{system, Contradiction};
ghost use Rattle.seq_model.specs.Trees.{Refutes};
ghost use Rattle.seq_model.specs.declared.job.Job.{Job};
ghost use Rattle.seq_model.specs.declared.tree.Choice.{Choice};
ghost use Rattle.seq_model.specs.declared.tree.Mult.{Mult};
ghost use Rattle.seq_model.specs.declared.tree.Node.{Node};

/// A tree that refutes a path makes one for each path that has its choices: the same nodes, as many, with the rows of its bounds
/// renumbered, and nothing else.
pub fn a_tree_serves_longer_paths()
    ensures bound { (job : Job) (e : ℕ) (part path : List Choice) (mults : List Mult)
        → IsPart part path → Contradiction (system job e part) mults
        → (f : ℕ → ℕ) × Contradiction (system job e path) (map (move f) mults) }
    ensures tree { (job : Job) (e : ℕ) (part path : List Choice) (nodes : List Node)
        → IsPart part path → Refutes job e part nodes
        → (others : List Node) × Refutes job e path others × AllZip IsRenumbered nodes others }
{}

/// And a tree that uses one choice of its path nowhere, which each node shows by itself, makes one for the path without this choice: where
/// the choice is a side, the rows behind its row are one lower.
pub fn a_tree_does_without_an_unused_choice()
    ensures { (job : Job) (e : ℕ) (front : List Choice) (choice : Choice) (back : List Choice)
        → (nodes : List Node) → IsFreeTree job e front choice back nodes
        → Refutes job e (front ++ back)
        (map (dropped_node choice (length (system job e front))) nodes) }
{}
