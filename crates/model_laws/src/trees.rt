//! Trees, by their roots.

ghost use Rattle.std.specs.Prelude.{◌≡◌, ℕ, ◌*◌, List, [], ◌∷◌, Contains, All, length, slice_get, Some, ◌↔◌};
ghost use Rattle.seq_model.specs.Splits.{Earned, Grounded, IsCertificate, IsWideNote, OpenTree, StandsAt};
ghost use Rattle.seq_model.specs.Walks.{WalkWide};
ghost use Rattle.seq_model.specs.declared.tree.WideNote.{WideNote};
ghost use Rattle.seq_model.specs.Systems.{system, Contradiction};
ghost use Rattle.seq_model.specs.Trees.{IsCycle, IsPath, AreChildren, IsSoundNode, IsClosed, IsTree, Refutes};
ghost use Rattle.seq_model.specs.declared.job.Job.{Job};
ghost use Rattle.seq_model.specs.declared.tree.Choice.{Choice};
ghost use Rattle.seq_model.specs.declared.tree.Choice.TheVariants as Choices;
ghost use Rattle.seq_model.specs.declared.tree.Contact.{Contact};
ghost use Rattle.seq_model.specs.declared.tree.Mult.{Mult};
ghost use Rattle.seq_model.specs.declared.tree.Node.{Node};
ghost use Rattle.seq_model.specs.declared.tree.Node.TheVariants as Nodes;
ghost use Rattle.seq_model.specs.declared.tree.Tree.{Tree};
ghost use Rattle.model_laws.specs.Roots.{OrderRefutes, SideRefutes};

/// When a tree refutes a path, by the kind of its root. A bound's multipliers contradict the path's system, and a cycle's objects
/// run along orders of the path; neither has anything below it. An order is of two objects i < j of the job; its first child refutes
/// the path with i before j, and its second one the path with j before i. A side's contact exists, its order is on the path, it has a
/// child for each of its sides, and child number k refutes the path with side number k. What is pending refutes nothing, nor does a
/// list without nodes.
pub fn a_tree_refutes_by_its_root()
    ensures bound { (job : Job) (e : ℕ) (path : List Choice) (mults : List Mult) (below : List Node)
        → Refutes job e path (Nodes.Bound mults ∷ below)
        ↔ ((below ≡ []) × Contradiction (system job e path) mults) }
    ensures cycle { (job : Job) (e : ℕ) (path : List Choice) (objects : List ℕ) (below : List Node)
        → Refutes job e path (Nodes.Cycle objects ∷ below)
        ↔ ((below ≡ []) × IsCycle (λ a b. Contains path (Choices.Before a b)) objects) }
    ensures order { (job : Job) (e : ℕ) (path : List Choice) (i j : ℕ) (below : List Node)
        → Refutes job e path (Nodes.Order i j ∷ below) ↔ OrderRefutes job e path i j below }
    ensures side { (job : Job) (e : ℕ) (path : List Choice)
        (contact : Contact) (children : ℕ) (below : List Node)
        → Refutes job e path (Nodes.Side contact children ∷ below)
        ↔ SideRefutes job e path contact children below }
    ensures pending { (job : Job) (e : ℕ) (path : List Choice) (below : List Node)
        → Refutes job e path (Nodes.Pending ∷ below) → ⊥ }
    ensures none { (job : Job) (e : ℕ) (path : List Choice) → Refutes job e path [] → ⊥ }
{}

/// The children of a sound node at a path of the job stand at paths of the job, and so each node of a tree that refutes the empty path
/// stands at one.
pub fn nodes_stand_at_paths()
    ensures children { (job : Job) (e : ℕ) (path : List Choice) (node : Node) (paths : List (List Choice))
        → IsPath job path → IsSoundNode job e path node → AreChildren job path node paths
        → All (IsPath job) paths }
    ensures all { (job : Job) (e : ℕ) (nodes : List Node)
        → Refutes job e [] nodes
        → IsTree job (λ path node. (IsSoundNode job e path node × IsClosed node)
        × IsPath job path) [] nodes }
{}

/// A node of a tree stands at one path, and in an open tree this is a path of the job.
pub fn a_node_stands_at_one_path()
    ensures one { (job : Job) (nodes : List Node) (k : ℕ) (path other : List Choice)
        → StandsAt job nodes k path → StandsAt job nodes k other → path ≡ other }
    ensures of_the_job { (job : Job) (e : ℕ) (tree : Tree) (k : ℕ) (path : List Choice)
        → OpenTree job e tree → StandsAt job tree.nodes k path → IsPath job path }
{}

/// Each node of an open tree is sound at its path, and earned if it is a split; of a certificate each is closed too, and grounded.
pub fn each_node_is_as_its_tree_says()
    ensures of_an_open_tree { (job : Job) (e : ℕ) (tree : Tree) (k : ℕ) (path : List Choice) (node : Node)
        → OpenTree job e tree → StandsAt job tree.nodes k path → slice_get tree.nodes k ≡ Some node
        → IsSoundNode job e path node × Earned job e path node }
    ensures of_a_certificate { (job : Job) (e : ℕ) (tree : Tree) (k : ℕ) (path : List Choice) (node : Node)
        → IsCertificate job e tree → StandsAt job tree.nodes k path → slice_get tree.nodes k ≡ Some node
        → (IsSoundNode job e path node × IsClosed node) × Grounded job e path node }
{}

/// A wide note tells of the walk of its own node's system, at the path that the node stands at.
pub fn a_note_tells_of_its_nodes_walk()
    ensures { (job : Job) (e : ℕ) (tree : Tree) (note : WideNote) (path : List Choice)
        → IsWideNote job e tree note → StandsAt job tree.nodes note.node path
        → WalkWide (2 * length job.objects) (system job e path) note.basis note.row }
{}
