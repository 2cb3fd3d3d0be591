//! Refutation is sound.

ghost use Rattle.std.specs.Prelude.{ℕ, ◌+◌, ◌≤◌, List};
ghost use Rattle.plan_laws.specs.Members.{IsPart};
ghost use Rattle.plan_laws.specs.Ordered.{Keeps, IsClear, OrderedPoint};
ghost use Rattle.seq_model.specs.Jobs.{scene_of_job};
ghost use Rattle.seq_model.specs.Scenes.{Valid, Least};
ghost use Rattle.seq_model.specs.Splits.{Values, IsOn};
ghost use Rattle.seq_model.specs.Trees.{Refutes, TreeRefutes};
ghost use Rattle.seq_model.specs.declared.job.Job.{Job};
ghost use Rattle.seq_model.specs.declared.plan.Plan.{Plan};
ghost use Rattle.seq_model.specs.declared.tree.Choice.{Choice};
ghost use Rattle.seq_model.specs.declared.tree.Node.{Node};
ghost use Rattle.seq_model.specs.declared.tree.Tree.{Tree};

/// Nodes that refute a path leave it no point with an order of all objects that keeps the path's orders, and in which no earlier object
/// collides there with a later one. The order may be a list, or ranks of the objects; and none is left to any path that has the choices
/// of this one.
pub fn a_refuted_path_has_no_clear_point()
    ensures ordered { (job : Job) (e : ℕ) (path : List Choice) (nodes : List Node)
        → Refutes job e path nodes → OrderedPoint job e path → ⊥ }
    ensures ranked { (job : Job) (e : ℕ) (path : List Choice) (nodes : List Node)
        → (at : Values) (rank : ℕ → ℕ)
        → Refutes job e path nodes → IsOn job e path at → Keeps path rank → IsClear job e at rank
        → ⊥ }
    ensures longer { (job : Job) (e : ℕ) (part path : List Choice) (nodes : List Node)
        → (at : Values) (rank : ℕ → ℕ)
        → IsPart part path → Refutes job e part nodes → IsOn job e path at → Keeps path rank
        → IsClear job e at rank → ⊥ }
{}

/// Where a tree refutes an extent no plan is valid there, whatever its order and its rational places, nor at a smaller one. Where it
/// refutes the whole grid none is valid anywhere.
pub fn a_refuted_extent_has_no_plan()
    ensures here { (job : Job) (e : ℕ) (tree : Tree) (plan : Plan) → TreeRefutes job e tree
        → Valid (scene_of_job job) e plan → ⊥ }
    ensures below { (job : Job) (e f : ℕ) (tree : Tree) (plan : Plan) → TreeRefutes job e tree
        → f ≤ e → e ≤ job.printer.grid → Valid (scene_of_job job) f plan → ⊥ }
    ensures anywhere { (job : Job) (f : ℕ) (tree : Tree) (plan : Plan)
        → TreeRefutes job job.printer.grid tree → Valid (scene_of_job job) f plan → ⊥ }
{}

/// So a plan at the next extent shows with the tree that this is the least one; and a plan at extent 1 shows it by itself.
pub fn a_plan_and_a_tree_show_the_least_extent()
    ensures next { (job : Job) (e : ℕ) (plan : Plan) (tree : Tree)
        → Valid (scene_of_job job) (e + 1) plan → TreeRefutes job e tree
        → Least (scene_of_job job) (e + 1) }
    ensures first { (job : Job) (plan : Plan) → Valid (scene_of_job job) 1 plan
        → Least (scene_of_job job) 1 }
{}
