//! What follows from the orders that hold at a point of a path.

ghost use Rattle.std.specs.Prelude.{ℕ, ◌≤◌, List, ◌++◌, length, ◌⊎◌};
ghost use Rattle.object_orders.specs.Orders.{AreAmong, IsOrder, IsSimpleCycle};
ghost use Rattle.plan_laws.specs.Looking.{OnPath, IsOnOrEarned, AreLooked, AreForced, EarnsAPair, Causes};
ghost use Rattle.plan_laws.specs.Ordered.{orders_of, plan_of};
ghost use Rattle.seq_model.specs.Jobs.{scene_of_job};
ghost use Rattle.seq_model.specs.Scenes.{Valid};
ghost use Rattle.seq_model.specs.Splits.{Values, IsOn, CollidesAt};
ghost use Rattle.seq_model.specs.Trees.{IsCycle};
ghost use Rattle.seq_model.specs.declared.job.Job.{Job};
ghost use Rattle.seq_model.specs.declared.tree.Choice.{Choice};

/// In a cycle of orders that are on a path, or forced at a point of it and unordered on it, each two neighbours, the last and the first
/// too, are ordered so on the path, or their split is earned. So it runs along the path, or some pair may be split.
pub fn a_cycle_closes_or_is_split()
    ensures each { (job : Job) (e : ℕ) (path : List Choice) (at : Values)
        → (orders : List (ℕ × ℕ)) (objects : List ℕ)
        → IsOn job e path at → AreAmong (length job.objects) orders → AreLooked job e path at orders
        → IsSimpleCycle orders objects → IsCycle (IsOnOrEarned job e path) objects }
    ensures some { (job : Job) (e : ℕ) (path : List Choice) (at : Values)
        → (orders : List (ℕ × ℕ)) (objects : List ℕ)
        → IsOn job e path at → AreAmong (length job.objects) orders → AreLooked job e path at orders
        → IsSimpleCycle orders objects → IsCycle (OnPath path) objects ⊎ EarnsAPair job e path }
{}

/// Where nothing collides in an order of the path, and each unordered pair that collides is forced the other way, whatever collides is
/// ordered the other way by the path or forced so; and then an order of all objects that keeps these orders makes a valid plan.
pub fn an_order_of_what_is_forced_is_valid()
    ensures causes { (job : Job) (e : ℕ) (path : List Choice) (at : Values) (forced : List (ℕ × ℕ))
        → AreForced job e path at forced
        → Causes (length job.objects) (orders_of path ++ forced) (CollidesAt job e at) }
    ensures valid { (job : Job) (e : ℕ) (path : List Choice) (at : Values)
        → (orders : List (ℕ × ℕ)) (objects : List ℕ)
        → 1 ≤ e → e ≤ job.printer.grid → IsOn job e path at
        → IsOrder (length job.objects) orders objects
        → Causes (length job.objects) orders (CollidesAt job e at)
        → Valid (scene_of_job job) e (plan_of job e at objects) }
{}
