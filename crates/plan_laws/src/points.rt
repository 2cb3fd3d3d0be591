//! Points of a system, and what lies in a region.

ghost use Rattle.std.specs.Prelude.{◌≡◌, ◌*◌, ◌<◌, ◌≤◌, ℕ, ℤ, pos, ◌≤ℤ◌, List, [], length, ◌↔◌};
ghost use Rattle.object_orders.specs.Orders.{IsOrder};
ghost use Rattle.plan_laws.specs.Inside.{IsBounded, AreInside};
ghost use Rattle.plan_laws.specs.Ordered.{AreApart, OrderedPoint, Keeps, IsClear, plan_of};
ghost use Rattle.seq_model.specs.Jobs.{bands_of, object_at, scene_of_job};
ghost use Rattle.seq_model.specs.Scenes.{Spans, Valid};
ghost use Rattle.seq_model.specs.Splits.{Values, IsOn};
ghost use Rattle.seq_model.specs.declared.job.Job.{Job};
ghost use Rattle.seq_model.specs.declared.plan.Plan.{Plan};
ghost use Rattle.seq_model.specs.declared.tree.Choice.{Choice};

/// An object's low and high are its spans in the scene of the job: over all its bands, and no gap between its zones has a spot.
pub fn an_object_has_the_spans_of_its_scene()
    ensures { (job : Job) (o : ℕ) → o < length job.objects
        → Spans (bands_of job o) ((scene_of_job job).spots o)
        (object_at job o).low (object_at job o).high }
{}

/// No variable is negative and the bounds of the system are met just where every spot of every band of every object lies in the
/// region, edges included, at the place that the point gives the object.
pub fn bounds_say_what_lies_in_the_region()
    ensures { (job : Job) (e : ℕ) (d : ℤ) (u : List ℤ) → pos 1 ≤ℤ d
        → length u ≡ 2 * length job.objects → IsBounded job e d u ↔ AreInside job e d u }
{}

/// A point of a path and an order of all objects, in which no earlier one collides there with a later one, are a valid plan: the places
/// at the point, in this order.
pub fn a_clear_point_is_a_valid_plan()
    ensures { (job : Job) (e : ℕ) (path : List Choice) (at : Values)
        → (orders : List (ℕ × ℕ)) (objects : List ℕ)
        → 1 ≤ e → e ≤ job.printer.grid → IsOn job e path at
        → IsOrder (length job.objects) orders objects → AreApart job e at objects
        → Valid (scene_of_job job) e (plan_of job e at objects) }
{}

/// And there are valid plans at an extent just where there are such points of the empty path: each valid plan is the one of its own
/// point and order.
pub fn valid_plans_are_clear_points()
    ensures exist { (job : Job) (e : ℕ) → 1 ≤ e → e ≤ job.printer.grid
        → ((plan : Plan) × Valid (scene_of_job job) e plan) ↔ OrderedPoint job e [] }
    ensures point { (job : Job) (e : ℕ) (plan : Plan) → Valid (scene_of_job job) e plan
        → (p : OrderedPoint job e []) × (plan_of job e p.at p.objects ≡ plan) }
{}

/// The order may be told by ranks: such a point has a rank for each object, by which the path's orders rise and what collides falls.
pub fn an_ordered_point_is_clear_by_ranks()
    ensures { (job : Job) (e : ℕ) (path : List Choice) (point : OrderedPoint job e path)
        → (rank : ℕ → ℕ) × Keeps path rank × IsClear job e point.at rank }
{}
