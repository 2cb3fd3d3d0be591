//! Points over other denominators.

ghost use Rattle.std.specs.Prelude.{ℕ, ℤ, pos, ◌≤ℤ◌, List};
ghost use Rattle.seq_model.specs.Outlines.{IsMean};
ghost use Rattle.seq_model.specs.Points.{Point, IsPoint, SamePoint};
ghost use Rattle.seq_model.specs.Scenes.{Scene, Overlap, Collides, Valid};
ghost use Rattle.seq_model.specs.declared.plan.Plan.{Plan};
ghost use Rattle.seq_model.specs.declared.printer.Spot.{Spot};
ghost use Rattle.model_laws.specs.SamePoints.{SamePlaces};

/// A mean is of a point, over whatever denominator: so a point is inner to spots, or within them, where the same point over another
/// denominator is.
pub fn a_mean_is_of_a_point()
    ensures { (least : ℤ) (S : List Spot) (p q : Point) → IsPoint q → SamePoint p q → IsMean least S p
        → IsMean least S q }
{}

/// So are collisions: what overlaps, or collides, at two points does so at the same points over other denominators.
pub fn collisions_are_at_points()
    ensures overlap { (A B F : List Spot) (p r p' r' : Point) → Overlap A B F p r → IsPoint p'
        → IsPoint r' → SamePoint p p' → SamePoint r r'
        → Overlap A B F p' r' }
    ensures collides { (scene : Scene) (i j : ℕ) (p r p' r' : Point) → Collides scene i p j r
        → IsPoint p' → IsPoint r' → SamePoint p p'
        → SamePoint r r' → Collides scene i p' j r' }
{}

/// And so is what is valid: a plan over another scale, of at least 1, that moves the same objects to the same points in the same order
/// is valid where this one is.
pub fn a_plan_is_valid_over_another_scale()
    ensures { (scene : Scene) (e : ℕ) (plan other : Plan) → pos 1 ≤ℤ other.scale
        → SamePlaces plan other → Valid scene e plan → Valid scene e other }
{}
