//! Regions of extents.

ghost use Rattle.std.specs.Prelude.{◌+◌, ◌≤◌, ℕ, ℤ, pos, ◌≤ℤ◌};
ghost use Rattle.seq_model.specs.Plates.{region_of};
ghost use Rattle.seq_model.specs.Scenes.{Scene, Valid, Least};
ghost use Rattle.seq_model.specs.declared.plan.Plan.{Plan};
ghost use Rattle.model_laws.specs.Nested.{LiesWithin};

/// A smaller extent's region lies in a larger one's.
pub fn smaller_region_lies_in_larger()
    ensures { (width depth : ℤ) (grid e f : ℕ) → pos 1 ≤ℤ width → pos 1 ≤ℤ depth → 1 ≤ grid → e ≤ f
        → LiesWithin (region_of width depth grid e) (region_of width depth grid f) }
{}

/// A plan that is valid at an extent is so at each larger one of the grid. So a plan at the next extent, and none at this one, show which
/// extent is the least.
pub fn one_extent_below_decides()
    ensures larger { (scene : Scene) (e f : ℕ) (plan : Plan) → pos 1 ≤ℤ scene.width
        → pos 1 ≤ℤ scene.depth → e ≤ f → f ≤ scene.grid
        → Valid scene e plan → Valid scene f plan }
    ensures least { (scene : Scene) (e : ℕ) (plan : Plan) → pos 1 ≤ℤ scene.width
        → pos 1 ≤ℤ scene.depth → Valid scene (e + 1) plan
        → ((other : Plan) → Valid scene e other → ⊥) → Least scene (e + 1) }
{}
