//! Corners of a convex outline, by their list.

ghost use Rattle.std.specs.Prelude.{◌≡◌, List, ◌<ℤ◌, ◌⊎◌, ◌↔◌};
ghost use Rattle.seq_model.specs.Corners.{IsBefore, AreCorners};
ghost use Rattle.seq_model.specs.declared.printer.Spot.{Spot};
ghost use Rattle.model_laws.specs.Turning.{StartsLeast, TurnsLeft};

/// A list is the corners of a convex outline just where its first member is before each other one and any three of its members, in
/// their order, turn left, both told by recursion on the list. One spot is before another just where its x is the lesser one, or where
/// they have the same x and its y is the lesser one.
pub fn corners_are_so_by_the_list()
    ensures corners { (C : List Spot) → AreCorners C ↔ (StartsLeast C × TurnsLeft C) }
    ensures before { (a b : Spot) → IsBefore a b ↔ ((a.x <ℤ b.x) ⊎ ((a.x ≡ b.x) × (a.y <ℤ b.y))) }
{}
