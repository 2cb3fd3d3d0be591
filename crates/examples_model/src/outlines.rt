//! Inner points, and the regions of extents.

ghost use Rattle.std.specs.Prelude.{◌≡◌, pos};
ghost use Rattle.seq_model.specs.Outlines.{Inner, Within};
ghost use Rattle.seq_model.specs.Plates.{region_of};
ghost use Rattle.examples_model.specs.Cubes.{square, at, spot};

/// A square's middle is inner to it, and a point of its edge isn't, but is within it.
pub fn middle_and_edge_of_a_square()
    ensures middle { Inner (square (pos 0) (pos 2)) (at (pos 1) (pos 1)) }
    ensures edge { Inner (square (pos 0) (pos 2)) (at (pos 0) (pos 1)) → ⊥ }
    ensures edge_is_within { Within (square (pos 0) (pos 2)) (at (pos 0) (pos 1)) }
{}

/// Regions of a plate of 100 by 100 with a grid of 100.
pub fn regions_of_four_extents()
    ensures at_22 { region_of (pos 100) (pos 100) 100 22
        ≡ record { low = spot (pos 39) (pos 39); w = pos 22; h = pos 22 } }
    ensures at_46 { region_of (pos 100) (pos 100) 100 46
        ≡ record { low = spot (pos 27) (pos 27); w = pos 46; h = pos 46 } }
    ensures at_67 { region_of (pos 100) (pos 100) 100 67
        ≡ record { low = spot (pos 16) (pos 16); w = pos 67; h = pos 67 } }
    ensures at_100 { region_of (pos 100) (pos 100) 100 100
        ≡ record { low = spot (pos 0) (pos 0); w = pos 100; h = pos 100 } }
{}
