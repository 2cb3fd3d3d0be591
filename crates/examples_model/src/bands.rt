//! Corner points of a band, and their spots.

ghost use Rattle.std.specs.Prelude.{◌≡◌, [], ◌∷◌, pos, negsuc};
ghost use Rattle.seq_model.specs.Bands.{band_count, corner_points};
ghost use Rattle.seq_model.specs.Outlines.{spots};
ghost use Rattle.examples_model.specs.Cubes.{spot, at, facet, slanted};

/// A facet from the origin up to 15 mm, in bands of 10 mm: of band 1 its two upper corners lie in the slab, and two edges cross the plane
/// at 10 mm where two thirds of each are below it, at (2 mm, 0) and (0, 2 mm). Band 0 has the lower corner, and the same two crossings.
pub fn a_facet_crosses_a_plane()
    ensures bands { band_count (facet ∷ []) (pos 10_000) ≡ 2 }
    ensures upper { corner_points (facet ∷ []) (pos 10_000) 1
        ≡ at (pos 3_000) (pos 0) ∷ at (pos 0) (pos 3_000) ∷
        record { x = pos 30_000_000; y = pos 0; d = pos 15_000 } ∷
        record { x = pos 0; y = pos 30_000_000; d = pos 15_000 } ∷ [] }
    ensures lower { corner_points (facet ∷ []) (pos 10_000) 0
        ≡ at (pos 0) (pos 0) ∷ record { x = pos 30_000_000; y = pos 0; d = pos 15_000 } ∷
        record { x = pos 0; y = pos 30_000_000; d = pos 15_000 } ∷ [] }
{}

/// The spots of (-1.5 mm, 0.5 mm) in grains of 1 mm with a margin of 1: -1.5 is rounded down to -2 and up to -1, 0.5 to 0 and 1. The
/// crossing at (2 mm, 0) is a lattice point, and is rounded to itself both ways.
pub fn spots_round_outwards()
    ensures below_zero { spots (pos 1_000) (pos 1) (at (negsuc 1_499) (pos 500) ∷ [])
        ≡ spot (negsuc 2) (negsuc 0) ∷ spot (pos 0) (negsuc 0) ∷ spot (negsuc 2) (pos 2) ∷
        spot (pos 0) (pos 2) ∷ [] }
    ensures of_a_crossing { spots (pos 1_000) (pos 1)
        (record { x = pos 30_000_000; y = pos 0; d = pos 15_000 } ∷ [])
        ≡ spot (pos 1) (negsuc 0) ∷ spot (pos 3) (negsuc 0) ∷ spot (pos 1) (pos 1) ∷
        spot (pos 3) (pos 1) ∷ [] }
{}

/// A slanted facet from 5 mm up to 25 mm: its height is 20 mm, so it has two bands of 10 mm, and a mesh without height has one. In the
/// upper band, from 15 mm to 25 mm, lies its highest corner, and the two edges that lead up to it cross the plane at 15 mm: one halfway,
/// at (5/2 mm, 2 mm), and one after a third of its way, at (2 mm, 6 mm).
pub fn a_slanted_facet_off_the_origin()
    ensures bands { band_count (slanted ∷ []) (pos 10_000) ≡ 2 }
    ensures flat { band_count (record { a = slanted.a; b = slanted.a; c = slanted.a } ∷ [])
        (pos 10_000) ≡ 1 }
    ensures upper { corner_points (slanted ∷ []) (pos 10_000) 1
        ≡ at (pos 4_000) (pos 2_000) ∷
        record { x = pos 50_000_000; y = pos 40_000_000; d = pos 20_000 } ∷
        record { x = pos 30_000_000; y = pos 90_000_000; d = pos 15_000 } ∷ [] }
{}

/// In grains of 0.5 mm and with a margin of three grains, (1.2 mm, -0.7 mm) lies between the grains 2 and 3, and between -2 and -1; its
/// spots are three grains farther out. The margin is counted in grains, and once.
pub fn spots_by_the_grain_and_the_margin()
    ensures { spots (pos 500) (pos 3) (at (pos 1_200) (negsuc 699) ∷ [])
        ≡ spot (negsuc 0) (negsuc 4) ∷ spot (pos 6) (negsuc 4) ∷ spot (negsuc 0) (pos 2) ∷
        spot (pos 6) (pos 2) ∷ [] }
{}
