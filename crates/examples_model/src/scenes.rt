//! Scenes of files and of jobs, and where their spots lie.

ghost use Rattle.std.specs.Prelude.{◌≡◌, [], ◌∷◌, pos, negsuc};
ghost use Rattle.seq_model.specs.Bands.{corner_points};
ghost use Rattle.seq_model.specs.Jobs.{scene_of_job};
ghost use Rattle.seq_model.specs.Outlines.{spots};
ghost use Rattle.seq_model.specs.Plates.{region_of};
ghost use Rattle.seq_model.specs.Points.{place_point};
ghost use Rattle.seq_model.specs.Scenes.{Overlap, LiesIn};
ghost use Rattle.examples_model.specs.Cubes.{at, half, spot, slanted};
ghost use Rattle.examples_model.specs.Plans.{halves};
ghost use Rattle.examples_model.specs.Uneven.{uneven, uneven_files, walls, brick_zone, shoe_corners};

/// The scene of the files has the spots of each band by the printer's grain and margin, and the plate as it is wide and deep. The
/// plate of a job's scene is so too.
pub fn scenes_of_a_wide_plate()
    ensures spots { (uneven_files (slanted ∷ [])).spots 0 1
        ≡ spots (pos 500) (pos 3) (corner_points (slanted ∷ []) (pos 10_000) 1) }
    ensures width { (uneven_files (slanted ∷ [])).width ≡ pos 100 }
    ensures depth { (uneven_files (slanted ∷ [])).depth ≡ pos 60 }
    ensures width_of_job { (scene_of_job uneven).width ≡ pos 100 }
    ensures depth_of_job { (scene_of_job uneven).depth ≡ pos 60 }
{}

/// A place 3, 5 over scale 2 is the point (3/2, 5/2). The region of extent 46 is 46 wide and 27 deep, from (27, 16). At the place
/// (56/2, 36/2) the spot (-1, -2) lies on its low corner, and half a grain to the west or the south it doesn't lie in it; at
/// (132/2, 78/2) the spot (7, 4) lies on its high corner, and half a grain to the east or the north it doesn't.
pub fn spots_on_the_corners_of_a_region()
    ensures place { place_point (pos 2) (halves 0 3 5) ≡ half (pos 3) (pos 5) }
    ensures low { LiesIn (region_of (pos 100) (pos 60) 100 46)
        (pos 2) (halves 1 56 36) (spot (negsuc 0) (negsuc 1)) }
    ensures west { LiesIn (region_of (pos 100) (pos 60) 100 46)
        (pos 2) (halves 1 55 36) (spot (negsuc 0) (negsuc 1)) → ⊥ }
    ensures south { LiesIn (region_of (pos 100) (pos 60) 100 46)
        (pos 2) (halves 1 56 35) (spot (negsuc 0) (negsuc 1)) → ⊥ }
    ensures high { LiesIn (region_of (pos 100) (pos 60) 100 46)
        (pos 2) (halves 0 132 78) (spot (pos 7) (pos 4)) }
    ensures east { LiesIn (region_of (pos 100) (pos 60) 100 46)
        (pos 2) (halves 0 133 78) (spot (pos 7) (pos 4)) → ⊥ }
    ensures north { LiesIn (region_of (pos 100) (pos 60) 100 46)
        (pos 2) (halves 0 132 79) (spot (pos 7) (pos 4)) → ⊥ }
{}

/// The walls of the house stand at (10, 20), up to (25, 29), and are printed first. The brick with the shoe around it reaches from (-4, -4)
/// to the east and the north of its place. So at (57/2, 65/2) it meets the walls, and at (29, 32), to the east, and at (28, 33), to
/// the north, it doesn't.
pub fn a_brick_beside_the_walls()
    ensures meets { Overlap walls.corners brick_zone.corners shoe_corners
        (at (pos 10) (pos 20)) (half (pos 57) (pos 65)) }
    ensures east { Overlap walls.corners brick_zone.corners shoe_corners
        (at (pos 10) (pos 20)) (at (pos 29) (pos 32)) → ⊥ }
    ensures north { Overlap walls.corners brick_zone.corners shoe_corners
        (at (pos 10) (pos 20)) (at (pos 28) (pos 33)) → ⊥ }
{}
