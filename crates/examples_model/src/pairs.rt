//! When two objects collide.

ghost use Rattle.std.specs.Prelude.{pos};
ghost use Rattle.seq_model.specs.Jobs.{scene_of_job};
ghost use Rattle.seq_model.specs.Parts.{tip};
ghost use Rattle.seq_model.specs.Scenes.{Overlap, Collides};
ghost use Rattle.examples_model.specs.Cubes.{at, half, cube, nozzle};
ghost use Rattle.examples_model.specs.Jobs.{two_cubes, tall_and_low};

/// Two cubes of which the later one stands to the east: at a distance of 24 grains they are clear of each other by the nozzle, at
/// 47/2 they aren't, and by the tip alone they are there too. So in the job, with all its parts, they collide at 47/2 and don't at 24.
pub fn two_cubes_at_24_and_at_47_halves()
    ensures clear_by_the_nozzle { Overlap cube cube nozzle
        (at (pos 0) (pos 0)) (at (pos 24) (pos 0)) → ⊥ }
    ensures meet_by_the_nozzle { Overlap cube cube nozzle
        (at (pos 0) (pos 0)) (half (pos 47) (pos 0)) }
    ensures clear_by_the_tip { Overlap cube cube tip.corners
        (at (pos 0) (pos 0)) (half (pos 47) (pos 0)) → ⊥ }
    ensures collide { Collides (scene_of_job two_cubes)
        0 (at (pos 0) (pos 0)) 1 (half (pos 47) (pos 0)) }
    ensures clear { Collides (scene_of_job two_cubes)
        0 (at (pos 0) (pos 0)) 1 (at (pos 24) (pos 0)) → ⊥ }
{}

/// A tall cube and a low one beside it, clear of the nozzle. While the low one is printed after the tall one, the gantry runs into the tall
/// one; printed before it, the low one is below the gantry, and nothing collides.
pub fn a_low_cube_before_a_tall_one()
    ensures tall_first { Collides (scene_of_job tall_and_low)
        0 (at (pos 25) (pos 0)) 1 (at (pos 0) (pos 0)) }
    ensures low_first { Collides (scene_of_job tall_and_low)
        1 (at (pos 0) (pos 0)) 0 (at (pos 25) (pos 0)) → ⊥ }
{}
