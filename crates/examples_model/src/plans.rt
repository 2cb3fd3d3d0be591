//! Which plans are valid, and which extent is the least.

ghost use Rattle.seq_model.specs.Jobs.{scene_of_job};
ghost use Rattle.seq_model.specs.Scenes.{Valid, Least};
ghost use Rattle.examples_model.specs.Jobs.{two_cubes, cube_on_a_narrow_plate};
ghost use Rattle.examples_model.specs.Plans.{in_the_far_corner, without_the_second, with_a_third, roof_off_the_plate};
ghost use Rattle.examples_model.specs.Uneven.{uneven};

/// A cube fits into the far corner of a plate of 100 by 50, which is the whole of extent 100.
pub fn a_cube_in_the_far_corner()
    ensures { Valid (scene_of_job cube_on_a_narrow_plate) 100 in_the_far_corner }
{}

/// Each band has to lie on the plate: the walls of the house reach to 119/2 of its depth of 60, and its roof to 121/2.
pub fn a_roof_off_the_plate()
    ensures { Valid (scene_of_job uneven) 100 roof_off_the_plate → ⊥ }
{}

/// A plan of two cubes has each of them, and nothing else.
pub fn a_plan_has_each_object_once()
    ensures without_the_second { Valid (scene_of_job two_cubes) 46 without_the_second → ⊥ }
    ensures with_a_third { Valid (scene_of_job two_cubes) 46 with_a_third → ⊥ }
{}

/// Extent 47 isn't the least one of two cubes, since a plan is valid at 46.
pub fn forty_seven_is_not_the_least()
    ensures { Least (scene_of_job two_cubes) 47 → ⊥ }
{}
