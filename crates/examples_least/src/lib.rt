//! The least extent of a worked example.
//!
//! Two cubes beside each other are a valid plan at 46, and a tree of 11 nodes refutes 45, over all places and both orders: so 46 is
//! the least extent. Nothing stands on it; it is a crate of its own since the laws of search stand below it.
#![tactic(auto)]

ghost use Rattle.examples_model.specs.Jobs.{two_cubes};
ghost use Rattle.seq_model.specs.Jobs.{scene_of_job};
ghost use Rattle.seq_model.specs.Scenes.{Least};

/// The least extent of two cubes is 46.
pub fn two_cubes_need_46()
    ensures { Least (scene_of_job two_cubes) 46 }
{}
