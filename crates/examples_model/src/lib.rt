//! The worked examples of the definitions.
//!
//! Each call but that of `jobs` does nothing, and its contract says what the definitions of `seq_model` mean at numbers that
//! were worked out by hand: which points are inner, when two cubes collide, the system of a path, a tree that refutes an
//! extent, a walk of bases. `specs/Cubes.antt` and `specs/Jobs.antt` have the cubes, the wedges, their printer and their jobs, and
//! `specs/Uneven.antt` a job in which nothing is symmetric.
//!
//! Only other examples stand on this crate: `jobs` makes the job of two cubes for them. A definition that says something else at
//! one of these numbers is refused here; one that differs elsewhere alone isn't, so the definitions are to be read all the same.
#![tactic(auto)]

pub mod bands;
pub mod certificates;
pub mod jobs;
pub mod outlines;
pub mod pairs;
pub mod plans;
pub mod scenes;
pub mod sides;
pub mod soundness;
pub mod splits;
pub mod systems;
pub mod trees;
pub mod uneven;
pub mod walks;
