//! Files made from a number: a printer, and so many meshes to arrange.
//!
//! Each mesh is a tower of 1 to 20 layers of 5 mm, up to 24 mm wide and deep, whose layers draw in as they rise. `trial_files`
//! gives the bytes that `Towers` states for a number of objects and a seed, and nothing else: the same at each run. So a search
//! can be tried, and two programs compared, without a folder of meshes.
//!
//! It stands on the files of `seq_io`; the command `trial` arranges what is made here.
#![tactic(auto)]

mod draws;
mod facets;
mod files;
mod tower;

pub use facets::Vertex;
pub use files::{TrialFiles, trial_files};
pub use tower::{Size, Tower};

#[cfg(test)]
mod tests;
