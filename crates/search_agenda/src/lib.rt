//! What a search has still to do: its open nodes, depth first, and the path that it stands at.
//!
//! An `Agenda` is seen as one path and a list of open nodes, each with its number and its own path, the next one first. It
//! keeps a single trail of choices: of each open node only how much of the trail it needs, and its own choice behind that. So
//! a search of great depth takes memory by its open nodes, and not by the lengths of their paths. It knows nothing of jobs or
//! of trees; the search above it says which nodes those are.
#![tactic(auto)]

mod agenda;
mod open_nodes;

pub use agenda::{Agenda, Waiting};
