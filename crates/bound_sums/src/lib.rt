//! The sums of a bound: of the rows that it takes, each so many times.
//!
//! A bound closes a node of a tree where its rows, each at least 0 by itself, add up to less than 0 whatever the places are: no
//! coefficient above 0, and the constants below it. `first_breach` says whether they do, exactly, and if not which of the three rules is
//! broken first: a multiplier that names no row, a coefficient above 0, constants that aren't below 0.
//!
//! The rows are known by what isn't 0 in them: the room that is left for a variable, or a push of one object from another. Up to 33
//! multipliers below 2^62 are summed in i128, which is wide enough. No call takes memory. The checker of certificates stands on it; it
//! knows no job and no tree.
#![tactic(auto)]

mod breaches;
mod rows;

pub use breaches::{Breach, first_breach};
pub use rows::Line;
