//! Places and order together: the search of one extent.
//!
//! `decide_by` answers a plan that is valid at the extent, a certificate that there is none, a tree that has used the budget
//! up, or one in which nothing is left but nodes whose walk is too wide. `IsDecision` says what each answer shows; with a
//! budget of Full nodes, and where no walk is wide, the answer is a plan or a certificate.
//!
//! A `Looks` says what is to be done at a node; here stands the loop over the open nodes, depth first, which grows the tree
//! and keeps the budget. A wide node stays pending and the search goes on: it is answered where all else is closed.
#![tactic(auto)]

mod deciding;
mod wide_nodes;

pub use deciding::{Decision, decide, decide_by};
