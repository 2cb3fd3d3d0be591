//! The checker of certificates: whether a tree refutes an extent, or the first node that breaks a rule.
//!
//! `check` passes exactly where the tree refutes the extent, and so leaves no valid plan there nor below, whoever wrote it. Else it names
//! the first node in preorder that breaks a rule, and of its rules the first that it breaks, in the order that `Rule` lists.
//!
//! It first makes what it keeps for the whole tree: the sides of each contact, the choices of each split, and the room that is left for
//! each variable; and it takes its memory then. The walk over the nodes takes none and doesn't recurse. It keeps the path of the node at
//! hand, with the rows of its sides and the place where each order of two objects stands first, so that a node costs what it says and not
//! what stands above it.
//!
//! It stands on the definitions, on differences of outlines and on the laws of refutation, and on no crate that makes trees.
#![tactic(auto)]

mod checking;
mod contacts;
mod cycles;
mod frames;
mod judging;
mod kept;
mod rooms;
mod rules;
mod trail;
mod walking;

pub use checking::check;
pub use rules::{Checked, Rule};
