//! Laws over the definitions of `seq_model`.
//!
//! Each is the contract of a call that does nothing: it is proved because a contract names it. They say that the forms of
//! the definitions carry what is built on them, and that where a form differs from the plainest words it means the same:
//! `a_tree_refutes_by_its_root` says of a tree's nodes with their subtrees what `Refutes` says of the list of all nodes.
//!
//! The lemmas stand in `specs/Laws`, for the crates that search and check to cite.
#![tactic(auto)]

pub mod collisions;
pub mod corners;
pub mod extents;
pub mod points;
pub mod rows;
pub mod sides;
pub mod splits;
pub mod trees;
