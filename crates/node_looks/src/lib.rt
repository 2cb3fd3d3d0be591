//! A look at one node of a search: what is to be done there.
//!
//! A look at a path answers a plan that is valid, or how the node is closed, or how it is split, or that its walk is too wide;
//! `IsLook` says what each answer shows. The loop above keeps nodes, paths and the budget, and asks a `Looks` about each node.
#![tactic(auto)]

mod advice;
mod completing;
mod hits;
mod looking;
mod looks;
mod orders;
mod plans;
mod site;
mod splits;
mod survey;
mod system;
mod trail;

pub use looking::{Counts, Looker};
pub use looks::{Look, Looks};
