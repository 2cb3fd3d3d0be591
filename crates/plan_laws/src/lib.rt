//! What a valid plan is to a tree of choices: laws over the definitions of `seq_model`, told without geometry.
//!
//! A valid plan is a point of the system and an order of all objects in which no earlier one collides with a later one, and back
//! (`valid_plans_are_clear_points`); an audit needs only boxes and contacts (`a_plan_is_valid_by_its_boxes_and_contacts`). What a look at
//! a point may answer, what a path's part keeps of its points, and how a tree serves other paths, is said here too.
//!
//! Each law is the contract of a call that does nothing: it is proved because a contract names it. The lemmas stand in `specs/Laws`,
//! for search, audit and checker to cite. It stands on the laws of the model; what needs the sides of outlines is above it.
#![tactic(auto)]

pub mod audits;
pub mod looks;
pub mod points;
pub mod rows;
pub mod trees;
