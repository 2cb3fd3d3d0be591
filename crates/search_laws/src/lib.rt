//! Why a tree that refutes an extent leaves no valid plan there, whoever wrote it: laws of search and of certificates.
//!
//! The main one is `refuting::a_refuted_extent_has_no_plan`: over all orders and all rational places, no plan is valid at an extent that
//! a tree refutes, nor at a smaller one. The others say what a search stands on: a contact has a list of sides, one that is opened is
//! clear, the numbers of rows are small, and a search that may make Full nodes is never spent.
//!
//! Each law is the contract of a call that does nothing: it is proved because a contract names it. It stands on the laws of plans and
//! of outlines; the lemmas stand in `specs/Laws`, for search and checker to cite.
#![tactic(auto)]

pub mod budgets;
pub mod refuting;
pub mod rows;
pub mod sides;
