//! The judgement of what a plan file claims: that an extent is the least one, or that there is no plan.
//!
//! `judge` tests in this order: the state makes such a claim, the grid is the printer's, the plan of a least extent is valid there, the
//! block excludes the extent that is due, and then the nodes of its tree. It answers that all hold, or the first that doesn't
//! (`specs/Claims.antt`). A claim that passes is true, over all orders and all rational places, whoever wrote the file.
//!
//! It stands on the audit of plans and on the checker of certificates, and on no crate that makes either.
#![tactic(auto)]

mod judging;
mod verdict;

pub use judging::judge;
pub use verdict::{Fault, Judgement};
