//! The audit of a plan: that it is valid at an extent, or its first fault.
//!
//! `audit` answers Good exactly where the plan is valid for the scene of the job, and else what is wrong with it first: a stray place,
//! an absent object, a place off the plate's region, a collision. What comes first is a definition on plans (`specs/Faults.antt`), which
//! knows no job, zone, contact or loop, and there is one answer to it. No call takes memory.
//!
//! It stands on the model and its laws and on differences of outlines, and on no crate that makes plans, whoever wrote the plan.
#![tactic(auto)]

mod audits;
mod bands;
mod hits;
mod places;
mod verdict;
mod zones;

pub use audits::audit;
pub use verdict::{Hit, Verdict};
