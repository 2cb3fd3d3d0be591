//! The least extent at which a job has a plan.
//!
//! `least_by` tries the whole plate first, and then halves between an extent that has a plan and one that was tried without,
//! until they are neighbours. `IsOutcome` says what each answer shows: that an extent is the least one rests on a plan there and
//! on a certificate for the one below, over all orders and all rational places.
//!
//! A plan that was found at some extent is moved as a whole, by whole grains, into the least region that it fits; the audit
//! confirms it there. Everything else is the search of one extent (`refinement_loop`).
#![tactic(auto)]

mod fitting;
mod outcome;
mod shrinking;
mod trying;

pub use outcome::{Cause, Outcome};
pub use shrinking::{least, least_by};
