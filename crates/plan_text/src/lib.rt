//! The text of a plan file, written and read: the lines that say what was found, before the tree block.
//!
//! `PlanText` gives each file one spelling. `write_plan` writes it, for each file that the grammar spells. `read_plan`
//! answers a file and a place exactly where the bytes before that place are the file's text, no place line follows there,
//! and nothing follows where no tree block is due; and each refusal exactly where `plan_answer` does, which goes through
//! the lines in reading order. A tree block stays unread: it is neither copied nor scanned.
//!
//! The top call prints plans by it, and reads those that are to be audited. What is read here is a claim: whether the
//! places are valid is the audit's business.
#![tactic(auto)]

mod file;
mod lines;
mod reading;
mod writing;

pub use file::{PlanFile, State};
pub use reading::{PlanRead, read_plan};
pub use writing::write_plan;
