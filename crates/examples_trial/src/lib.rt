//! Worked examples of trials: how many facets and zones they have.
//!
//! The numbers are worked out apart from the program, from the rule by which the files are made. They show what no clause says:
//! that memory is enough, and that the clauses mean what was meant. The crate has no calls of its own.
#![tactic(auto)]

#[cfg(test)]
mod tests;
