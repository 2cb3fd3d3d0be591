//! The worked examples of a search: jobs of cubes and a cone, decided at an extent with a budget.
//!
//! The expected answers are worked out by hand: two cubes of 22 grains with a nozzle of 4 between them need 46 of the plate's
//! 100 grains, in either order. They show that memory is enough, and that the budget is the one that is asked for. Nothing stands
//! on the crate.
#![tactic(auto)]

#[cfg(test)]
mod jobs;
#[cfg(test)]
mod tests;
