//! Certificates of two cubes, checked: one that refutes 45, and each rule broken once, with the first node and its first rule.
//!
//! The job is that of the worked examples of the definitions, made by code: two cubes of 22 grains over two bands, a tip, a nozzle of
//! 4 grains and a gantry from two bands above, on a plate of 100 by 100 grains. Nothing stands on it.
#![tactic(auto)]

#[cfg(test)]
mod tests;
