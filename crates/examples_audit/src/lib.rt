//! The audit of two cubes, run: they touch or collide, one is absent, off the plate or there twice; and the rows of their sides.
//!
//! The job is that of the worked examples of the definitions, made by code: two cubes of 22 grains over two bands, and a nozzle of 4
//! grains, so that they need 24. Nothing stands on it.
#![tactic(auto)]

#[cfg(test)]
mod tests;
