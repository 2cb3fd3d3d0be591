//! Contacts of two small objects: which collide, which comes first, which are maximal, and what is kept of them.
//!
//! The first is a cube of 20 mm, which meets a second cube too. The other has a bar of 5 by 20 mm in two bands, and above it a
//! triangle of 10 by 5 mm in three. The expected values are worked out by hand. Nothing stands on it.
#![tactic(auto)]

#[cfg(test)]
mod objects;
#[cfg(test)]
mod tests;
