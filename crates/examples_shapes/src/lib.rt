//! Shapes, as tables: hulls and their sides, differences, slices of meshes, open edges, bands that meet.
//!
//! What each row has to give is worked out by hand. They stand beside the crates that they call, since a crate with tests is
//! proved twice. Nothing stands on this one.
#![tactic(auto)]

#[cfg(test)]
mod bands;
#[cfg(test)]
mod checks;
#[cfg(test)]
mod differences;
#[cfg(test)]
mod hulls;
#[cfg(test)]
mod slices;
#[cfg(test)]
mod spots;
