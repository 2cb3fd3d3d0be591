//! What the search stands on, as tables: orders of objects, pivots, systems of rows, trees that grow, what is left to
//! look at, and one dictionary for many systems.
//!
//! What each row has to give is worked out by hand. They stand beside the crates that they call, since a crate with tests is
//! proved twice. Nothing stands on this one.
#![tactic(auto)]

#[cfg(test)]
mod agendas;
#[cfg(test)]
mod orders;
#[cfg(test)]
mod pivots;
#[cfg(test)]
mod rows;
#[cfg(test)]
mod systems;
#[cfg(test)]
mod trees;
#[cfg(test)]
mod undoing;
#[cfg(test)]
mod warm;
