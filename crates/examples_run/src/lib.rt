//! The worked examples of the whole program, run over files and sinks in memory.
//!
//! Each expected text and status is worked out by hand, and none is the program's own output. They show what no
//! clause says: that memory is enough, and that the clauses mean what was meant. The crate has no calls of its
//! own and stands above all others.
#![tactic(auto)]

#[cfg(test)]
mod arranging;
#[cfg(test)]
mod auditing;
#[cfg(test)]
mod checking;
#[cfg(test)]
mod describing;
#[cfg(test)]
mod least;
#[cfg(test)]
mod meshes;
#[cfg(test)]
mod runs;
#[cfg(test)]
mod several;
#[cfg(test)]
mod slicing;
#[cfg(test)]
mod trials;
