//! What is read and written, as tables: files, lengths, meshes, printers, plans, trees, words.
//!
//! A row is a text and what is read of it, or why it is refused. The texts are written by hand. They stand beside the crates that
//! they call, since a crate with tests is proved twice. Nothing stands on this one.
#![tactic(auto)]

#[cfg(test)]
mod decimals;
#[cfg(test)]
mod files;
#[cfg(test)]
mod meshes;
#[cfg(test)]
mod plans;
#[cfg(test)]
mod printers;
#[cfg(test)]
mod trees;
#[cfg(test)]
mod words;
