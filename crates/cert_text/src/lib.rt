//! The text of a tree block, written and read: the lines behind a plan that show that no smaller extent has one, or how far a
//! search came.
//!
//! `TreeText` gives each head and tree one spelling, which `write_tree` writes. `read_tree` answers a head and a tree exactly
//! where the bytes are their text, the nodes are one whole tree by their numbers of children, and none has more than 1,000,000
//! splits above it; and else the first refusal in reading order, with its line. It keeps a stack of its own, and takes memory
//! by the lines that it reads, never by a number that they state.
//!
//! The top call prints certificates and open trees by it, and reads those that are to be checked. What is read here is a
//! claim: whether the tree refutes anything is the checker's business.
#![tactic(auto)]

mod block;
mod heads;
mod lines;
mod mults;
mod nodes;
mod numbers;
mod pairs;
mod reading;
mod writing;

pub use block::{CertRead, Head, Kind};
pub use reading::read_tree;
pub use writing::write_tree;
