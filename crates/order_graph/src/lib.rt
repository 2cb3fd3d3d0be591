//! Which of up to 16 objects is printed before which.
//!
//! A search that orders one pair of objects after the other keeps its orders in an `OrderGraph`: `add` takes an order
//! unless it would close a cycle, `undo` takes the last one back, and `complete` puts all objects in an order that
//! keeps the held orders and those that are forced besides, or finds a cycle of them.
//!
//! Each contract says both sides. `add` refuses an order exactly where the orders held lead the other way (`Leads`);
//! `complete` answers an order (`IsOrder`) exactly where there is one, and a cycle (`IsSimpleCycle`) exactly where
//! there is one. These words stand in `object_orders`. No call takes memory.
//!
//! What comes before an object is a set of 16 bits (`specs/Sets.antt`), so the cost doesn't grow with the orders held.
//!
//! The search for places will stand on it: an order becomes the order of the plan, a cycle a leaf of the certificate.
#![tactic(auto)]

mod answers;
mod graph;
mod leading;
mod placing;
mod row;
mod sets;
mod walk;

pub use answers::{Cycle, Order};
pub use graph::OrderGraph;
