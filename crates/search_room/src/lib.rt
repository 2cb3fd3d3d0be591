//! Advice for a search: the room that the bounds and the sides of a path leave to the variables of its system.
//!
//! For each variable a `Room` has the least and the greatest value that the rows chosen so far leave. By it a side of a contact is dead
//! where no value of its row is 0 or more, and a contact is the cheaper to open the fewer sides are alive. Numbers stop at the ends of
//! their types and nothing is promised of them: a wrong one costs nodes of a search, never what is proved of its answer.
#![tactic(auto)]

mod room;

pub use room::{Room, push, row_constant};
