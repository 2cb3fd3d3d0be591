//! The difference of two outlines and a part: all `a - b - f` over their corners, of which none is made.
//!
//! An object at one place collides with a later one at another exactly where the later place less the earlier one is inner to this
//! difference, so all that is promised of safety rests here. `strictly_in` says of a point whether it is inner, which is exactly
//! where it is beyond no side; `sides_of` gives exactly the sides, by angle; `support` the greatest value along a direction; and
//! `side_row` the row of the linear system that keeps two objects apart at a side.
//!
//! The laws are those of `outline_laws`, and the edges those of `outline_edges`. `pair_constraints` and the audit stand on it.
#![tactic(auto)]

mod around;
mod inside;
mod rows;
mod values;

pub use around::{next_side, sides_of};
pub use inside::strictly_in;
pub use rows::{SideRow, side_row};
pub use values::support;
