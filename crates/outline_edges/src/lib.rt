//! The edges of outlines as directions: their order by angle, and how far corners and points lie along them.
//!
//! An edge stands for its outward direction, as long as the edge. `reduced_by_angle` gives the directions of a list reduced, each
//! once, counterclockwise from (1, 0), in the time of a sort; `first_edge_after` the first one after a direction, without memory.
//! Both say what they give in the words of `outline_laws`, by which these are the sides of outlines and of their differences.
//!
//! `convex_outline` and `difference_polygon` stand on it. Coordinates are below 2^21 in size, so edges are below 2^22, values of
//! corners below 2^44, and a test at a point with numerators below 2^91 fits i128.
#![tactic(auto)]

mod angles;
mod edges;
mod values;

pub use angles::{is_none, opposite, reduced_by_angle, shortest};
pub use edges::{edge, first_edge_after, last_corner, push_edges};
pub use values::{greatest_value, limit_at, value_along, value_at};
