//! The types that all crates share, and the definitions that all promises speak of.
//!
//! A mesh is a list of facets in micrometres. A printer has a grain, a plate, bands, a margin, a grid of
//! extents and parts that move with its nozzle tip. A plan gives each object a place, in printing order.
//! The types keep their own bounds, so whoever is handed a `Mesh` or a `Printer` has them.
//!
//! What a reader of the project has to believe stands in `specs/`, one module for each subject: `Points`, `Bands` (the corner
//! points of a band), `Outlines` (its spots, and inner points), `Plates` (the region of an extent) and `Scenes` (collisions,
//! and when a plan is valid); what the types keep in `Bounds`, `Corners`, `Parts` and `Soundness`; `Jobs`, `Contacts`, `Sides`,
//! `Systems`, `Trees`, `Splits` and `Budgets` for the search and its certificates; and `Dictionaries` and `Walks` for what a
//! solver does. The only call here is `region`.
//! Laws over the definitions stand in `model_laws` and `row_laws`, the worked examples in `examples_model`.
#![tactic(auto)]

mod extent;
mod job;
mod mesh;
mod plan;
mod plate;
mod point;
mod printer;
mod row;
mod tree;
mod what;

pub use extent::region;
pub use job::{Job, Object, Zone};
pub use mesh::{Facet, Mesh, Point3};
pub use plan::{Place, Plan};
pub use plate::Region;
pub use point::RatPoint;
pub use printer::{Part, Printer, Spot};
pub use row::Row;
pub use tree::{Choice, Contact, Dir, Mult, Node, Tree, WideNote};
pub use what::What;
