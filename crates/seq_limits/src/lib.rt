//! What a job may have: limits that code, clauses and definitions cite by name.
//!
//! Lengths are in micrometres or in grains of the printer, as each says.
#![tactic(auto)]

/// The most objects of a job.
pub const MOST_OBJECTS: usize = 16;

/// The most bands of an object.
pub const MOST_BANDS: u32 = 200;

/// The most facets of a mesh, with those that are dropped.
pub const MOST_FACETS: usize = 200_000;

/// The most nodes that a search may look at, and the most splits above a node of a tree.
pub const MOST_NODES: u64 = 1_000_000;

/// The nodes that a search may look at where the words don't say.
pub const USUAL_NODES: u64 = 20_000;

/// The greatest size of a coordinate of a mesh, and the greatest height at which a part begins or ends, in micrometres: 10 m.
pub const FARTHEST: u32 = 10_000_000;

/// The least grain, in micrometres.
pub const LEAST_GRAIN: i64 = 10;

/// The greatest grain, in micrometres.
pub const GREATEST_GRAIN: i64 = 10_000;

/// The least height of a band, in micrometres.
pub const LEAST_STEP: i64 = 10;

/// The greatest height of a band, in micrometres.
pub const GREATEST_STEP: i64 = 100_000;

/// The greatest width or depth of a plate, in grains.
pub const GREATEST_PLATE: i64 = 20_000;

/// The greatest margin, in grains.
pub const GREATEST_MARGIN: i64 = 1_000;

/// The most extents of a grid.
pub const MOST_GRID: u32 = 1_000;

/// The greatest size of a coordinate of a part's corner, seen from the tip, in grains.
pub const GREATEST_REACH: u32 = 100_000;

/// The most parts that a description lists.
pub const MOST_LISTED_PARTS: usize = 12;

/// The most parts of a printer: one more, the tip.
pub const MOST_PARTS: usize = 13;

/// The most corners of a part.
pub const MOST_CORNERS: usize = 32;

/// The most bytes of a part's name.
pub const LONGEST_NAME: usize = 40;
