//! Meshes, sliced into objects.
//!
//! `object` cuts a mesh into bands of the printer's band height and gives each band the convex outline of its spots. A zone
//! is a longest run of bands with one outline. Its main clause says that each band with spots lies in exactly one zone, whose
//! corners are the hull of these spots, that a band without spots lies in none, and that low and high are the extremes over
//! all bands. Another says that the zones cover the mesh: none of its points in a band lies outside the zone that holds the band.
//! A mesh without facet is refused, and one of more than 200 bands with their number, exactly these, for want of memory alone
//! besides.
//!
//! `laws` proves over the definitions that a mesh has one object, that zones cover their bands, and that a job has the valid plans
//! and the least extent of the meshes that it was made from.
//!
//! It stands between the mesh as it was read and the search, which sees objects by their zones alone. `specs/Objects.antt`
//! has the words of the contract, `Cover.antt` and `Agreement.antt` those of the laws.
#![tactic(auto)]

mod corner;
mod extremes;
mod grains;
pub mod laws;
mod measure;
mod objects;
mod outline;
mod points;
mod slice;
mod zones;

pub use objects::object;
pub use slice::Slice;
