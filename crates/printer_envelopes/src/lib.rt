//! The envelopes of a printer's parts, which move with its nozzle tip: in grains across the plate, and in bands above it.
//!
//! `bar_corners` gives a bar as its rectangle, and `bands_of` the bands that a part reaches: rounded so that a part which
//! overlaps a band in height at any moment of printing another is counted there. `meets` and `zones_meet` decide what the
//! definitions of a collision and of a contact ask of bands, exactly. No call takes memory.
//!
//! It stands on the model. The reader of printer descriptions makes parts by it, and whoever looks for collisions asks it
//! which bands meet.
#![tactic(auto)]

mod bands;
mod bars;

pub use bands::{bands_of, meets, some_bands_meet, zones_meet};
pub use bars::bar_corners;
