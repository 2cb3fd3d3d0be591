//! The text that tells the bands of an object and their outlines.
//!
//! `slices_text` gives the height, the number of bands and the zones with their corners, as `specs/SlicesText.antt` spells them. It
//! stands on the model, and the top call prints by it.
#![tactic(auto)]

mod writing;

pub use writing::slices_text;
