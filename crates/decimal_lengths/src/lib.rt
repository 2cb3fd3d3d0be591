//! Lengths in files: decimals in millimetres, read and written as whole micrometres.
//!
//! `read_um` gives the length of the bytes exactly where they are a decimal with one that is near enough: the whole
//! number of micrometres nearest to the number that they spell, ties away from zero. It gives each refusal exactly
//! where its cause holds, and the definition of a decimal knows nothing of how the bytes are read. `write_um` spells a
//! length in one way, and `read_um` reads it back.
//!
//! The readers of meshes and of printer descriptions take their lengths from here. No call takes memory, and no loop
//! runs as long as an exponent says.
#![tactic(auto)]

mod reading;
mod scanning;
mod sizing;
mod writing;

pub use reading::{each_length, read_um};
pub use writing::write_um;

/// Why bytes are no length.
#[derive(Clone, Copy, Debug, PartialEq, Eq)]
pub enum Decimal {
    /// There is no byte.
    Empty,
    /// There are more than 64.
    TooLong,
    /// The first place such that no decimal begins with the bytes up to and including it.
    BadByte(u32),
    /// Some decimals begin with the bytes, and they are none.
    NoDigit,
    /// The length is above 10,000,000 µm in size.
    TooFar,
}
