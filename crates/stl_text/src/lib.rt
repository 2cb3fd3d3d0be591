//! Meshes in ASCII STL.
//!
//! `read_mesh` answers the mesh of the bytes exactly where they are one, and each refusal exactly where the grammar gives
//! it: the first in the order of the text, with its place in bytes. `specs/Grammar` is that grammar, written down apart
//! from the code, and `specs/Meshes` says what a mesh makes of its facets.
//!
//! It stands between the bytes of a mesh file and the crates that look at its facets. One pass over the bytes, no word
//! is copied, and only the list of facets takes memory.
#![tactic(auto)]

mod facets;
mod found;
mod mesh;
mod parts;
mod words;

use decimal_lengths::Decimal;
pub use facets::text_of;
pub use mesh::{one_answer, read_mesh};

/// A word that the grammar asks for.
#[derive(Clone, Copy, Debug, PartialEq, Eq)]
pub enum Keyword {
    Solid,
    FacetOrEndsolid,
    Normal,
    /// One of the three words behind `normal`, whatever it is.
    NormalWord,
    Outer,
    Loop,
    Vertex,
    Endloop,
    Endfacet,
}

/// Why bytes are no mesh. A place is the number of bytes before the word that is wrong, and the length of the file where
/// no word is left.
#[derive(Clone, Copy, Debug, PartialEq, Eq)]
pub enum Stl {
    /// As long as a binary mesh would be by the number of facets at byte 80.
    Binary,
    Expected(Keyword, u64),
    /// A word that is no length.
    Number(u64, Decimal),
    /// More than 200,000 facets, dropped ones too.
    TooManyFacets,
    NoFacet,
    NoMemory,
}
