//! What can stand next in a solid.

ghost use Rattle.std.specs.Prelude.{◌≡◌, ◌≤◌, ◌<◌, length, IfOk, IfSome};
ghost use Rattle.stl_text.specs.Grammar.{opening, closing, next_facet, part};
ghost use Rattle.stl_text.specs.Progress.{ComesOn, PartFits};
ghost use Rattle.stl_text.specs.Reading.{ReadsOnly};

use crate::facets::{facet, keyword};
use crate::words::{is_spelled, next_word, rest_of_line};
use crate::{Keyword, Stl};
use seq_limits::MOST_FACETS;
use seq_model::Facet as Triangle;

/// What stands next in a solid, and the place behind it.
#[derive(Clone, Copy)]
pub enum Part {
    Facet(Triangle, usize),
    /// The last line of the solid, and the first one of the next if there is one.
    Ending(Option<usize>),
}

/// The place behind the first line of a solid.
pub fn opening(bytes: &[u8], at: usize) -> Result<usize, Stl>
    requires { at ≤ length bytes.now }
    ensures reads { ReadsOnly (opening bytes.now at) result }
    ensures forward { IfOk result (λ to. at ≤ to) }
    ensures within { IfOk result (λ to. to ≤ length bytes.now) }
{
    let at = keyword(bytes, at, Keyword::Solid)?;
    Ok(rest_of_line(bytes, at))
}

// What stands behind the word `endsolid`: the place behind the first line of the next solid, if there is one.
fn closing(bytes: &[u8], at: usize) -> Result<Option<usize>, Stl>
    requires { at ≤ length bytes.now }
    ensures reads { ReadsOnly (closing bytes.now at) result }
    ensures comes_on { IfOk result (λ next. IfSome next (λ to. ComesOn bytes.now at to)) }
{
    let line = rest_of_line(bytes, at);
    let word = next_word(bytes, line);
    if word.from >= word.to {
        return Ok(None);
    }
    let to = opening(bytes, line)?;
    Ok(Some(to))
}

// What stands behind the word `facet`, `count` facets before it.
fn next_facet(bytes: &[u8], at: usize, count: usize) -> Result<Part, Stl>
    requires { at ≤ length bytes.now }
    ensures reads { ReadsOnly (next_facet bytes.now at count) result }
    ensures fits { IfOk result (λ part. PartFits bytes.now at count part) }
{
    if count >= MOST_FACETS {
        return Err(Stl::TooManyFacets);
    }
    let (triangle, to) = facet(bytes, at)?;
    Ok(Part::Facet(triangle, to))
}

/// What stands next in a solid, `count` facets before it.
pub fn next_part(bytes: &[u8], at: usize, count: usize) -> Result<Part, Stl>
    requires { at ≤ length bytes.now }
    ensures reads { ReadsOnly (part bytes.now at count) result }
    ensures fits { IfOk result (λ part. PartFits bytes.now at count part) }
{
    let word = next_word(bytes, at);
    if is_spelled(bytes, word, b"facet") {
        let next = next_facet(bytes, word.to, count)?;
        return Ok(next);
    }
    if is_spelled(bytes, word, b"endsolid") {
        let next = closing(bytes, word.to)?;
        return Ok(Part::Ending(next));
    }
    Err(Stl::Expected(Keyword::FacetOrEndsolid, word.from as u64))
}
