//! The pieces of a facet.

ghost use Rattle.std.specs.Prelude.{◌≡◌, ◌≤◌, ◌<◌, length, IfOk, unsigned_abs};
ghost use Rattle.seq_model.specs.Bounds.{IsNear, IsNearFacet};
ghost use Rattle.stl_text.specs.Grammar.{text_of, keyword, any_word, number, vertex, normal, facet};
ghost use Rattle.stl_text.specs.Reading.{ReadsOnly};

use crate::words::{is_spelled, next_word};
use crate::{Keyword, Stl};
use decimal_lengths::read_um;
use seq_limits::FARTHEST;
use seq_model::{Facet, Point3};

/// How a keyword is told to a person. Those that are one word are spelled so in a file.
pub fn text_of(keyword: Keyword) -> &'static str
    ensures { result.now ≡ text_of keyword }
{
    match keyword {
        Keyword::Solid => "solid",
        Keyword::FacetOrEndsolid => "facet or endsolid",
        Keyword::Normal => "normal",
        Keyword::NormalWord => "word of normal",
        Keyword::Outer => "outer",
        Keyword::Loop => "loop",
        Keyword::Vertex => "vertex",
        Keyword::Endloop => "endloop",
        Keyword::Endfacet => "endfacet",
    }
}

/// The place behind the next word, which must be the keyword's.
pub fn keyword(bytes: &[u8], at: usize, wanted: Keyword) -> Result<usize, Stl>
    requires { at ≤ length bytes.now }
    ensures reads { ReadsOnly (keyword bytes.now at wanted) result }
    ensures forward { IfOk result (λ to. at ≤ to) }
    ensures within { IfOk result (λ to. to ≤ length bytes.now) }
{
    let word = next_word(bytes, at);
    if is_spelled(bytes, word, text_of(wanted).as_bytes()) {
        Ok(word.to)
    } else {
        Err(Stl::Expected(wanted, word.from as u64))
    }
}

// The place behind the next word, whatever it is.
fn any_word(bytes: &[u8], at: usize) -> Result<usize, Stl>
    requires { at ≤ length bytes.now }
    ensures reads { ReadsOnly (any_word bytes.now at) result }
    ensures forward { IfOk result (λ to. at < to) }
    ensures within { IfOk result (λ to. to ≤ length bytes.now) }
{
    let word = next_word(bytes, at);
    if word.from < word.to {
        Ok(word.to)
    } else {
        Err(Stl::Expected(Keyword::NormalWord, word.from as u64))
    }
}

// A length in µm, and the place behind it.
fn number(bytes: &[u8], at: usize) -> Result<(i64, usize), Stl>
    requires { at ≤ length bytes.now }
    ensures reads { ReadsOnly (number bytes.now at) result }
    ensures forward { IfOk result (λ n. at ≤ n.1) }
    ensures within { IfOk result (λ n. n.1 ≤ length bytes.now) }
    ensures near { IfOk result (λ n. unsigned_abs n.0 ≤ FARTHEST) }
{
    let word = next_word(bytes, at);
    match read_um(&bytes[word.from..word.to]) {
        Ok(um) => Ok((um, word.to)),
        Err(cause) => Err(Stl::Number(word.from as u64, cause)),
    }
}

// A corner in µm, and the place behind it.
fn vertex(bytes: &[u8], at: usize) -> Result<(Point3, usize), Stl>
    requires { at ≤ length bytes.now }
    ensures reads { ReadsOnly (vertex bytes.now at) result }
    ensures forward { IfOk result (λ v. at ≤ v.1) }
    ensures within { IfOk result (λ v. v.1 ≤ length bytes.now) }
    ensures near { IfOk result (λ v. IsNear v.0) }
{
    let at = keyword(bytes, at, Keyword::Vertex)?;
    let (x, at) = number(bytes, at)?;
    let (y, at) = number(bytes, at)?;
    let (z, at) = number(bytes, at)?;
    Ok((Point3 { x, y, z }, at))
}

// The place behind a normal, whose three words are skipped unread.
fn normal(bytes: &[u8], at: usize) -> Result<usize, Stl>
    requires { at ≤ length bytes.now }
    ensures reads { ReadsOnly (normal bytes.now at) result }
    ensures forward { IfOk result (λ to. at < to) }
    ensures within { IfOk result (λ to. to ≤ length bytes.now) }
{
    let at = keyword(bytes, at, Keyword::Normal)?;
    let at = any_word(bytes, at)?;
    let at = any_word(bytes, at)?;
    any_word(bytes, at)
}

/// What stands behind the word `facet`, and the place behind that.
pub fn facet(bytes: &[u8], at: usize) -> Result<(Facet, usize), Stl>
    requires { at ≤ length bytes.now }
    ensures reads { ReadsOnly (facet bytes.now at) result }
    ensures forward { IfOk result (λ f. at < f.1) }
    ensures within { IfOk result (λ f. f.1 ≤ length bytes.now) }
    ensures near { IfOk result (λ f. IsNearFacet f.0) }
{
    let at = normal(bytes, at)?;
    let at = keyword(bytes, at, Keyword::Outer)?;
    let at = keyword(bytes, at, Keyword::Loop)?;
    let (a, at) = vertex(bytes, at)?;
    let (b, at) = vertex(bytes, at)?;
    let (c, at) = vertex(bytes, at)?;
    let at = keyword(bytes, at, Keyword::Endloop)?;
    let at = keyword(bytes, at, Keyword::Endfacet)?;
    Ok((Facet { a, b, c }, at))
}
