ghost use Rattle.std.specs.Prelude.{◌≡◌, ◌∷◌, ◌++◌, [], IfOk, IfSome, Some, None, true, false, codes};
ghost use Rattle.text_lines.specs.Reading.{literal_at};
ghost use Rattle.std.specs.Option.{option_map};
ghost use Rattle.cert_text.specs.Lines.{pair_at, pairs_at, are_due, bound_at, ends_line};

use std::alloc::AllocError;
use text_lines::{literal, whole};

/// A pair of a bound line: two whole numbers below 2^100 in size.
#[derive(Clone, Copy, Debug, PartialEq, Eq)]
pub struct Pair {
    pub row: i128,
    pub times: i128,
}

pub(crate) fn ends_line(bytes: &[u8]) -> bool
    ensures { result ≡ ends_line bytes.now }
{
    literal(bytes, b"\n").is_some()
}

// The bytes after the end of the line.
pub(crate) fn line_end(bytes: &[u8]) -> Option<&[u8]>
    ensures { option_map (λ x. x.now) result ≡ literal_at (codes "\n") bytes.now }
{
    literal(bytes, b"\n")
}

// The pair at the front, behind a space.
#[tactic(auto, unfolding(crate::specs::Lines::pair_at))]
fn pair_line(bytes: &[u8]) -> Option<(Pair, &[u8])>
    ensures { option_map (λ x. (x.0, x.1.now)) result ≡ pair_at bytes.now }
{
    let rest = literal(bytes, b" ")?;
    let (row, rest) = whole(rest)?;
    let rest = literal(rest, b":")?;
    let (times, rest) = whole(rest)?;
    Some((Pair { row, times }, rest))
}

// How many multipliers a bound line has at most.
const MOST_PAIRS: usize = 33;

// The pairs up to the end of the line, so many at most.
fn all_pairs<'a>(found: &mut Vec<Pair>, bytes: &'a [u8]) -> Result<Option<&'a [u8]>, AllocError>
    requires { found.old.items ≡ [] }
    ensures { IfOk result
        (λ r. option_map (λ rest. (found.new.items, rest.now)) r ≡ pairs_at 33 bytes.now) }
{
    let mut rest = bytes;
    while !ends_line(rest) {
        if found.len() == MOST_PAIRS {
            return Ok(None);
        }
        let Some((pair, after)) = pair_line(rest) else {
            return Ok(None);
        };
        found.push(pair)?;
        rest = after;
    }
    Ok(line_end(rest))
}

// Whether there are pairs, their rows rise strictly from 0 on, and no number is below 0.
fn are_due(pairs: &[Pair]) -> bool
    ensures { result ≡ are_due pairs.now }
{
    let mut last = -1;
    for pair in pairs {
        if pair.row <= last {
            return false;
        }
        if pair.times < 0 {
            return false;
        }
        last = pair.row;
    }
    !pairs.is_empty()
}

/// The pairs of a bound line, behind its keyword, and the bytes after that line.
#[tactic(auto, unfolding(crate::specs::Lines::bound_at))]
pub(crate) fn bound_line<'a>(
    found: &mut Vec<Pair>,
    bytes: &'a [u8],
) -> Result<Option<&'a [u8]>, AllocError>
    requires { found.old.items ≡ [] }
    ensures { IfOk result
        (λ r. option_map (λ rest. (found.new.items, rest.now)) r ≡ bound_at bytes.now) }
{
    let Some(rest) = all_pairs(found, bytes)? else {
        return Ok(None);
    };
    if !are_due(found) {
        return Ok(None);
    }
    Ok(Some(rest))
}
