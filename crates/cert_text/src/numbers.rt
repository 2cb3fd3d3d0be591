ghost use Rattle.std.specs.Prelude.{◌≡◌, [], IfOk, codes};
ghost use Rattle.std.specs.Option.{option_map};
ghost use Rattle.cert_text.specs.Lines.{number_at, numbers_at};

use crate::pairs::{ends_line, line_end};
use std::alloc::AllocError;
use text_lines::{literal, whole};

/// The number behind a separator, and the bytes after it.
#[tactic(auto, unfolding(crate::specs::Lines::number_at))]
pub(crate) fn number<'a>(bytes: &'a [u8], separator: &[u8]) -> Option<(i128, &'a [u8])>
    ensures { option_map (λ x. (x.0, x.1.now)) result ≡ number_at separator.now bytes.now }
{
    let rest = literal(bytes, separator)?;
    whole(rest)
}

/// The numbers up to the end of the line, as many as there is room for, and the bytes after the line.
pub(crate) fn numbers<'a>(
    found: &mut Vec<i128>,
    separator: &[u8],
    room: usize,
    bytes: &'a [u8],
) -> Result<Option<&'a [u8]>, AllocError>
    requires { found.old.items ≡ [] }
    ensures { IfOk result
        (λ r. option_map (λ rest. (found.new.items, rest.now)) r
        ≡ numbers_at separator.now room bytes.now) }
{
    let mut rest = bytes;
    while !ends_line(rest) {
        if found.len() == room {
            return Ok(None);
        }
        let Some((n, after)) = number(rest, separator) else {
            return Ok(None);
        };
        found.push(n)?;
        rest = after;
    }
    Ok(line_end(rest))
}
