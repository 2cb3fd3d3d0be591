ghost use Rattle.std.specs.Prelude.{◌≡◌, ◌≤◌, length};
ghost use Rattle.std.specs.Option.{option_copied, option_map};
ghost use Rattle.text_lines.specs.Reading.{literal_at, digit_count, whole_len, whole_at, has_line_end};

use seq_num::read_int;

/// The bytes after a fixed text, where they begin with it.
#[tactic(auto, unfolding(crate::specs::Reading::literal_at))]
pub fn literal<'a>(bytes: &'a [u8], text: &[u8]) -> Option<&'a [u8]>
    ensures { option_copied result ≡ literal_at text.now bytes.now }
{
    bytes.strip_prefix(text)
}

/// The whole number at the front, as far as `-` and digits reach, and the bytes after it.
#[tactic(auto, unfolding(crate::specs::Reading::whole_at))]
pub fn whole(bytes: &[u8]) -> Option<(i128, &[u8])>
    ensures { option_map (λ x. (x.0, x.1.now)) result ≡ whole_at bytes.now }
{
    let (front, rest) = bytes.split_at(whole_len(bytes));
    let n = read_int(front)?;
    Some((n, rest))
}

// How far a leading `-` and the digits after it reach.
fn whole_len(bytes: &[u8]) -> usize
    ensures value { result ≡ whole_len bytes.now }
    ensures within { result ≤ length bytes.now }
{
    match bytes.split_first() {
        Some((b'-', digits)) => digit_count(digits) + 1,
        _ => digit_count(bytes),
    }
}

// How many digits the bytes begin with.
fn digit_count(bytes: &[u8]) -> usize
    ensures value { result ≡ digit_count bytes.now }
    ensures within { result ≤ length bytes.now }
{
    for (count, byte) in bytes.iter().enumerate() {
        if !byte.is_ascii_digit() {
            return count;
        }
    }
    bytes.len()
}

/// Whether a line ends among the bytes.
pub fn has_line_end(bytes: &[u8]) -> bool
    ensures { result ≡ has_line_end bytes.now }
{
    bytes.contains(&b'\n')
}
