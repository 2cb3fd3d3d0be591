//! Words and lines by their places.

ghost use Rattle.std.specs.Prelude.{◌≡◌, ◌≤◌, ◌<◌, ◌↔◌, length, IsTrue};
ghost use Rattle.stl_text.specs.Words.{stops, IsFirst, IsNext, IsRest, IsSpelled, letters};

/// A word from one place to another: the empty one at the end of the bytes where no word is left.
#[derive(Clone, Copy)]
pub struct Word {
    pub from: usize,
    pub to: usize,
}

/// The bytes that a run of other bytes stops at.
#[derive(Clone, Copy)]
pub enum Stop {
    /// A byte of a word.
    Black,
    White,
    LineEnd,
}

impl Stop {
    fn is_at(self, byte: u8) -> bool
        ensures { result ≡ stops self byte }
    {
        match self {
            Stop::Black => !matches!(byte, b' ' | b'\t' | b'\r' | b'\n'),
            Stop::White => matches!(byte, b' ' | b'\t' | b'\r' | b'\n'),
            Stop::LineEnd => matches!(byte, b'\r' | b'\n'),
        }
    }
}

/// The first place from `from` on that the run stops at.
fn run_end(bytes: &[u8], from: usize, stop: Stop) -> usize
    requires { from ≤ length bytes.now }
    ensures { IsFirst (stops stop) bytes.now from result }
{
    let mut at = from;
    while at < bytes.len() {
        if stop.is_at(bytes[at]) {
            return at;
        }
        at += 1;
    }
    at
}

pub fn next_word(bytes: &[u8], at: usize) -> Word
    requires { at ≤ length bytes.now }
    ensures { IsNext bytes.now at result }
{
    let from = run_end(bytes, at, Stop::Black);
    let to = run_end(bytes, from, Stop::White);
    Word { from, to }
}

/// The place behind the line.
pub fn rest_of_line(bytes: &[u8], at: usize) -> usize
    requires { at ≤ length bytes.now }
    ensures rest { IsRest bytes.now at result }
    ensures forward { at ≤ result }
    ensures within { result ≤ length bytes.now }
    ensures strict { result < length bytes.now → at < result }
{
    let end = run_end(bytes, at, Stop::LineEnd);
    if end < bytes.len() { end + 1 } else { end }
}

/// Whether the word is this text, without regard to ASCII case.
pub fn is_spelled(bytes: &[u8], word: Word, text: &[u8]) -> bool
    requires order { word.from ≤ word.to }
    requires within { word.to ≤ length bytes.now }
    ensures { IsTrue result ↔ IsSpelled (letters bytes.now word) text.now }
{
    bytes[word.from..word.to].eq_ignore_ascii_case(text)
}
