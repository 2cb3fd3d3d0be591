//! Writes a length.

ghost use Rattle.std.specs.Prelude.{◌≡◌, ◌≤◌, ◌<◌, ◌+◌, ◌++◌, ℕ, length, take, drop, unsigned_abs};
ghost use Rattle.decimal_lengths.specs.Lengths.{IsReadAs};
ghost use Rattle.decimal_lengths.specs.Spelling.{millimetres, thousandths, sign_of_length};

use itoa::Buffer;
use seq_limits::FARTHEST;

/// Writes a length of so many µm to the front, in millimetres, and gives the number of bytes: a sign, the whole part,
/// and, unless it is whole, a point and one to three digits without a zero at the end.
pub fn write_um(um: i64, to: &mut [u8; 24]) -> usize
    ensures within { result ≤ 24 }
    ensures spelled { take result to.new ≡ millimetres um }
    ensures rest { drop result to.new ≡ drop result to.old }
    ensures read_back { unsigned_abs um ≤ FARTHEST → IsReadAs (take result to.new) um }
{
    let size = um.unsigned_abs();
    let mut buffer = Buffer::new();
    let len = put_sign(to, um);
    let len = put(to, len, buffer.format(size / 1000).as_bytes());
    put_thousandths(to, len, size % 1000)
}

fn put_sign(to: &mut [u8], um: i64) -> usize
    requires { 0 < length to.old }
    ensures within { result ≤ 1 }
    ensures spelled { take result to.new ≡ sign_of_length um }
    ensures rest { (k : ℕ) → result ≤ k → drop k to.new ≡ drop k to.old }
    ensures len { length to.new ≡ length to.old }
{
    if um < 0 {
        to[0] = b'-';
        return 1;
    }
    0
}

fn put_thousandths(to: &mut [u8], at: usize, n: u64) -> usize
    requires room { at + 4 ≤ length to.old }
    requires few { n < 1000 }
    ensures after { at ≤ result }
    ensures within { result ≤ length to.new }
    ensures spelled { take result to.new ≡ take at to.old ++ thousandths n }
    ensures rest { (k : ℕ) → result ≤ k → drop k to.new ≡ drop k to.old }
    ensures len { length to.new ≡ length to.old }
{
    let digits = [
        b'.',
        b'0' + (n / 100) as u8,
        b'0' + (n / 10 % 10) as u8,
        b'0' + (n % 10) as u8,
    ];
    let count = if n == 0 {
        0
    } else if n % 100 == 0 {
        2
    } else if n % 10 == 0 {
        3
    } else {
        4
    };
    put(to, at, &digits[..count])
}

// Writes the bytes at a place, and gives their end.
fn put(to: &mut [u8], at: usize, bytes: &[u8]) -> usize
    requires { at + length bytes.now ≤ length to.old }
    ensures end { result ≡ at + length bytes.now }
    ensures spelled { take result to.new ≡ take at to.old ++ bytes.now }
    ensures rest { (k : ℕ) → result ≤ k → drop k to.new ≡ drop k to.old }
    ensures len { length to.new ≡ length to.old }
{
    let end = at + bytes.len();
    to[at..end].copy_from_slice(bytes);
    end
}
