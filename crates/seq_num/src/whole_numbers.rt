ghost use Rattle.std.specs.Prelude.{◌≡◌, ◌^◌, ◌<◌, ◌≤◌, ◌+◌, ℕ, ℤ, pos, negsuc, ◌++◌, length, take, drop, IfSome, IfNone, codes, decimal, unsigned_abs};
ghost use Rattle.seq_num.specs.Spelling.{spelling, Spells, IsDigitsOf};

use itoa::Buffer;

/// Writes the spelling of the number to the front, and gives its length.
pub fn write_int(n: i128, to: &mut [u8; 40]) -> usize
    ensures within { result ≤ 40 }
    ensures spelled { take result to.new ≡ spelling n }
    ensures len { result ≡ length (spelling n) }
    ensures rest { drop result to.new ≡ drop result to.old }
{
    let mut buffer = Buffer::new();
    let text = buffer.format(n).as_bytes();
    let len = text.len();
    to[..len].copy_from_slice(text);
    len
}

/// The number that the bytes spell, if they spell one of a size below 2 ^ 100.
pub fn read_int(bytes: &[u8]) -> Option<i128>
    ensures found { IfSome result (Spells bytes.now) }
    ensures none { IfNone result ((n : ℤ) → Spells bytes.now n → ⊥) }
{
    if let Some((b'-', digits)) = bytes.split_first() {
        let n = read_digits(digits)?;
        return if n == 0 { None } else { Some(-(n as i128)) };
    }
    Some(read_digits(bytes)? as i128)
}

// The number below 2 ^ 100 that decimal digits without a leading zero spell.
fn read_digits(bytes: &[u8]) -> Option<u128>
    ensures found { IfSome result (λ n. (n < 2 ^ 100) × (bytes.now ≡ decimal n)) }
    ensures none { IfNone result ((n : ℕ) → n < 2 ^ 100 → bytes.now ≡ decimal n → ⊥) }
{
    if bytes.is_empty() {
        return None;
    }
    if bytes[0] == b'0' {
        return if bytes.len() == 1 { Some(0) } else { None };
    }
    let mut n: u128 = 0;
    for b in bytes {
        if !b.is_ascii_digit() {
            return None;
        }
        n = n * 10 + u128::from(*b - b'0');
        if n >= 1 << 100 {
            return None;
        }
    }
    Some(n)
}

/// What a spelling is: digits of the number's value without a leading zero, after a `-` for a number below 0.
pub fn spelling_digits()
    ensures digits { (n : ℕ) → n < 2 ^ 100 → IsDigitsOf n (spelling (pos n)) }
    ensures minus { (n : ℕ) → spelling (negsuc n) ≡ codes "-" ++ spelling (pos (n + 1)) }
{}

/// No bytes spell two numbers.
pub fn one_spelling()
    ensures { (a b : ℤ) → unsigned_abs a < 2 ^ 100 → unsigned_abs b < 2 ^ 100 → spelling a ≡ spelling b
        → a ≡ b }
{}
