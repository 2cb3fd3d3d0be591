//! Reads a length.

ghost use Rattle.std.specs.Prelude.{◌≡◌, ◌↔◌, ◌<◌, ◌≤◌, ◌^◌, ℤ, Ok, Err, length, if◌then◌else◌, neg_ℤ, pos, List, ℕ, Some};
ghost use Rattle.std.specs.Result.{result_ok};
ghost use Rattle.decimal_lengths.specs.Computed.{length_of};
ghost use Rattle.decimal_lengths.specs.Lengths.{IsReadAs};
ghost use Rattle.decimal_lengths.specs.Refusals.{Refuses, Answers};

use crate::Decimal;
use crate::scanning::scan;
use crate::sizing::size;

const MOST_BYTES: usize = 64;

/// The length in µm of a decimal in millimetres, rounded to the nearest, ties away from zero.
///
/// A decimal is an optional sign, digits with at most one point and at least one digit, and optionally `e` or `E` with
/// an optional sign and at least one digit.
pub fn read_um(bytes: &[u8]) -> Result<i64, Decimal>
    ensures length { (um : ℤ) → (result ≡ Ok um) ↔ IsReadAs bytes.now um }
    ensures value { result_ok result ≡ length_of bytes.now }
    ensures refused { (cause : Decimal) → (result ≡ Err cause) ↔ Refuses bytes.now cause }
{
    if bytes.is_empty() {
        return Err(Decimal::Empty);
    }
    if bytes.len() > MOST_BYTES {
        return Err(Decimal::TooLong);
    }
    read_short(bytes)
}

/// The length of any bytes is one function of them: it gives a length exactly where they are read as that one.
pub fn each_length()
    ensures { (bytes : List ℕ) (um : ℤ) → (length_of bytes ≡ Some um) ↔ IsReadAs bytes um }
{}

fn read_short(bytes: &[u8]) -> Result<i64, Decimal>
    requires some { 0 < length bytes.now }
    requires short { length bytes.now ≤ 64 }
    ensures { Answers bytes.now result }
{
    let number = scan(bytes)?;
    let Some(um) = size(&number) else {
        return Err(Decimal::TooFar);
    };
    Ok(with_sign(number.negative, um))
}

fn with_sign(negative: bool, size: u64) -> i64
    requires { size < 2 ^ 63 }
    ensures { result ≡ (if negative then neg_ℤ (pos size) else pos size) }
{
    let um = size as i64;
    if negative { -um } else { um }
}
