ghost use Rattle.std.specs.Prelude.{◌≡◌, ◌↔◌, ℕ, ◌+◌, ◌*◌, ◌<◌, ◌≤◌, ◌^◌, ℤ, pos, ◌+ℤ◌, ◌*ℤ◌, ◌≤ℤ◌, ◌<ℤ◌, unsigned_abs, IsTrue, Some, None};
ghost use Rattle.integer_laws.specs.Quotients.{IsFloor};
ghost use Rattle.row_dictionary.specs.Halving.{whole, IsWithin};
ghost use Rattle.row_pivots.specs.Ends.{Small};

use integer_laws::{difference, product, sum};
use seq_num::floor_div;

const HALF: i128 = 1 << 62;

/// A sum of numbers that may pass 128 bits, though its value is small: high * 2^62 + low.
#[derive(Clone, Copy, Debug)]
pub struct Halves {
    pub high: i128,
    pub low: i128,
}

/// How often 2^62 goes into a number, rounded down.
fn above(x: &i128) -> i128
    requires { unsigned_abs x.now < 2 ^ 124 }
    ensures rounds { IsFloor x.now (pos (2 ^ 62)) result }
    ensures size { unsigned_abs result ≤ 2 ^ 62 }
{
    if *x >= 0 && *x < HALF {
        return 0;
    }
    if *x < 0 && *x >= -HALF {
        return -1;
    }
    floor_div(*x, HALF)
}

/// What is left of a number, once its multiple of 2^62 is taken away.
fn below(x: &i128, high: &i128) -> i128
    requires x { unsigned_abs x.now < 2 ^ 124 }
    requires rounds { IsFloor x.now (pos (2 ^ 62)) high.now }
    requires high { unsigned_abs high.now ≤ 2 ^ 62 }
    ensures value { high.now *ℤ pos (2 ^ 62) +ℤ result ≡ x.now }
    ensures positive { pos 0 ≤ℤ result }
    ensures size { unsigned_abs result < 2 ^ 62 }
{
    difference(*x, product(*high, HALF))
}

/// No number.
pub fn nothing() -> Halves
    ensures value { whole result ≡ pos 0 }
    ensures within { IsWithin 0 result }
{
    Halves { high: 0, low: 0 }
}

/// The halves of two numbers.
fn added(halves: &Halves, high: &i128, low: &i128) -> Halves
    requires high_size { unsigned_abs halves.now.high < 2 ^ 125 }
    requires low_size { unsigned_abs halves.now.low < 2 ^ 125 }
    requires high { unsigned_abs high.now ≤ 2 ^ 62 }
    requires low { unsigned_abs low.now ≤ 2 ^ 62 }
    ensures high { result.high ≡ halves.now.high +ℤ high.now }
    ensures low { result.low ≡ halves.now.low +ℤ low.now }
{
    Halves {
        high: sum(halves.high, *high),
        low: sum(halves.low, *low),
    }
}

/// The sum of `count` numbers, and one more.
pub fn and_one(halves: &Halves, count: usize, x: &i128) -> Halves
    requires count { count < 2 ^ 40 }
    requires within { IsWithin count halves.now }
    requires x { unsigned_abs x.now < 2 ^ 124 }
    ensures value { whole result ≡ whole halves.now +ℤ x.now }
    ensures within { IsWithin (count + 1) result }
{
    let high = above(x);
    let low = below(x, &high);
    added(halves, &high, &low)
}

/// What goes into the high half, and what is left in the low one.
fn moved(halves: &Halves, carry: &i128, left: &i128) -> Halves
    requires high_size { unsigned_abs halves.now.high < 2 ^ 125 }
    requires carry { unsigned_abs carry.now ≤ 2 ^ 62 }
    ensures high { result.high ≡ halves.now.high +ℤ carry.now }
    ensures low { result.low ≡ left.now }
{
    Halves {
        high: sum(halves.high, *carry),
        low: *left,
    }
}

/// The same number, with a low half below 2^62.
fn carried(halves: &Halves, count: usize) -> Halves
    requires count { count < 2 ^ 40 }
    requires within { IsWithin count halves.now }
    ensures value { whole result ≡ whole halves.now }
    ensures positive { pos 0 ≤ℤ result.low }
    ensures size { unsigned_abs result.low < 2 ^ 62 }
{
    let carry = above(&halves.low);
    let left = below(&halves.low, &carry);
    moved(halves, &carry, &left)
}

/// The number that the halves make, where it is below 2^62 in size.
fn joined(halves: &Halves) -> Option<i64>
    requires positive { pos 0 ≤ℤ halves.now.low }
    requires size { unsigned_abs halves.now.low < 2 ^ 62 }
    ensures value { (x : ℤ) → result ≡ Some x → x ≡ whole halves.now }
    ensures small { (x : ℤ) → result ≡ Some x → Small x }
    ensures wide { result ≡ None → Small (whole halves.now) → ⊥ }
{
    if halves.high == 0 {
        return Some(halves.low as i64);
    }
    if halves.high == -1 && halves.low != 0 {
        return Some((halves.low - HALF) as i64);
    }
    None
}

/// The sum of so many numbers, where it is below 2^62 in size.
pub fn small_sum(halves: &Halves, count: usize) -> Option<i64>
    requires count { count < 2 ^ 40 }
    requires within { IsWithin count halves.now }
    ensures value { (x : ℤ) → result ≡ Some x → x ≡ whole halves.now }
    ensures small { (x : ℤ) → result ≡ Some x → Small x }
    ensures wide { result ≡ None → Small (whole halves.now) → ⊥ }
{
    joined(&carried(halves, count))
}
