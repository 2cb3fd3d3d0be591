// Points of a system, and the gap of two objects there.
ghost use Rattle.std.specs.Prelude.{◌≡◌, ◌<◌, ◌^◌, ◌*◌, ◌+ℤ◌, ◌-ℤ◌, ◌*ℤ◌, ◌≤ℤ◌, pos, unsigned_abs, All, IsTrue};
ghost use Rattle.pair_constraints.specs.SolvedPoints.{IsSmall, IsSolvedPoint};

use integer_laws::{difference, product, sum};

/// The point nums / den of a system, prepared once: `narrow` where all products of a test at it fit 64 bits.
#[derive(Clone, Copy, Debug)]
pub struct SolvedPoint<'a> {
    pub den: i64,
    pub nums: &'a [i64],
    pub narrow: bool,
}

fn is_small(n: &i64) -> bool
    ensures { IsTrue result → IsSmall n.now }
{
    n.unsigned_abs() < 137_438_953_472
}

fn are_small(nums: &[i64]) -> bool
    ensures { IsTrue result → All IsSmall nums.now }
{
    for n in nums {
        if !is_small(n) {
            return false;
        }
    }
    true
}

impl<'a> SolvedPoint<'a> {
    /// Walks over the numbers once.
    pub fn new(den: i64, nums: &'a [i64]) -> SolvedPoint<'a>
        requires one { pos 1 ≤ℤ den }
        requires small { unsigned_abs den < 2 ^ 62 }
        ensures den { result.den ≡ den }
        ensures nums { result.nums.now ≡ nums.now }
        ensures is { IsSolvedPoint result }
    {
        let narrow = den < 65_536 && are_small(nums);
        SolvedPoint { den, nums, narrow }
    }
}

pub(crate) fn small_product(a: i64, b: i64) -> i64
    requires { unsigned_abs a * unsigned_abs b < 2 ^ 62 }
    ensures value { result ≡ a *ℤ b }
    ensures size { unsigned_abs result ≡ unsigned_abs a * unsigned_abs b }
{
    a * b
}

fn moved(shift: i64, den: i64) -> i64
    requires shift { unsigned_abs shift < 2 ^ 22 }
    requires den { unsigned_abs den < 2 ^ 16 }
    ensures value { result ≡ den *ℤ shift }
    ensures size { unsigned_abs result < 2 ^ 38 }
{
    small_product(den, shift)
}

fn narrow_sum(later: i64, earlier: i64, moved: i64) -> i64
    requires later { unsigned_abs later < 2 ^ 37 }
    requires earlier { unsigned_abs earlier < 2 ^ 37 }
    requires moved { unsigned_abs moved < 2 ^ 38 }
    ensures value { result ≡ (later -ℤ earlier) +ℤ moved }
    ensures size { unsigned_abs result < 2 ^ 40 }
{
    later - earlier + moved
}

// By how far the later object stands ahead of the earlier one along an axis, times the denominator: by the system's variables,
// and by their low corners, from which these are counted.
pub(crate) fn narrow_step(later: i64, earlier: i64, den: i64, shift: i64) -> i64
    requires later { unsigned_abs later < 2 ^ 37 }
    requires earlier { unsigned_abs earlier < 2 ^ 37 }
    requires den { unsigned_abs den < 2 ^ 16 }
    requires shift { unsigned_abs shift < 2 ^ 22 }
    ensures value { result ≡ (later -ℤ earlier) +ℤ den *ℤ shift }
    ensures size { unsigned_abs result < 2 ^ 40 }
{
    narrow_sum(later, earlier, moved(shift, den))
}

fn wide_moved(shift: i64, den: i64) -> i128
    requires shift { unsigned_abs shift < 2 ^ 22 }
    requires den { unsigned_abs den < 2 ^ 62 }
    ensures value { result ≡ den *ℤ shift }
    ensures size { unsigned_abs result < 2 ^ 84 }
{
    product(i128::from(den), i128::from(shift))
}

fn apart(later: i64, earlier: i64) -> i128
    ensures value { result ≡ later -ℤ earlier }
    ensures size { unsigned_abs result < 2 ^ 65 }
{
    difference(i128::from(later), i128::from(earlier))
}

// The same for any numbers.
pub(crate) fn wide_step(later: i64, earlier: i64, den: i64, shift: i64) -> i128
    requires den { unsigned_abs den < 2 ^ 62 }
    requires shift { unsigned_abs shift < 2 ^ 22 }
    ensures value { result ≡ (later -ℤ earlier) +ℤ den *ℤ shift }
    ensures size { unsigned_abs result < 2 ^ 91 }
{
    sum(apart(later, earlier), wide_moved(shift, den))
}
