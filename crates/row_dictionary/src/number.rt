ghost use Rattle.std.specs.Prelude.{◌≡◌, ◌≢◌, ◌↔◌, ℕ, ◌<◌, ◌≤◌, ◌^◌, List, ℤ, pos, ◌+ℤ◌, ◌-ℤ◌, ◌*ℤ◌, ◌≤ℤ◌, ◌<ℤ◌, unsigned_abs, All, IsTrue, length, slice_index_or, int_div, int_rem};
ghost use Rattle.std.specs.Int.{◌∣◌};
ghost use Rattle.integer_laws.specs.Divisors.{IsGcdOf};
ghost use Rattle.row_pivots.specs.Ends.{Small};
ghost use Rattle.row_dictionary.specs.Mixing.{mixed, mixed_numbers, mixed_line, IsCommon};

use crate::division::{divided, divides, is_factor};
use integer_laws::{difference, wide_product};
use seq_num::gcd;

/// What a line is pivoted by: each number z of it becomes (p * z - q * y) / g, where y is that of what leaves, and at the
/// place of what enters d * q / g. d is the old denominator, p and q the entries at that place of what leaves and of this
/// line, and g the divisor, of either sign.
#[derive(Clone, Copy, Debug)]
pub struct Mix {
    pub d: i64,
    pub p: i64,
    pub q: i64,
    pub g: i128,
    pub place: usize,
}

/// p * z - q * y
fn crossed(mix: &Mix, z: &i64, y: &i64) -> i128
    requires p { Small mix.now.p }
    requires q { Small mix.now.q }
    requires z { Small z.now }
    requires y { Small y.now }
    ensures value { result ≡ mix.now.p *ℤ z.now -ℤ mix.now.q *ℤ y.now }
    ensures size { unsigned_abs result < 2 ^ 125 }
{
    difference(wide_product(mix.p, *z), wide_product(mix.q, *y))
}

/// d * q
fn turned(mix: &Mix) -> i128
    requires d { Small mix.now.d }
    requires q { Small mix.now.q }
    ensures value { result ≡ mix.now.d *ℤ mix.now.q }
    ensures size { unsigned_abs result < 2 ^ 125 }
{
    wide_product(mix.d, mix.q)
}

/// The number at a place, before it is divided.
fn number(mix: &Mix, j: usize, z: &i64, y: &i64) -> i128
    requires d { Small mix.now.d }
    requires p { Small mix.now.p }
    requires q { Small mix.now.q }
    requires z { Small z.now }
    requires y { Small y.now }
    ensures value { result ≡ mixed mix.now j z.now y.now }
    ensures size { unsigned_abs result < 2 ^ 125 }
{
    if j == mix.place {
        turned(mix)
    } else {
        crossed(mix, z, y)
    }
}

/// The quotient by the divisor.
fn quotient(x: i128, mix: &Mix) -> i128
    requires x { unsigned_abs x < 2 ^ 125 }
    requires g { 0 < unsigned_abs mix.now.g }
    ensures value { result ≡ int_div x mix.now.g }
    ensures size { unsigned_abs result < 2 ^ 125 }
{
    if mix.g == 1 {
        return x;
    }
    divided(&x, &mix.g)
}

/// Whether a number is 2^62 or more in size.
pub fn is_wide(x: &i128) -> bool
    ensures { IsTrue result ↔ (2 ^ 62 ≤ unsigned_abs x.now) }
{
    x.unsigned_abs() >= 1 << 62
}

/// Whether the quotient by the divisor is wide. It isn't where the number itself isn't, and that needs no division.
fn is_wide_quotient(x: &i128, mix: &Mix) -> bool
    requires x { unsigned_abs x.now < 2 ^ 125 }
    requires g { 0 < unsigned_abs mix.now.g }
    ensures { IsTrue result ↔ (2 ^ 62 ≤ unsigned_abs (int_div x.now mix.now.g)) }
{
    if !is_wide(x) {
        return false;
    }
    is_wide(&quotient(*x, mix))
}

/// Whether the number at a place stays as it is: what leaves has none there, and the divisor is the factor.
fn is_kept(mix: &Mix, i: usize, y: &i64) -> bool
    ensures { IsTrue result → (y.now ≡ pos 0) × (mix.now.p ≡ mix.now.g) × (i ≢ mix.now.place) }
{
    *y == 0 && i128::from(mix.p) == mix.g && i != mix.place
}

/// Whether the new number at a place is wide.
fn is_wide_number(mix: &Mix, i: usize, z: &i64, y: &i64) -> bool
    requires d { Small mix.now.d }
    requires p { Small mix.now.p }
    requires q { Small mix.now.q }
    requires g { 0 < unsigned_abs mix.now.g }
    requires z { Small z.now }
    requires y { Small y.now }
    ensures { IsTrue result ↔ (2 ^ 62 ≤ unsigned_abs (int_div (mixed mix.now i z.now y.now) mix.now.g)) }
{
    if is_kept(mix, i, y) {
        return false;
    }
    is_wide_quotient(&number(mix, i, z, y), mix)
}

/// Whether the number at a place is a multiple of what was found, since what leaves has none there.
fn is_multiple(found: &i128, mix: &Mix, i: usize, y: &i64) -> bool
    ensures { IsTrue result → (y.now ≡ pos 0) × (mix.now.p ≡ found.now)
        × (i ≢ mix.now.place) × (pos 0 <ℤ found.now) }
{
    *y == 0 && i128::from(mix.p) == *found && i != mix.place && *found > 0
}

/// Whether the number at a place is 0, since neither line has one there.
fn is_nothing(found: &i128, mix: &Mix, i: usize, z: &i64, y: &i64) -> bool
    ensures { IsTrue result → (y.now ≡ pos 0) × (z.now ≡ pos 0) × (i ≢ mix.now.place) × (pos 0 <ℤ found.now) }
{
    *y == 0 && *z == 0 && i != mix.place && *found > 0
}

/// Whether all numbers are multiples of what was found, since it divides what both lines are multiplied by.
pub fn are_multiples(found: &i128, mix: &Mix) -> bool
    ensures { IsTrue result → (unsigned_abs found.now ∣ unsigned_abs mix.now.q)
        × (unsigned_abs found.now ∣ unsigned_abs mix.now.p) }
{
    is_factor(found, &mix.q) && is_factor(found, &mix.p)
}

/// The common divisor of a number and the one at a place, before it is divided.
fn divisor_with(found: &i128, mix: &Mix, i: usize, z: &i64, y: &i64) -> i128
    requires d { Small mix.now.d }
    requires p { Small mix.now.p }
    requires q { Small mix.now.q }
    requires z { Small z.now }
    requires y { Small y.now }
    requires found { unsigned_abs found.now < 2 ^ 126 }
    ensures is { IsGcdOf found.now (mixed mix.now i z.now y.now) result }
    ensures size { unsigned_abs result < 2 ^ 126 }
{
    if is_nothing(found, mix, i, z, y) {
        return *found;
    }
    if is_multiple(found, mix, i, y) {
        return *found;
    }
    common_with(found, &number(mix, i, z, y))
}

/// The greatest common divisor of two numbers, of which the first mostly divides the second.
fn common_with(found: &i128, x: &i128) -> i128
    requires found { unsigned_abs found.now < 2 ^ 126 }
    requires x { unsigned_abs x.now < 2 ^ 126 }
    ensures is { IsGcdOf found.now x.now result }
    ensures size { unsigned_abs result < 2 ^ 126 }
{
    if divides(found, x) {
        return *found;
    }
    gcd(*found, *x)
}

/// The common divisor of a number and all numbers of a line, before they are divided.
pub fn common_divisor(start: &i128, line: &[i64], by: &[i64], mix: &Mix) -> i128
    requires d { Small mix.now.d }
    requires p { Small mix.now.p }
    requires q { Small mix.now.q }
    requires start { unsigned_abs start.now < 2 ^ 126 }
    requires line { All Small line.now }
    requires by { All Small by.now }
    requires len { length line.now ≡ length by.now }
    requires place { mix.now.place < length line.now }
    ensures divisors { IsCommon start.now (mixed_numbers mix.now line.now by.now) result }
    ensures size { unsigned_abs result < 2 ^ 126 }
{
    let mut found = *start;
    for i in 0..line.len() {
        if found == 1 {
            return 1;
        }
        found = divisor_with(&found, mix, i, &line[i], &by[i]);
    }
    found
}

/// Whether a number of the new line is wide.
pub fn has_wide(line: &[i64], by: &[i64], mix: &Mix) -> bool
    requires d { Small mix.now.d }
    requires p { Small mix.now.p }
    requires q { Small mix.now.q }
    requires g { 0 < unsigned_abs mix.now.g }
    requires line { All Small line.now }
    requires by { All Small by.now }
    requires len { length line.now ≡ length by.now }
    requires place { mix.now.place < length line.now }
    ensures wide { IsTrue result → All Small (mixed_line mix.now line.now by.now) → ⊥ }
    ensures small { (IsTrue result → ⊥) → All Small (mixed_line mix.now line.now by.now) }
{
    for i in 0..line.len() {
        if is_wide_number(mix, i, &line[i], &by[i]) {
            return true;
        }
    }
    false
}

/// The new number at a place.
fn new_number(mix: &Mix, i: usize, z: &i64, y: &i64) -> i64
    requires d { Small mix.now.d }
    requires p { Small mix.now.p }
    requires q { Small mix.now.q }
    requires g { 0 < unsigned_abs mix.now.g }
    requires z { Small z.now }
    requires y { Small y.now }
    requires fits { Small (int_div (mixed mix.now i z.now y.now) mix.now.g) }
    ensures { result ≡ int_div (mixed mix.now i z.now y.now) mix.now.g }
{
    if is_kept(mix, i, y) {
        return *z;
    }
    quotient(number(mix, i, z, y), mix) as i64
}

/// The line, pivoted.
pub fn pivot_line(line: &mut [i64], by: &[i64], mix: &Mix)
    requires d { Small mix.now.d }
    requires p { Small mix.now.p }
    requires q { Small mix.now.q }
    requires g { 0 < unsigned_abs mix.now.g }
    requires line { All Small line.old }
    requires by { All Small by.now }
    requires len { length line.old ≡ length by.now }
    requires place { mix.now.place < length line.old }
    requires fits { All Small (mixed_line mix.now line.old by.now) }
    ensures { line.new ≡ mixed_line mix.now line.old by.now }
{
    for i in 0..line.len() {
        line[i] = new_number(mix, i, &line[i], &by[i]);
    }
}
