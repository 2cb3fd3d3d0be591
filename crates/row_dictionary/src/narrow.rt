ghost use Rattle.std.specs.Prelude.{◌≡◌, ◌≢◌, ℕ, ◌<◌, ◌*◌, ◌^◌, List, ℤ, pos, ◌-ℤ◌, ◌*ℤ◌, ◌<ℤ◌, unsigned_abs, All, IsTrue, length, int_div, Option, Some};
ghost use Rattle.std.specs.Int.{◌∣◌};
ghost use Rattle.integer_laws.specs.Divisors.{IsGcdOf};
ghost use Rattle.row_pivots.specs.Ends.{Small};
ghost use Rattle.row_dictionary.specs.Mixing.{mixed, mixed_numbers, crossed_line, mixed_line, IsCommon, Narrow, IsNarrowMix, DividesExactly, IsLowered};

use crate::division::{brief, divided, is_factor, quotient_by_brief, short, short_divides};
use crate::number::Mix;
use seq_num::gcd;

pub fn is_narrow(x: &i64) -> bool
    ensures { IsTrue result → Narrow x.now }
{
    x.unsigned_abs() < 1 << 30
}

/// Whether all numbers are below 2^30 in size.
pub fn are_narrow(numbers: &[i64]) -> bool
    ensures { IsTrue result → All Narrow numbers.now }
{
    numbers.iter().all(|x| is_narrow(x))
}

/// Whether the divisor is below 2^31 in size, so that the quickest division serves.
pub fn has_brief_divisor(mix: &Mix) -> bool
    ensures { IsTrue result → unsigned_abs mix.now.g < 2 ^ 31 }
{
    mix.g.unsigned_abs() < 1 << 31
}

/// Whether what lines are multiplied by is below 2^30 in size.
pub fn is_narrow_mix(mix: &Mix) -> bool
    ensures { IsTrue result → IsNarrowMix mix.now }
{
    is_narrow(&mix.d) && is_narrow(&mix.p) && is_narrow(&mix.q)
}

fn lowered(x: &i64, g: &i128) -> i64
    requires x { Small x.now }
    requires g { 0 < unsigned_abs g.now }
    ensures is { result ≡ int_div x.now g.now }
    ensures size { Small result }
{
    if *x == 0 {
        return 0;
    }
    if i128::from(*x) == *g {
        return 1;
    }
    divided(&i128::from(*x), g) as i64
}

/// How often the divisor goes into the factor, where it divides it.
pub fn whole_factor(p: &i64, g: &i128) -> Option<i64>
    requires p { Small p.now }
    requires g { 0 < unsigned_abs g.now }
    ensures { (x : ℤ) → result ≡ Some x → DividesExactly p.now g.now x }
{
    if !is_factor(g, p) {
        return None;
    }
    Some(lowered(p, g))
}

/// What gives the same line without a division, where the divisor divides the entry too.
fn lowest_by(mix: &Mix, p: &i64) -> Mix
    requires whole { DividesExactly mix.now.p mix.now.g p.now }
    requires p { Small mix.now.p }
    requires q { Small mix.now.q }
    requires g { 0 < unsigned_abs mix.now.g }
    ensures { IsLowered mix.now result }
{
    if !is_factor(&mix.g, &mix.q) {
        return *mix;
    }
    Mix {
        d: mix.d,
        p: *p,
        q: lowered(&mix.q, &mix.g),
        g: 1,
        place: mix.place,
    }
}

/// What gives the same line without a division, where the divisor divides what both lines are multiplied by.
pub fn lowest(mix: &Mix, whole: &Option<i64>) -> Mix
    requires whole { (x : ℤ) → whole.now ≡ Some x → DividesExactly mix.now.p mix.now.g x }
    requires p { Small mix.now.p }
    requires q { Small mix.now.q }
    requires g { 0 < unsigned_abs mix.now.g }
    ensures { IsLowered mix.now result }
{
    match whole {
        None => *mix,
        Some(p) => lowest_by(mix, p),
    }
}

fn product(x: i64, y: i64) -> i64
    requires { unsigned_abs x * unsigned_abs y < 2 ^ 60 }
    ensures value { result ≡ x *ℤ y }
    ensures size { unsigned_abs result ≡ unsigned_abs x * unsigned_abs y }
{
    x * y
}

fn narrow_product(x: &i64, y: &i64) -> i64
    requires x { Narrow x.now }
    requires y { Narrow y.now }
    ensures value { result ≡ x.now *ℤ y.now }
    ensures size { unsigned_abs result < 2 ^ 60 }
{
    product(*x, *y)
}

fn narrow_difference(x: &i64, y: &i64) -> i64
    requires x { unsigned_abs x.now < 2 ^ 60 }
    requires y { unsigned_abs y.now < 2 ^ 60 }
    ensures value { result ≡ x.now -ℤ y.now }
    ensures size { Small result }
{
    *x - *y
}

/// p * z - q * y
fn narrow_crossed(mix: &Mix, z: &i64, y: &i64) -> i64
    requires mix { IsNarrowMix mix.now }
    requires z { Narrow z.now }
    requires y { Narrow y.now }
    ensures value { result ≡ mix.now.p *ℤ z.now -ℤ mix.now.q *ℤ y.now }
    ensures size { Small result }
{
    narrow_difference(&narrow_product(&mix.p, z), &narrow_product(&mix.q, y))
}

/// d * q
fn narrow_turned(mix: &Mix) -> i64
    requires { IsNarrowMix mix.now }
    ensures value { result ≡ mix.now.d *ℤ mix.now.q }
    ensures size { Small result }
{
    narrow_product(&mix.d, &mix.q)
}

/// The number at a place, before it is divided.
fn narrow_number(mix: &Mix, j: usize, z: &i64, y: &i64) -> i64
    requires mix { IsNarrowMix mix.now }
    requires z { Narrow z.now }
    requires y { Narrow y.now }
    ensures value { result ≡ mixed mix.now j z.now y.now }
    ensures size { Small result }
{
    if j == mix.place {
        narrow_turned(mix)
    } else {
        narrow_crossed(mix, z, y)
    }
}

/// The new number at a place other than that of what enters.
fn new_crossed(mix: &Mix, g: &i32, z: &i64, y: &i64) -> i64
    requires mix { IsNarrowMix mix.now }
    requires some { 0 < unsigned_abs mix.now.g }
    requires g { g.now ≡ mix.now.g }
    requires z { Narrow z.now }
    requires y { Narrow y.now }
    ensures { result ≡ int_div (mix.now.p *ℤ z.now -ℤ mix.now.q *ℤ y.now) mix.now.g }
{
    quotient_by_brief(&narrow_crossed(mix, z, y), g)
}

/// The new number at the place of what enters.
fn new_turned(mix: &Mix, g: &i32) -> i64
    requires mix { IsNarrowMix mix.now }
    requires some { 0 < unsigned_abs mix.now.g }
    requires g { g.now ≡ mix.now.g }
    ensures { result ≡ int_div (mix.now.d *ℤ mix.now.q) mix.now.g }
{
    quotient_by_brief(&narrow_turned(mix), g)
}

fn is_zero(y: &i64) -> bool
    ensures { IsTrue result → y.now ≡ pos 0 }
{
    *y == 0
}

fn are_zero(z: &i64, y: &i64) -> bool
    ensures { IsTrue result → (z.now ≡ pos 0) × (y.now ≡ pos 0) }
{
    *z == 0 && *y == 0
}

/// Whether all numbers are narrow, and one more.
fn and_narrow(narrow: bool, x: &i64) -> bool
    ensures all { IsTrue result → IsTrue narrow }
    ensures one { IsTrue result → Narrow x.now }
{
    narrow && is_narrow(x)
}

/// The line, crossed, where p is g: a place at which `by` is 0 keeps its number, and `by` is mostly zeros.
fn cross_kept(line: &mut [i64], by: &[i64], mix: &Mix, g: &i32) -> bool
    requires mix { IsNarrowMix mix.now }
    requires some { 0 < unsigned_abs mix.now.g }
    requires g { g.now ≡ mix.now.g }
    requires kept { mix.now.p ≡ mix.now.g }
    requires line { All Narrow line.old }
    requires by { All Narrow by.now }
    requires len { length line.old ≡ length by.now }
    ensures is { line.new ≡ crossed_line mix.now line.old by.now }
    ensures narrow { IsTrue result → All Narrow line.new }
{
    let mut narrow = true;
    for i in 0..line.len() {
        if !is_zero(&by[i]) {
            let x = new_crossed(mix, g, &line[i], &by[i]);
            line[i] = x;
            narrow = and_narrow(narrow, &x);
        }
    }
    narrow
}

/// The line, crossed.
fn cross_each(line: &mut [i64], by: &[i64], mix: &Mix, g: &i32) -> bool
    requires mix { IsNarrowMix mix.now }
    requires some { 0 < unsigned_abs mix.now.g }
    requires g { g.now ≡ mix.now.g }
    requires line { All Narrow line.old }
    requires by { All Narrow by.now }
    requires len { length line.old ≡ length by.now }
    ensures is { line.new ≡ crossed_line mix.now line.old by.now }
    ensures narrow { IsTrue result → All Narrow line.new }
{
    let mut narrow = true;
    for i in 0..line.len() {
        if !are_zero(&line[i], &by[i]) {
            let x = new_crossed(mix, g, &line[i], &by[i]);
            line[i] = x;
            narrow = and_narrow(narrow, &x);
        }
    }
    narrow
}

/// The line, crossed, where nothing is divided.
fn cross_whole(line: &mut [i64], by: &[i64], mix: &Mix) -> bool
    requires mix { IsNarrowMix mix.now }
    requires g { mix.now.g ≡ pos 1 }
    requires line { All Narrow line.old }
    requires by { All Narrow by.now }
    requires len { length line.old ≡ length by.now }
    ensures is { line.new ≡ crossed_line mix.now line.old by.now }
    ensures narrow { IsTrue result → All Narrow line.new }
{
    let mut narrow = true;
    for i in 0..line.len() {
        let x = narrow_crossed(mix, &line[i], &by[i]);
        line[i] = x;
        narrow = and_narrow(narrow, &x);
    }
    narrow
}

/// The line, crossed with that of what leaves: pivoted at all places but that of what enters.
fn cross(line: &mut [i64], by: &[i64], mix: &Mix, g: &i32) -> bool
    requires mix { IsNarrowMix mix.now }
    requires some { 0 < unsigned_abs mix.now.g }
    requires g { g.now ≡ mix.now.g }
    requires line { All Narrow line.old }
    requires by { All Narrow by.now }
    requires len { length line.old ≡ length by.now }
    ensures is { line.new ≡ crossed_line mix.now line.old by.now }
    ensures narrow { IsTrue result → All Narrow line.new }
{
    if *g == 1 {
        return cross_whole(line, by, mix);
    }
    if mix.p == i64::from(*g) {
        return cross_kept(line, by, mix, g);
    }
    cross_each(line, by, mix, g)
}

/// The line, pivoted, where all its numbers and all that it is multiplied by are below 2^30 in size; and whether its new
/// numbers are so too. Crossing leaves 0 at the place of what enters, so that its number is set last.
pub fn pivot_narrow(line: &mut [i64], by: &[i64], mix: &Mix) -> bool
    requires mix { IsNarrowMix mix.now }
    requires g { 0 < unsigned_abs mix.now.g }
    requires brief { unsigned_abs mix.now.g < 2 ^ 31 }
    requires line { All Narrow line.old }
    requires by { All Narrow by.now }
    requires len { length line.old ≡ length by.now }
    requires place { mix.now.place < length line.old }
    ensures is { line.new ≡ mixed_line mix.now line.old by.now }
    ensures narrow { IsTrue result → All Narrow line.new }
{
    let g = brief(&short(&mix.g));
    let narrow = cross(line, by, mix, &g);
    let x = new_turned(mix, &g);
    line[mix.place] = x;
    and_narrow(narrow, &x)
}

/// Whether the number at a place is a multiple of what was found, since what leaves has none there.
fn is_multiple(found: &i64, mix: &Mix, i: usize, y: &i64) -> bool
    ensures { IsTrue result → (y.now ≡ pos 0) × (mix.now.p ≡ found.now)
        × (i ≢ mix.now.place) × (pos 0 <ℤ found.now) }
{
    *y == 0 && mix.p == *found && i != mix.place && *found > 0
}

/// Whether the number at a place is 0, since neither line has one there.
fn is_nothing(found: &i64, mix: &Mix, i: usize, z: &i64, y: &i64) -> bool
    ensures { IsTrue result → (y.now ≡ pos 0) × (z.now ≡ pos 0) × (i ≢ mix.now.place) × (pos 0 <ℤ found.now) }
{
    *y == 0 && *z == 0 && i != mix.place && *found > 0
}

fn short_gcd(a: &i64, b: &i64) -> i64
    requires a { unsigned_abs a.now < 2 ^ 63 }
    requires b { unsigned_abs b.now < 2 ^ 63 }
    ensures is { IsGcdOf a.now b.now result }
    ensures size { unsigned_abs result < 2 ^ 63 }
{
    gcd(i128::from(*a), i128::from(*b)) as i64
}

/// The greatest common divisor of two numbers, of which the first mostly divides the second.
fn short_common(found: &i64, x: &i64) -> i64
    requires found { unsigned_abs found.now < 2 ^ 63 }
    requires x { unsigned_abs x.now < 2 ^ 63 }
    ensures is { IsGcdOf found.now x.now result }
    ensures size { unsigned_abs result < 2 ^ 63 }
{
    if short_divides(found, x) {
        return *found;
    }
    short_gcd(found, x)
}

/// The common divisor of a number and the one at a place, before it is divided.
fn narrow_divisor_with(found: &i64, mix: &Mix, i: usize, z: &i64, y: &i64) -> i64
    requires mix { IsNarrowMix mix.now }
    requires z { Narrow z.now }
    requires y { Narrow y.now }
    requires found { unsigned_abs found.now < 2 ^ 63 }
    ensures is { IsGcdOf found.now (mixed mix.now i z.now y.now) result }
    ensures size { unsigned_abs result < 2 ^ 63 }
{
    if is_nothing(found, mix, i, z, y) {
        return *found;
    }
    if is_multiple(found, mix, i, y) {
        return *found;
    }
    short_common(found, &narrow_number(mix, i, z, y))
}

/// Whether all numbers of the line are surely multiples of what was found.
fn is_settled(found: &i64, mix: &Mix) -> bool
    ensures q { IsTrue result → unsigned_abs found.now ∣ unsigned_abs mix.now.q }
    ensures p { IsTrue result → unsigned_abs found.now ∣ unsigned_abs mix.now.p }
{
    if *found == 1 {
        return true;
    }
    mix.q == 0 && mix.p == *found
}

/// The common divisor of a number and all numbers of a line, before they are divided, where all are below 2^30 in size.
pub fn narrow_divisor(start: &i64, line: &[i64], by: &[i64], mix: &Mix) -> i64
    requires mix { IsNarrowMix mix.now }
    requires start { unsigned_abs start.now < 2 ^ 63 }
    requires line { All Narrow line.now }
    requires by { All Narrow by.now }
    requires len { length line.now ≡ length by.now }
    requires place { mix.now.place < length line.now }
    ensures divisors { IsCommon start.now (mixed_numbers mix.now line.now by.now) result }
    ensures size { unsigned_abs result < 2 ^ 63 }
{
    let mut found = *start;
    for i in 0..line.len() {
        if is_settled(&found, mix) {
            return found;
        }
        found = narrow_divisor_with(&found, mix, i, &line[i], &by[i]);
    }
    found
}
