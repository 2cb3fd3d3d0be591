//! Integer arithmetic that all geometry and linear systems stand on: laws, and exact steps for code.
//!
//! std has the laws of sums of integers. The modules of `specs/` add those of products, order, quotients and common divisors, and of
//! lists of integers: vectors, weighted sums, greatest values. Other crates cite them in their proofs, as
//! `use Rattle.integer_laws.specs.Laws.Ring.{expand}`. Each module opens with a table of what it has; docs/PROVING.md tells how to use them.
//!
//! The calls below are one operation each. A clause tells the value, as a number without bounds, and others its size, so that a larger
//! expression is proved from its parts. The module `examples` shows three laws of the kind that later proofs need. Nothing here reads
//! a file or makes a plan: it is the lowest crate.
#![tactic(auto)]

ghost use Rattle.std.specs.Prelude.{◌≡◌, ◌↔◌, ◌+◌, ◌*◌, ◌^◌, ◌<◌, ◌≤◌, ℤ, ◌+ℤ◌, ◌-ℤ◌, ◌*ℤ◌, ◌<ℤ◌, unsigned_abs};

use std::cmp::Ordering;

pub mod examples;

/// The sum a + b.
pub fn sum(a: i128, b: i128) -> i128
    requires a { unsigned_abs a < 2 ^ 126 }
    requires b { unsigned_abs b < 2 ^ 126 }
    ensures value { result ≡ a +ℤ b }
    ensures size { unsigned_abs result ≤ unsigned_abs a + unsigned_abs b }
{
    a + b
}

/// The difference a - b.
pub fn difference(a: i128, b: i128) -> i128
    requires a { unsigned_abs a < 2 ^ 126 }
    requires b { unsigned_abs b < 2 ^ 126 }
    ensures value { result ≡ a -ℤ b }
    ensures size { unsigned_abs result ≤ unsigned_abs a + unsigned_abs b }
{
    a - b
}

/// The product a * b, with room left for the sum or the difference of two.
pub fn product(a: i128, b: i128) -> i128
    requires { unsigned_abs a * unsigned_abs b < 2 ^ 126 }
    ensures value { result ≡ a *ℤ b }
    ensures size { unsigned_abs result ≡ unsigned_abs a * unsigned_abs b }
    ensures room { unsigned_abs result < 2 ^ 126 }
{
    a * b
}

/// The product a * b, in the type that always holds it, with room left for the sum or the difference of two.
pub fn wide_product(a: i64, b: i64) -> i128
    requires a { unsigned_abs a < 2 ^ 63 }
    requires b { unsigned_abs b < 2 ^ 63 }
    ensures value { result ≡ a *ℤ b }
    ensures size { unsigned_abs result ≡ unsigned_abs a * unsigned_abs b }
    ensures room { unsigned_abs result < 2 ^ 126 }
{
    product(i128::from(a), i128::from(b))
}

/// Which of the two is the greater: the sign of a - b, which needs no room for the difference.
pub fn compare(a: i128, b: i128) -> Ordering
    ensures less { (result ≡ Ordering.Less) ↔ (a <ℤ b) }
    ensures equal { (result ≡ Ordering.Equal) ↔ (a ≡ b) }
    ensures greater { (result ≡ Ordering.Greater) ↔ (b <ℤ a) }
{
    a.cmp(&b)
}

#[cfg(test)]
mod tests;
