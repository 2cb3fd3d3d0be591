ghost use Rattle.std.specs.Prelude.{◌≡◌, ◌<◌, ℤ, pos, ◌≤ℤ◌, int_div, All, length, map, IfOk};
ghost use Rattle.integer_laws.specs.Divisors.{IsGcdOf};
ghost use Rattle.row_pivots.specs.Ends.{Small};
ghost use Rattle.feasible_point.specs.Shortening.{IsFactor, shorter, Shortened, IsTaking};

use seq_model::Mult;
use seq_num::gcd;
use std::alloc::{AllocError, Global};

fn factor_with(found: &i128, mult: &Mult) -> i128
    requires found { Small found.now }
    requires mult { IsTaking mult.now }
    ensures is { IsGcdOf found.now mult.now.times result }
    ensures size { Small result }
{
    gcd(*found, i128::from(mult.times))
}

/// The greatest number that divides all multipliers.
fn factor_of(mults: &[Mult]) -> i128
    requires some { 0 < length mults.now }
    requires taking { All IsTaking mults.now }
    ensures is { IsFactor mults.now result }
    ensures positive { pos 1 ≤ℤ result }
{
    let mut found = 0;
    for mult in mults {
        found = factor_with(&found, mult);
    }
    found
}

fn quotient(times: &i64, factor: &i128) -> i64
    requires times { Small times.now }
    requires factor { pos 1 ≤ℤ factor.now }
    ensures { result ≡ int_div times.now factor.now }
{
    (i128::from(*times) / *factor) as i64
}

fn shorter(mult: &Mult, factor: &i128) -> Mult
    requires mult { IsTaking mult.now }
    requires factor { pos 1 ≤ℤ factor.now }
    ensures { result ≡ shorter factor.now mult.now }
{
    Mult {
        row: mult.row,
        times: quotient(&mult.times, factor),
    }
}

fn all_shorter(alloc: Global, mults: &[Mult], factor: &i128) -> Result<Vec<Mult>, AllocError>
    requires taking { All IsTaking mults.now }
    requires factor { pos 1 ≤ℤ factor.now }
    ensures { IfOk result (λ list. list.items ≡ map (shorter factor.now) mults.now) }
{
    let mut list = Vec::new(alloc);
    for mult in mults {
        list.push(shorter(mult, factor))?;
    }
    Ok(list)
}

/// The multipliers, divided by the greatest number that divides them all.
pub fn shortened(alloc: Global, mults: &[Mult]) -> Result<Vec<Mult>, AllocError>
    requires some { 0 < length mults.now }
    requires taking { All IsTaking mults.now }
    ensures { IfOk result (λ list. Shortened mults.now list.items) }
{
    let factor = factor_of(mults);
    let list = all_shorter(alloc, mults, &factor)?;
    Ok(list)
}
