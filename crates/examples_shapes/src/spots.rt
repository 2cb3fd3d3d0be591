ghost use Rattle.std.specs.Prelude.{IfOk, All};
ghost use Rattle.outline_laws.specs.Beyond.{FitsProducts};
ghost use Rattle.outline_laws.specs.Corners.{IsNarrow};

use seq_model::{RatPoint, Spot};
use std::alloc::{AllocError, Global};

fn spot(pair: &(i8, i8)) -> Spot
    ensures { IsNarrow result }
{
    Spot {
        x: i64::from(pair.0),
        y: i64::from(pair.1),
    }
}

pub fn spots(alloc: Global, pairs: &[(i8, i8)]) -> Result<Vec<Spot>, AllocError>
    ensures { IfOk result (λ spots. All IsNarrow spots.items) }
{
    let mut spots = Vec::new(alloc);
    for pair in pairs {
        spots.push(spot(pair))?;
    }
    Ok(spots)
}

pub fn are_pairs(spots: &[Spot], pairs: &[(i8, i8)]) -> bool {
    if spots.len() != pairs.len() {
        return false;
    }
    for (spot, pair) in spots.iter().zip(pairs) {
        if spot.x != i64::from(pair.0) || spot.y != i64::from(pair.1) {
            return false;
        }
    }
    true
}

/// The point of these numerators over this denominator, or over 1 in place of 0.
pub fn point(numbers: &(i8, i8, u8)) -> RatPoint
    ensures { FitsProducts result }
{
    RatPoint {
        x: i128::from(numbers.0),
        y: i128::from(numbers.1),
        d: i128::from(numbers.2.max(1)),
    }
}
