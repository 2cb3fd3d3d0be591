//! Takes the hull of 1,000,000 spots that are scattered over a square, and prints how many corners it has.
//! `bench/run hull` times it. Nothing is promised here but that `hull` may be called.
#![tactic(auto)]

ghost use Rattle.std.specs.Prelude.{◌<◌, ◌^◌, unsigned_abs, IfOk, All};
ghost use Rattle.outline_laws.specs.Corners.{IsNarrow};

use convex_outline::hull;
use seq_model::Spot;
use std::alloc::{AllocError, Global};
use std::process::ExitCode;

fn next(state: u32) -> u32 {
    state.wrapping_mul(1_664_525).wrapping_add(1_013_904_223)
}

fn near(state: u32) -> i64
    ensures { unsigned_abs result < 2 ^ 21 }
{
    i64::from(state >> 12) - 524_288
}

fn scattered(alloc: Global, count: u32) -> Result<Vec<Spot>, AllocError>
    ensures { IfOk result (λ spots. All IsNarrow spots.items) }
{
    let mut spots = Vec::new(alloc);
    let mut state = 12_345;
    for _ in 0..count {
        let x = next(state);
        state = next(x);
        spots.push(Spot {
            x: near(x),
            y: near(state),
        })?;
    }
    Ok(spots)
}

fn main(rt: HostRuntime) -> ExitCode {
    let alloc = rt.alloc();
    let Ok(spots) = scattered(alloc, 1_000_000) else {
        return ExitCode::from(9);
    };
    let Ok(corners) = hull(alloc, spots.as_slice()) else {
        return ExitCode::from(9);
    };
    match println!(rt; "{} corners", corners.len()) {
        Ok(()) => ExitCode::from(0),
        Err(_) => ExitCode::from(8),
    }
}
