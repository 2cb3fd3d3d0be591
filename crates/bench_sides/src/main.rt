//! Times `is_inner` on 30 corners; `strictly_in` on two outlines of 32 corners and a part of 16, at a point east of the box,
//! one south of it and one inside; and `sides_of` on these, and on outlines of 400 corners each. It prints what came of it,
//! and on the error stream the least time of a call over 40 rounds; `bench/run sides` runs it. Nothing is promised here but
//! that the calls may be made.
#![tactic(auto)]

ghost use Rattle.std.specs.Prelude.{◌<◌, ◌^◌, unsigned_abs, IfOk, All};
ghost use Rattle.outline_laws.specs.Beyond.{FitsProducts};
ghost use Rattle.outline_laws.specs.Corners.{AreCorners, IsNarrow};
ghost use Rattle.outline_laws.specs.Outlines.{AreOutlines};

use convex_outline::{hull, is_inner};
use difference_polygon::{sides_of, strictly_in};
use seq_model::{RatPoint, Spot};
use seq_num::NoMemory;
use std::alloc::{AllocError, Global};
use std::io;
use std::process::ExitCode;
use std::time::{Duration, Instant};

const ROUNDS: u32 = 40;

// Half the number of its corners, the way from one to the next along x, and how steep the outline is.
type Lens = (u32, i32, i32);

const EARLIER: Lens = (16, 50_021, 12_001);

const LATER: Lens = (16, 49_999, 11_003);

const PART: Lens = (8, 5_003, 3_001);

fn narrow(n: i64) -> i64
    ensures { unsigned_abs result < 2 ^ 21 }
{
    n.max(-2_000_000).min(2_000_000)
}

// Of the numbers below the number of its corners the even ones lie on a parabola, and the odd ones on one turned over.
fn spot(lens: &Lens, n: u32) -> Spot
    ensures { IsNarrow result }
{
    let (half, wide, steep) = *lens;
    let k = i64::from(n / 2);
    let low = k
        .wrapping_mul(k.wrapping_sub(i64::from(half)))
        .wrapping_mul(i64::from(steep));
    let y = if n % 2 == 0 {
        low
    } else {
        7_i64.wrapping_sub(low)
    };
    Spot {
        x: narrow(k.wrapping_mul(i64::from(wide))),
        y: narrow(y),
    }
}

fn spots(alloc: Global, lens: &Lens) -> Result<Vec<Spot>, AllocError>
    ensures { IfOk result (λ spots. All IsNarrow spots.items) }
{
    let mut spots = Vec::new(alloc);
    for n in 0..lens.0.wrapping_mul(2) {
        spots.push(spot(lens, n))?;
    }
    Ok(spots)
}

// All the points are corners.
fn outline(alloc: Global, lens: Lens) -> Result<Vec<Spot>, NoMemory>
    ensures corners { IfOk result (λ corners. AreCorners corners.items) }
    ensures near { IfOk result (λ corners. All IsNarrow corners.items) }
{
    let given = spots(alloc, &lens)?;
    hull(alloc, given.as_slice())
}

fn point(x: i64, y: i64, d: u32) -> RatPoint
    ensures { FitsProducts result }
{
    RatPoint {
        x: i128::from(x),
        y: i128::from(y),
        d: i128::from(d.max(1)),
    }
}

fn inner_often(corners: &[Spot]) -> u64
    requires near { All IsNarrow corners.now }
    requires corners { AreCorners corners.now }
{
    let mut inner = 0_u64;
    for k in 0..100_u32 {
        if is_inner(corners, &point(371_000_000 + i64::from(k), 3_000, 1_000)) {
            inner = inner.wrapping_add(1);
        }
    }
    inner
}

fn inside_often(a: &[Spot], b: &[Spot], f: &[Spot], x: i32, y: i32) -> u64
    requires { AreOutlines a.now b.now f.now }
{
    let mut inside = 0_u64;
    for k in 0..100_u32 {
        if strictly_in(
            a,
            b,
            f,
            &point(i64::from(x) + i64::from(k), i64::from(y), 1_000),
        ) {
            inside = inside.wrapping_add(1);
        }
    }
    inside
}

fn sides_often(alloc: Global, a: &[Spot], b: &[Spot], f: &[Spot]) -> u64
    requires { AreOutlines a.now b.now f.now }
{
    let mut sides = 0_u64;
    for _ in 0..10_u32 {
        if let Ok(dirs) = sides_of(alloc, a, b, f) {
            sides = sides.wrapping_add(dirs.len() as u64);
        }
    }
    sides
}

fn report(rt: &HostRuntime, what: &str, count: u64, calls: u128, least: Duration) -> io::Result<()>
    requires { 0 < calls }
{
    println!(rt; "{what}: {count}")?;
    eprintln!(rt; "{what}: {} ns a call", least.as_nanos() / calls)
}

fn time_inner(rt: &HostRuntime, corners: &[Spot]) -> io::Result<()>
    requires near { All IsNarrow corners.now }
    requires corners { AreCorners corners.now }
{
    let mut least = Duration::MAX;
    let mut inner = 0_u64;
    for _ in 0..ROUNDS {
        let start = Instant::now(rt)?;
        inner = inner.wrapping_add(inner_often(corners));
        least = least.min(start.elapsed(rt)?);
    }
    report(rt, "inner to 30 corners", inner, 100, least)
}

fn time_inside(
    rt: &HostRuntime,
    what: &str,
    a: &[Spot],
    b: &[Spot],
    f: &[Spot],
    x: i32,
    y: i32,
) -> io::Result<()>
    requires { AreOutlines a.now b.now f.now }
{
    let mut least = Duration::MAX;
    let mut inside = 0_u64;
    for _ in 0..ROUNDS {
        let start = Instant::now(rt)?;
        inside = inside.wrapping_add(inside_often(a, b, f, x, y));
        least = least.min(start.elapsed(rt)?);
    }
    report(rt, what, inside, 100, least)
}

fn time_sides(rt: &HostRuntime, what: &str, a: &[Spot], b: &[Spot], f: &[Spot]) -> io::Result<()>
    requires { AreOutlines a.now b.now f.now }
{
    let alloc = rt.alloc();
    let mut least = Duration::MAX;
    let mut sides = 0_u64;
    for _ in 0..ROUNDS {
        let start = Instant::now(rt)?;
        sides = sides.wrapping_add(sides_often(alloc, a, b, f));
        least = least.min(start.elapsed(rt)?);
    }
    report(rt, what, sides, 10, least)
}

// Whether the outlines could be made.
fn small(rt: &HostRuntime) -> io::Result<bool> {
    let alloc = rt.alloc();
    let (Ok(a), Ok(b), Ok(f)) = (
        outline(alloc, EARLIER),
        outline(alloc, LATER),
        outline(alloc, PART),
    ) else {
        return Ok(false);
    };
    if a.len() < 3 || b.len() < 3 || f.len() < 1 {
        return Ok(false);
    }
    time_inside(rt, "east of the box", &a, &b, &f, 800_000_000, 0)?;
    time_inside(rt, "south of the box", &a, &b, &f, 0, -1_600_000_000)?;
    time_inside(rt, "inside", &a, &b, &f, 0, 0)?;
    time_sides(rt, "sides of 32, 32 and 16 corners", &a, &b, &f)?;
    Ok(true)
}

// Whether the outlines could be made.
fn large(rt: &HostRuntime) -> io::Result<bool> {
    let alloc = rt.alloc();
    let (Ok(a), Ok(b), Ok(f)) = (
        outline(alloc, (200, 4_099, 101)),
        outline(alloc, (200, 4_001, 97)),
        outline(alloc, (200, 3_989, 89)),
    ) else {
        return Ok(false);
    };
    if a.len() < 3 || b.len() < 3 || f.len() < 1 {
        return Ok(false);
    }
    time_sides(rt, "sides of three times 400 corners", &a, &b, &f)?;
    Ok(true)
}

fn timed(rt: &HostRuntime) -> io::Result<bool> {
    let Ok(corners) = outline(rt.alloc(), (15, 53_003, 12_007)) else {
        return Ok(false);
    };
    time_inner(rt, &corners)?;
    Ok(small(rt)? && large(rt)?)
}

fn main(rt: HostRuntime) -> ExitCode {
    match timed(&rt) {
        Ok(true) => ExitCode::from(0),
        Ok(false) => ExitCode::from(9),
        Err(_) => ExitCode::from(8),
    }
}
