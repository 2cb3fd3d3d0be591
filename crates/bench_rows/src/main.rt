//! Pivots dictionaries of 32 variables and 64 rows, makes dictionaries of 32 bounds, and solves a system of 32 bounds and
//! 98 rows of four entries each. It prints what came of it, and on the error stream the time of a
//! call in the best of many rounds;
//! `bench/run rows` runs it. Nothing is promised here but that the calls may be made.
#![tactic(auto)]

ghost use Rattle.std.specs.Prelude.{◌<◌, ◌^◌, unsigned_abs, IfOk, length, ◌≡◌};
ghost use Rattle.row_pivots.specs.Ends.{Small};

use feasible_point::{Solved, solve};
use owned_lists::Items;
use row_dictionary::{Dictionary, are_rows_of, are_small_rows};
use seq_model::Row;
use std::alloc::{AllocError, Global};
use std::io;
use std::process::ExitCode;
use std::time::Instant;

const VARS: u32 = 32;

fn next(state: u32) -> u32 {
    state.wrapping_mul(1_664_525).wrapping_add(1_013_904_223)
}

/// A number of the kind, less than 16 and odd or even by chance.
fn drawn(state: u32) -> i64 {
    i64::from(state >> 28) - 8
}

/// A number of 1 up to 9, or 0 where nothing stands there.
fn some_or_none(state: u32, stands: bool) -> i64 {
    if stands {
        i64::from(state >> 28) % 9 + 1
    } else {
        0
    }
}

/// A row that meets the variable 0 by this coefficient, and each other variable by chance.
fn dense_row(alloc: Global, seed: u32, first: i64) -> Result<Row, AllocError> {
    let mut a = Items::new(alloc);
    let mut state = seed;
    a.push(first)?;
    for _ in 1..VARS {
        state = next(state);
        a.push(drawn(state))?;
    }
    Ok(Row { c: 5, a })
}

/// 64 rows, of which the first and each fourth meet the variable 0.
fn unit_rows(alloc: Global) -> Result<Vec<Row>, AllocError> {
    let mut rows = Vec::new(alloc);
    for r in 0..64_u32 {
        rows.push(dense_row(alloc, r * 77, if r % 4 == 0 { 1 } else { 0 })?)?;
    }
    Ok(rows)
}

/// 64 rows that mostly meet all variables, and all the first one.
fn general_rows(alloc: Global) -> Result<Vec<Row>, AllocError> {
    let mut rows = Vec::new(alloc);
    for r in 0..64_u32 {
        rows.push(dense_row(alloc, r * 77 + 5, some_or_none(next(r), true))?)?;
    }
    Ok(rows)
}

/// A variable is at most its bound.
fn bound_row(alloc: Global, z: u32) -> Result<Row, AllocError> {
    let mut a = Items::new(alloc);
    for k in 0..VARS {
        a.push(if k == z { -1 } else { 0 })?;
    }
    Ok(Row { c: 2_000, a })
}

fn bounds(alloc: Global) -> Result<Vec<Row>, AllocError> {
    let mut rows = Vec::new(alloc);
    for z in 0..VARS {
        rows.push(bound_row(alloc, z)?)?;
    }
    Ok(rows)
}

/// Object j stands at least this far beyond object i, in a direction of two numbers.
fn side_row(alloc: Global, i: u32, j: u32, x: i64, y: i64, far: i64) -> Result<Row, AllocError> {
    let mut a = Items::new(alloc);
    for k in 0..VARS {
        let number = if k % 2 == 0 && k / 2 == i {
            x.wrapping_neg()
        } else if k / 2 == i {
            y.wrapping_neg()
        } else if k % 2 == 0 && k / 2 == j {
            x
        } else if k / 2 == j {
            y
        } else {
            0
        };
        a.push(number)?;
    }
    Ok(Row {
        c: far.wrapping_neg(),
        a,
    })
}

/// 32 bounds and 98 sides of 16 objects, each later object beyond some earlier ones.
fn sides(alloc: Global) -> Result<Vec<Row>, AllocError> {
    let mut rows = bounds(alloc)?;
    let mut made = 0;
    for i in 0..16_u32 {
        for j in i + 1..16_u32 {
            if made < 98 {
                made += 1;
                let x = i64::from((i + j) % 3) + 1;
                let y = i64::from((i * j) % 3) + 1;
                rows.push(side_row(alloc, i, j, x, y, 60)?)?;
            }
        }
    }
    Ok(rows)
}

fn dictionary_of(alloc: Global, rows: &[Row]) -> Option<Dictionary> {
    if rows.len() > 1_000 || !are_rows_of(VARS, rows) || !are_small_rows(rows) {
        return None;
    }
    match Dictionary::of(alloc, VARS, rows) {
        Ok(dictionary) => Some(dictionary),
        Err(_) => None,
    }
}

/// Whether one variable could take the place of another.
fn swapped(dictionary: &mut Dictionary, leaving: u32, entering: u32) -> bool {
    if !dictionary.is_basic(leaving)
        || !dictionary.is_free(entering)
        || dictionary.entry(leaving, entering) == 0
    {
        return false;
    }
    dictionary.pivot(leaving, entering).is_ok()
}

/// So many times there and back again, and how many of these pivots were made.
fn there_and_back(dictionary: &mut Dictionary, times: u32, leaving: u32, entering: u32) -> u64 {
    let mut made = 0_u64;
    for _ in 0..times {
        if swapped(dictionary, leaving, entering) {
            made = made.wrapping_add(1);
        }
        if swapped(dictionary, entering, leaving) {
            made = made.wrapping_add(1);
        }
    }
    made
}

fn report(rt: &HostRuntime, what: &str, count: u64, spent: u128, calls: u128) -> io::Result<()>
    requires { 0 < calls }
{
    println!(rt; "{what}: {count}")?;
    eprintln!(rt; "{what}: {} ns a call", spent / calls)
}

fn time_pivots(
    rt: &HostRuntime,
    what: &str,
    dictionary: &mut Dictionary,
    leaving: u32,
    entering: u32,
) -> io::Result<()> {
    let mut least = u128::MAX;
    let mut made = 0_u64;
    for _ in 0..50 {
        let start = Instant::now(rt)?;
        made = made.wrapping_add(there_and_back(dictionary, 100, leaving, entering));
        least = least.min(start.elapsed(rt)?.as_nanos());
    }
    report(rt, what, made, least, 200)
}

fn time_unit(rt: &HostRuntime, alloc: Global) -> io::Result<()> {
    if let Ok(rows) = unit_rows(alloc) {
        if let Some(mut dictionary) = dictionary_of(alloc, &rows) {
            time_pivots(rt, "unit pivots", &mut dictionary, 32, 0)?;
        }
    }
    Ok(())
}

fn time_general(rt: &HostRuntime, alloc: Global) -> io::Result<()> {
    if let Ok(rows) = general_rows(alloc) {
        if let Some(mut dictionary) = dictionary_of(alloc, &rows) {
            let first = swapped(&mut dictionary, 32, 0);
            let second = swapped(&mut dictionary, 34, 2);
            println!(rt; "made ready: {first} {second}")?;
            time_pivots(rt, "general pivots", &mut dictionary, 33, 1)?;
        }
    }
    Ok(())
}

fn made_often(alloc: Global, rows: &[Row]) -> u64 {
    let mut made = 0_u64;
    for _ in 0..200_u32 {
        if dictionary_of(alloc, rows).is_some() {
            made = made.wrapping_add(1);
        }
    }
    made
}

fn time_making(rt: &HostRuntime, alloc: Global) -> io::Result<()> {
    if let Ok(rows) = bounds(alloc) {
        let mut least = u128::MAX;
        let mut made = 0_u64;
        for _ in 0..50 {
            let start = Instant::now(rt)?;
            made = made.wrapping_add(made_often(alloc, &rows));
            least = least.min(start.elapsed(rt)?.as_nanos());
        }
        report(rt, "dictionaries of 32 bounds", made, least, 200)?;
    }
    Ok(())
}

fn solved(alloc: Global, rows: &[Row]) -> u64 {
    if rows.len() > 1_000 || !are_rows_of(VARS, rows) || !are_small_rows(rows) {
        return 0;
    }
    match solve(alloc, VARS, rows) {
        Ok(Solved::Point { den: _, nums: _ }) => 1,
        Ok(Solved::Contradiction(_)) => 2,
        Ok(Solved::Wide { basis: _, row: _ }) => 3,
        Err(_) => 4,
    }
}

fn time_solving(rt: &HostRuntime, alloc: Global) -> io::Result<()> {
    if let Ok(rows) = sides(alloc) {
        let mut least = u128::MAX;
        let mut sum = 0_u64;
        for _ in 0..100 {
            let start = Instant::now(rt)?;
            sum = sum.wrapping_add(solved(alloc, &rows));
            least = least.min(start.elapsed(rt)?.as_nanos());
        }
        report(rt, "systems of 130 rows", sum, least, 1)?;
    }
    Ok(())
}

fn timed(rt: &HostRuntime) -> io::Result<()> {
    let alloc = rt.alloc();
    time_unit(rt, alloc)?;
    time_general(rt, alloc)?;
    time_making(rt, alloc)?;
    time_solving(rt, alloc)
}

fn main(rt: HostRuntime) -> ExitCode {
    match timed(&rt) {
        Ok(()) => ExitCode::from(0),
        Err(_) => ExitCode::from(8),
    }
}
