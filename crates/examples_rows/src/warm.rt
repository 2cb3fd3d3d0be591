use crate::rows::rows_over;
use row_dictionary::{are_rows_of, are_small_rows};
use seq_model::Row;
use std::alloc::Global;
use std::test::Fail;
use warm_rows::{Added, Mark, Warm, Warmed};

const BIG: i64 = 1 << 61;

/// What the rows of two variables have: a point over the denominator; how many rows contradict, the first and the last of
/// them and how often each is taken; or that the walk ends before a wide basis.
#[derive(Clone, Copy, Debug, PartialEq, Eq)]
enum Found {
    Point {
        den: i64,
        x: i64,
        y: i64,
    },
    Taken {
        many: usize,
        first: (u32, i64),
        last: (u32, i64),
    },
    Cold,
    Other,
}

// How many steps are left first, rows that are added then and how many of them are held; what the rows have, and how many
// steps there are afterwards. At a denominator of 2 the limit is met exactly: 2 * 2^61, and 2 * (2^61 - 1) + 1.
static WARMED: [(usize, &[(i64, [i64; 2])], usize, Found, usize); 12] = [
    (
        0,
        &[(3, [-1, 0])],
        1,
        Found::Point { den: 1, x: 0, y: 0 },
        1,
    ),
    (
        1,
        &[(-5, [1, 0])],
        1,
        Found::Taken {
            many: 2,
            first: (0, 1),
            last: (1, 1),
        },
        3,
    ),
    (1, &[], 0, Found::Point { den: 1, x: 0, y: 0 }, 1),
    (
        0,
        &[(-1, [3, 0])],
        1,
        Found::Point { den: 3, x: 1, y: 0 },
        2,
    ),
    (
        2,
        &[(BIG, [0, 0])],
        0,
        Found::Point { den: 3, x: 1, y: 0 },
        2,
    ),
    (
        0,
        &[(-1, [2, 0])],
        1,
        Found::Point { den: 2, x: 1, y: 0 },
        2,
    ),
    (
        2,
        &[(BIG, [0, 0])],
        0,
        Found::Point { den: 2, x: 1, y: 0 },
        2,
    ),
    (
        2,
        &[(BIG - 1, [1, 0])],
        1,
        Found::Point { den: 2, x: 1, y: 0 },
        3,
    ),
    (
        0,
        &[(3, [-2, 0]), (5, [0, -1]), (-2, [1, 1])],
        3,
        Found::Point { den: 2, x: 3, y: 1 },
        5,
    ),
    (
        5,
        &[(-9, [-1, 3])],
        1,
        Found::Point { den: 3, x: 0, y: 9 },
        8,
    ),
    (0, &[(-1, [BIG, 0]), (-2, [1, 3])], 2, Found::Cold, 2),
    (
        1,
        &[],
        0,
        Found::Point {
            den: BIG,
            x: 1,
            y: 0,
        },
        2,
    ),
];

fn found_in(warmed: &Warmed) -> Found {
    match warmed {
        Warmed::Point { den, nums } => {
            if nums.len() == 1 {
                return Found::Point {
                    den: *den,
                    x: nums[0],
                    y: 0,
                };
            }
            if nums.len() == 2 {
                return Found::Point {
                    den: *den,
                    x: nums[0],
                    y: nums[1],
                };
            }
            Found::Other
        }
        Warmed::Contradiction(mults) => {
            if mults.len() > 0 {
                let last = mults.len() - 1;
                return Found::Taken {
                    many: mults.len(),
                    first: (mults[0].row, mults[0].times),
                    last: (mults[last].row, mults[last].times),
                };
            }
            Found::Other
        }
        Warmed::Cold => Found::Cold,
    }
}

pub fn undo(warm: &mut Warm, steps: usize) -> Option<()> {
    if steps > warm.mark().steps {
        return None;
    }
    warm.undo_to(Mark { steps });
    Some(())
}

// Whether the row is held.
fn add(alloc: Global, warm: &mut Warm, row: (i64, [i64; 2])) -> Option<bool> {
    let vars = warm.vars();
    let Ok(rows) = rows_over(alloc, vars, &[row]) else {
        return None;
    };
    if rows.len() != 1 || !are_rows_of(vars, &rows) || !are_small_rows(&rows) {
        return None;
    }
    if vars > 2 || warm.count() > 100 {
        return None;
    }
    match warm.add(alloc, &rows[0]) {
        Ok(added) => Some(added == Added::Held),
        Err(_) => None,
    }
}

// How many of the rows are held.
pub fn add_all(alloc: Global, warm: &mut Warm, rows: &[(i64, [i64; 2])]) -> Option<usize> {
    let mut held = 0;
    for row in rows {
        if add(alloc, warm, *row)? && held < 100 {
            held += 1;
        }
    }
    Some(held)
}

fn repair(alloc: Global, warm: &mut Warm) -> Option<Found> {
    match warm.repair(alloc) {
        Ok(warmed) => Some(found_in(&warmed)),
        Err(_) => None,
    }
}

// How many rows are held, and what the rows have then.
fn go_on(
    alloc: Global,
    warm: &mut Warm,
    steps: usize,
    rows: &[(i64, [i64; 2])],
) -> Option<(usize, Found)> {
    undo(warm, steps)?;
    let held = add_all(alloc, warm, rows)?;
    let found = repair(alloc, warm)?;
    Some((held, found))
}

#[test]
fn one_value_for_many_systems(rt: HostRuntime) -> Result<(), Fail> {
    let mut warm = Warm::new(rt.alloc(), 2)?;
    for (steps, rows, held, found, after) in &WARMED {
        assert!(rt; go_on(rt.alloc(), &mut warm, *steps, rows) == Some((*held, *found)));
        assert!(rt; warm.mark().steps == *after);
    }
    Ok(())
}

// The first rows have no second variable.
#[test]
fn one_value_for_systems_of_one_variable(rt: HostRuntime) -> Result<(), Fail> {
    let mut warm = Warm::new(rt.alloc(), 1)?;
    for (steps, rows, held, found, after) in &WARMED[..5] {
        assert!(rt; go_on(rt.alloc(), &mut warm, *steps, rows) == Some((*held, *found)));
        assert!(rt; warm.mark().steps == *after);
    }
    Ok(())
}
