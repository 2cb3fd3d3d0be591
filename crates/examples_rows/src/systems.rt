use crate::rows::rows_over;
use feasible_point::{Solved, solve};
use row_dictionary::{are_rows_of, are_small_rows};
use std::alloc::Global;

const BIG: i64 = 1 << 61;

/// What a system of two variables has: a point over the denominator; how many rows contradict, the first and the last of
/// them and how often each is taken; or a basis of two and its row.
#[derive(Clone, Copy, Debug, PartialEq, Eq)]
enum Found {
    Point {
        den: i64,
        x: i64,
        y: i64,
    },
    Taken {
        many: usize,
        first: (u32, i64),
        last: (u32, i64),
    },
    Wide {
        basis: (u32, u32),
        row: u32,
    },
    Other,
}

// The last contradiction has 3 and 6 before they are divided by 3: there 1/3 <= y and 3/2 <= x <= 1.
static SOLVED: [(&[(i64, [i64; 2])], Found); 13] = [
    (&[(-1, [2, 0])], Found::Point { den: 2, x: 1, y: 0 }),
    (
        &[(-5, [1, 0]), (3, [-1, 0])],
        Found::Taken {
            many: 2,
            first: (0, 1),
            last: (1, 1),
        },
    ),
    (&[], Found::Point { den: 1, x: 0, y: 0 }),
    (
        &[(-1, [BIG, 0]), (-2, [1, 3])],
        Found::Wide {
            basis: (0, 3),
            row: 3,
        },
    ),
    (
        &[(4, [-1, -1]), (0, [1, 1])],
        Found::Point { den: 1, x: 0, y: 0 },
    ),
    (
        &[(-3, [2, 1]), (8, [-1, -1])],
        Found::Point { den: 2, x: 3, y: 0 },
    ),
    (
        &[(-1, [0, 0])],
        Found::Taken {
            many: 1,
            first: (0, 1),
            last: (0, 1),
        },
    ),
    (
        &[(-2, [-1, -3])],
        Found::Taken {
            many: 1,
            first: (0, 1),
            last: (0, 1),
        },
    ),
    (
        &[(-4, [1, -1]), (-1, [-1, 1])],
        Found::Taken {
            many: 2,
            first: (0, 1),
            last: (1, 1),
        },
    ),
    (
        &[(-2, [1, -1]), (-1, [0, 1])],
        Found::Point { den: 1, x: 3, y: 1 },
    ),
    (
        &[(1, [-1, -1]), (-1, [1, 0]), (-1, [0, 1])],
        Found::Taken {
            many: 3,
            first: (0, 1),
            last: (2, 1),
        },
    ),
    (
        &[(3, [-2, 0]), (5, [0, -1]), (-2, [1, 1])],
        Found::Point { den: 2, x: 3, y: 1 },
    ),
    (
        &[(-1, [0, 3]), (-3, [2, 0]), (1, [-1, 0])],
        Found::Taken {
            many: 2,
            first: (1, 1),
            last: (2, 2),
        },
    ),
];

fn found_in(solved: &Solved) -> Found {
    match solved {
        Solved::Point { den, nums } => {
            if nums.len() == 1 {
                return Found::Point {
                    den: *den,
                    x: nums[0],
                    y: 0,
                };
            }
            if nums.len() == 2 {
                return Found::Point {
                    den: *den,
                    x: nums[0],
                    y: nums[1],
                };
            }
            Found::Other
        }
        Solved::Contradiction(mults) => {
            if mults.len() > 0 {
                let last = mults.len() - 1;
                return Found::Taken {
                    many: mults.len(),
                    first: (mults[0].row, mults[0].times),
                    last: (mults[last].row, mults[last].times),
                };
            }
            Found::Other
        }
        Solved::Wide { basis, row } => {
            if basis.len() == 2 {
                return Found::Wide {
                    basis: (basis[0], basis[1]),
                    row: *row,
                };
            }
            Found::Other
        }
    }
}

fn solved_of(alloc: Global, vars: u32, rows: &[(i64, [i64; 2])]) -> Option<Solved> {
    let Ok(rows) = rows_over(alloc, vars, rows) else {
        return None;
    };
    if vars > 2 || rows.len() > 100 || !are_rows_of(vars, &rows) || !are_small_rows(&rows) {
        return None;
    }
    match solve(alloc, vars, &rows) {
        Ok(solved) => Some(solved),
        Err(_) => None,
    }
}

fn answer(alloc: Global, vars: u32, rows: &[(i64, [i64; 2])]) -> Option<Found> {
    let solved = solved_of(alloc, vars, rows)?;
    Some(found_in(&solved))
}

#[test]
fn systems_of_two_variables(rt: HostRuntime) {
    for (rows, wanted) in &SOLVED {
        assert_eq!(rt; answer(rt.alloc(), 2, rows), Some(*wanted));
    }
}

// The first two systems have one variable.
#[test]
fn systems_of_one_variable(rt: HostRuntime) {
    for (rows, wanted) in &SOLVED[..2] {
        assert_eq!(rt; answer(rt.alloc(), 1, rows), Some(*wanted));
    }
}
