use crate::rows::{lone_rows_of, rows_of};
use row_dictionary::{Dictionary, Pushed, are_rows_of, are_small_rows};
use std::alloc::Global;

const BIG: i64 = 1 << 61;

// The denominator, the constant of a basic variable, and its entries of what left and of the variable 1.
type Line = (i64, i64, i64, i64);

// Rows of two variables, what leaves, what enters and the basic variable that is looked at; and its line, or the first row that would
// be wide with the line of the variable 2, which stays as it was.
static PIVOTED: [(
    &[(i64, [i64; 2])],
    (u32, u32, u32),
    Result<Line, (u32, Line)>,
); 5] = [
    (&[(-1, [2, 0])], (2, 0, 0), Ok((2, 1, 1, 0))),
    (&[(3, [-2, 0])], (2, 0, 0), Ok((2, 3, -1, 0))),
    (&[(4, [2, 6]), (1, [1, 1])], (2, 0, 3), Ok((2, -2, 1, -4))),
    (&[(4, [2, 6]), (1, [1, 1])], (3, 0, 2), Ok((1, 2, 2, 4))),
    (
        &[(-1, [BIG, 0]), (-2, [1, 3])],
        (2, 0, 2),
        Err((3, (1, -1, BIG, 0))),
    ),
];

fn dictionary_of(alloc: Global, rows: &[(i64, [i64; 2])]) -> Option<Dictionary> {
    let Ok(rows) = rows_of(alloc, rows) else {
        return None;
    };
    if rows.len() > 100 || !are_rows_of(2, &rows) || !are_small_rows(&rows) {
        return None;
    }
    match Dictionary::of(alloc, 2, &rows) {
        Ok(dictionary) => Some(dictionary),
        Err(_) => None,
    }
}

// The first row that would be wide; none where the variables can't be exchanged.
fn pivot(dictionary: &mut Dictionary, leaving: u32, entering: u32) -> Option<Result<(), u32>> {
    if !dictionary.is_basic(leaving)
        || !dictionary.is_free(entering)
        || dictionary.entry(leaving, entering) == 0
    {
        return None;
    }
    match dictionary.pivot(leaving, entering) {
        Ok(()) => Some(Ok(())),
        Err(wide) => Some(Err(wide.row)),
    }
}

fn line(dictionary: &Dictionary, basic: u32, other: u32) -> Line {
    (
        dictionary.den(),
        dictionary.constant(basic),
        dictionary.entry(basic, other),
        dictionary.entry(basic, 1),
    )
}

fn pivoted(
    alloc: Global,
    rows: &[(i64, [i64; 2])],
    swap: &(u32, u32, u32),
) -> Option<Result<Line, (u32, Line)>> {
    let mut dictionary = dictionary_of(alloc, rows)?;
    let pivoted = pivot(&mut dictionary, swap.0, swap.1);
    let line = if dictionary.is_basic(swap.2) {
        line(
            &dictionary,
            swap.2,
            if swap.2 == swap.0 { swap.1 } else { swap.0 },
        )
    } else {
        (0, 0, 0, 0)
    };
    match pivoted {
        Some(Ok(())) => Some(Ok(line)),
        Some(Err(row)) => Some(Err((row, line))),
        None => None,
    }
}

#[test]
fn pivots_give_the_form_or_the_wide_row(rt: HostRuntime) {
    for (rows, swap, wanted) in &PIVOTED {
        assert!(rt; pivoted(rt.alloc(), rows, swap) == Some(*wanted));
    }
}

// The denominator, and the entries of both variables of the second pivot's form; none where a pivot isn't made.
fn twice(dictionary: &mut Dictionary) -> Option<(i64, [i64; 4])> {
    if pivot(dictionary, 2, 0) != Some(Ok(())) || pivot(dictionary, 3, 1) != Some(Ok(())) {
        return None;
    }
    let entries = [
        dictionary.entry(0, 2),
        dictionary.entry(0, 3),
        dictionary.entry(1, 2),
        dictionary.entry(1, 3),
    ];
    Some((dictionary.den(), entries))
}

fn pivoted_twice(alloc: Global) -> Option<(i64, [i64; 4])> {
    let mut dictionary = dictionary_of(alloc, &[(0, [2, 1]), (0, [1, 2])])?;
    twice(&mut dictionary)
}

// x = (2 s - t) / 3 and y = (2 t - s) / 3, for s = 2 x + y and t = x + 2 y
#[test]
fn two_pivots_leave_no_old_denominator(rt: HostRuntime) {
    assert!(rt; pivoted_twice(rt.alloc()) == Some((3, [2, -1, -1, 2])));
}

// The constant of the row's slack; then, once the row is gone again, the denominator and whether the variable 0 is basic.
fn pushed_and_popped(alloc: Global, row: (i64, [i64; 2])) -> Option<(i64, i64, bool)> {
    let Ok(rows) = lone_rows_of(alloc, &[row]) else {
        return None;
    };
    if rows.len() != 1 || !are_rows_of(1, &rows) || !are_small_rows(&rows) {
        return None;
    }
    let Ok(mut dictionary) = Dictionary::of(alloc, 1, &[]) else {
        return None;
    };
    let Ok(Pushed::Held) = dictionary.push(alloc, &rows[0]) else {
        return None;
    };
    let constant = dictionary.constant(1);
    dictionary.pop();
    Some((constant, dictionary.den(), dictionary.is_basic(0)))
}

#[test]
fn a_row_comes_and_goes(rt: HostRuntime) {
    assert!(rt; pushed_and_popped(rt.alloc(), (3, [-1, 0])) == Some((3, 1, false)));
}
