use crate::warm::{add_all, undo};
use row_dictionary::Dictionary;
use std::alloc::Global;
use warm_rows::Warm;

const FIRST: [(i64, [i64; 2]); 2] = [(3, [-2, 1]), (-4, [3, 2])];

const THEN: [(i64, [i64; 2]); 2] = [(-5, [-1, 2]), (7, [2, -3])];

// The rows, added and repaired.
fn repaired(alloc: Global, warm: &mut Warm, rows: &[(i64, [i64; 2])]) -> Option<()> {
    add_all(alloc, warm, rows)?;
    match warm.repair(alloc) {
        Ok(_) => Some(()),
        Err(_) => None,
    }
}

fn same_line(one: &Dictionary, other: &Dictionary, basic: u32, count: u32) -> bool {
    for free in 0..count {
        if one.entry(basic, free) != other.entry(basic, free) {
            return false;
        }
    }
    one.constant(basic) == other.constant(basic)
}

fn same(one: &Dictionary, other: &Dictionary, count: u32) -> bool {
    for basic in 0..count {
        if one.is_basic(basic) != other.is_basic(basic) || !same_line(one, other, basic, count) {
            return false;
        }
    }
    one.den() == other.den()
}

// What is left of the first rows once more were added, repaired and undone, beside the first rows alone.
fn is_as_before(alloc: Global, warm: &mut Warm, fresh: &mut Warm) -> Option<bool> {
    repaired(alloc, fresh, &FIRST)?;
    repaired(alloc, warm, &FIRST)?;
    let steps = warm.mark().steps;
    repaired(alloc, warm, &THEN)?;
    let changed = !same(warm.dictionary(), fresh.dictionary(), 6);
    undo(warm, steps)?;
    Some(changed && steps == 3 && same(warm.dictionary(), fresh.dictionary(), 6))
}

fn undone(alloc: Global) -> Option<bool> {
    let Ok(mut warm) = Warm::new(alloc, 2) else {
        return None;
    };
    let Ok(mut fresh) = Warm::new(alloc, 2) else {
        return None;
    };
    is_as_before(alloc, &mut warm, &mut fresh)
}

#[test]
fn an_undone_dictionary_has_all_numbers_of_a_fresh_one(rt: HostRuntime) {
    assert!(rt; undone(rt.alloc()) == Some(true));
}
