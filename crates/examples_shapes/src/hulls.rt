use crate::spots::{are_pairs, point, spots};
use convex_outline::{hull, is_inner, sides};
use seq_model::Dir;
use seq_num::NoMemory;
use std::alloc::Global;
use std::test::Fail;

// A list of points, and the corners of its hull.
static LISTS: [(&[(i8, i8)], &[(i8, i8)]); 20] = [
    // no point, and one
    (&[], &[]),
    (&[(3, 4)], &[(3, 4)]),
    (&[(3, 4), (3, 4), (3, 4)], &[(3, 4)]),
    // points on one line
    (&[(1, 0), (0, 0)], &[(0, 0), (1, 0)]),
    (&[(0, 1), (0, 0), (0, 1)], &[(0, 0), (0, 1)]),
    (&[(3, 1), (1, 1), (2, 1)], &[(1, 1), (3, 1)]),
    (&[(2, 5), (2, -1), (2, 3), (2, 5)], &[(2, -1), (2, 5)]),
    (&[(0, 3), (1, 2), (3, 0), (2, 1)], &[(0, 3), (3, 0)]),
    (&[(2, 2), (0, 0), (1, 1), (0, 0), (2, 2)], &[(0, 0), (2, 2)]),
    // triangles, flat ones too
    (&[(0, 0), (1, 0), (0, 1)], &[(0, 0), (1, 0), (0, 1)]),
    (&[(0, 0), (0, 1), (1, 0)], &[(0, 0), (1, 0), (0, 1)]),
    (&[(0, 0), (2, 0), (1, -1)], &[(0, 0), (1, -1), (2, 0)]),
    (&[(0, 0), (2, 0), (1, 1)], &[(0, 0), (2, 0), (1, 1)]),
    (&[(0, 0), (100, 1), (50, 1)], &[(0, 0), (100, 1), (50, 1)]),
    // points on the sides at the least and at the greatest x
    (&[(0, 0), (0, 1), (0, 2), (2, 1)], &[(0, 0), (2, 1), (0, 2)]),
    (&[(0, 1), (2, 0), (2, 1), (2, 2)], &[(0, 1), (2, 0), (2, 2)]),
    // squares with points on their sides and inside
    (
        &[(0, 0), (2, 0), (1, 0), (2, 2), (0, 2), (1, 1)],
        &[(0, 0), (2, 0), (2, 2), (0, 2)],
    ),
    (
        &[
            (0, 0),
            (0, 1),
            (0, 2),
            (1, 0),
            (1, 1),
            (1, 2),
            (2, 0),
            (2, 1),
            (2, 2),
        ],
        &[(0, 0), (2, 0), (2, 2), (0, 2)],
    ),
    // six corners and a middle; four corners and two points inside
    (
        &[(1, 0), (2, 0), (3, 1), (2, 2), (1, 2), (0, 1), (1, 1)],
        &[(0, 1), (1, 0), (2, 0), (3, 1), (2, 2), (1, 2)],
    ),
    (
        &[(-3, -2), (4, -1), (1, 3), (-2, 2), (0, 0), (1, -1)],
        &[(-3, -2), (4, -1), (1, 3), (-2, 2)],
    ),
];

fn is_hull(alloc: Global, list: &[(i8, i8)], corners: &[(i8, i8)]) -> Result<bool, NoMemory> {
    let given = spots(alloc, list)?;
    let found = hull(alloc, given.as_slice())?;
    Ok(are_pairs(found.as_slice(), corners))
}

#[test]
fn hulls_of_twenty_lists(rt: HostRuntime) -> Result<(), Fail> {
    for (list, corners) in &LISTS {
        assert!(rt; is_hull(rt.alloc(), list, corners)?);
    }
    Ok(())
}

// A list of points, and the sides of its hull.
static SIDES: [(&[(i8, i8)], &[(i64, i64)]); 12] = [
    // no point, and one
    (&[], &[]),
    (&[(3, 4)], &[]),
    // segments: level, upright and slanted
    (&[(0, 0), (3, 0)], &[(0, 1), (0, -1)]),
    (&[(2, -1), (2, 5)], &[(1, 0), (-1, 0)]),
    (&[(-1, -1), (1, 3)], &[(-2, 1), (2, -1)]),
    // triangles: two edges on the axes, a flat one, and long edges
    (&[(0, 0), (4, 0), (0, 2)], &[(1, 2), (-1, 0), (0, -1)]),
    (&[(0, 0), (100, 1), (50, 1)], &[(0, 1), (-1, 50), (1, -100)]),
    (&[(0, 0), (6, -3), (6, 9)], &[(1, 0), (-3, 2), (-1, -2)]),
    // four corners: a square, a parallelogram, and directions in all quadrants
    (
        &[(0, 0), (2, 0), (2, 2), (0, 2)],
        &[(1, 0), (0, 1), (-1, 0), (0, -1)],
    ),
    (
        &[(0, 0), (3, 1), (4, 4), (1, 3)],
        &[(-1, 3), (-3, 1), (1, -3), (3, -1)],
    ),
    (
        &[(-3, -2), (4, -1), (1, 3), (-2, 2)],
        &[(4, 3), (-1, 3), (-4, 1), (1, -7)],
    ),
    // six corners
    (
        &[(1, 0), (2, 0), (3, 1), (2, 2), (1, 2), (0, 1)],
        &[(1, 1), (0, 1), (-1, 1), (-1, -1), (0, -1), (1, -1)],
    ),
];

fn same_directions(dirs: &[Dir], pairs: &[(i64, i64)]) -> bool {
    if dirs.len() != pairs.len() {
        return false;
    }
    for (dir, pair) in dirs.iter().zip(pairs) {
        if dir.x != pair.0 || dir.y != pair.1 {
            return false;
        }
    }
    true
}

fn has_sides(alloc: Global, list: &[(i8, i8)], dirs: &[(i64, i64)]) -> Result<bool, NoMemory> {
    let given = spots(alloc, list)?;
    let corners = hull(alloc, given.as_slice())?;
    let found = sides(alloc, corners.as_slice())?;
    Ok(same_directions(found.as_slice(), dirs))
}

#[test]
fn sides_of_twelve_lists(rt: HostRuntime) -> Result<(), Fail> {
    for (list, dirs) in &SIDES {
        assert!(rt; has_sides(rt.alloc(), list, dirs)?);
    }
    Ok(())
}

// A list of points, numerators and the denominator of a point, and whether it is inner to the hull.
static POINTS: [(&[(i8, i8)], (i8, i8, u8), bool); 18] = [
    // no point, and one
    (&[], (0, 0, 1), false),
    (&[(3, 4)], (6, 8, 2), true),
    (&[(3, 4)], (7, 8, 2), false),
    (&[(3, 4)], (6, 9, 2), false),
    // a segment: between its ends, at them, behind them, beside it
    (&[(1, 1), (3, 2)], (4, 3, 2), true),
    (&[(1, 1), (3, 2)], (1, 1, 1), false),
    (&[(1, 1), (3, 2)], (3, 2, 1), false),
    (&[(1, 1), (3, 2)], (5, 3, 1), false),
    (&[(1, 1), (3, 2)], (-1, 0, 1), false),
    (&[(1, 1), (3, 2)], (2, 1, 1), false),
    // a triangle: inside, on each edge, at a corner, outside
    (&[(0, 0), (4, 0), (0, 2)], (3, 1, 2), true),
    (&[(0, 0), (4, 0), (0, 2)], (2, 1, 1), false),
    (&[(0, 0), (4, 0), (0, 2)], (0, 1, 1), false),
    (&[(0, 0), (4, 0), (0, 2)], (5, 0, 3), false),
    (&[(0, 0), (4, 0), (0, 2)], (0, 0, 1), false),
    (&[(0, 0), (4, 0), (0, 2)], (7, 3, 2), false),
    // a square
    (&[(0, 0), (2, 0), (2, 2), (0, 2)], (1, 1, 2), true),
    (&[(0, 0), (2, 0), (2, 2), (0, 2)], (0, 1, 1), false),
];

fn has_inside(alloc: Global, list: &[(i8, i8)], at: &(i8, i8, u8)) -> Result<bool, NoMemory> {
    let given = spots(alloc, list)?;
    let corners = hull(alloc, given.as_slice())?;
    Ok(is_inner(corners.as_slice(), &point(at)))
}

#[test]
fn inner_points_of_five_lists(rt: HostRuntime) -> Result<(), Fail> {
    for (list, numbers, inner) in &POINTS {
        assert!(rt; has_inside(rt.alloc(), list, numbers)? == *inner);
    }
    Ok(())
}
