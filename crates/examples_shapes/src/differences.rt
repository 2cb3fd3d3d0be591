ghost use Rattle.std.specs.Prelude.{IfOk, List, All};
ghost use Rattle.outline_laws.specs.Beyond.{FitsProducts};
ghost use Rattle.outline_laws.specs.Corners.{AreCorners, IsNarrow};
ghost use Rattle.outline_laws.specs.Directions.{IsGoodAfter, IsShort};
ghost use Rattle.outline_laws.specs.Outlines.{AreOutlines};

use crate::spots::{point, spots};
use convex_outline::hull;
use difference_polygon::{next_side, sides_of, strictly_in, support};
use seq_model::{Dir, RatPoint, Spot};
use seq_num::NoMemory;
use std::alloc::Global;
use std::test::Fail;

#[derive(Clone, Copy)]
enum Shape {
    Cube,
    Wedge,
    Nozzle,
    Tip,
    Triangle,
    Bar,
}

// Their corners in grains: a cube and a wedge of 20 mm with their margins, the parts of a printer, and two that aren't symmetric.
fn corners_of(shape: Shape) -> &'static [(i8, i8)] {
    match shape {
        Shape::Cube => &[(-1, -1), (21, -1), (21, 21), (-1, 21)],
        Shape::Wedge => &[(-1, -1), (21, -1), (21, 1), (1, 21), (-1, 21)],
        Shape::Nozzle => &[(-2, -2), (2, -2), (2, 2), (-2, 2)],
        Shape::Tip => &[(0, 0)],
        Shape::Triangle => &[(0, 0), (6, 1), (2, 5)],
        Shape::Bar => &[(-3, 0), (5, 2)],
    }
}

fn outline(alloc: Global, shape: Shape) -> Result<Vec<Spot>, NoMemory>
    ensures corners { IfOk result (λ corners. AreCorners corners.items) }
    ensures near { IfOk result (λ corners. All IsNarrow corners.items) }
{
    let given = spots(alloc, corners_of(shape))?;
    hull(alloc, given.as_slice())
}

// Whether these are the sides, each with its greatest value.
fn are_rows(dirs: &[Dir], rows: &[(i64, i64, i64)], a: &[Spot], b: &[Spot], f: &[Spot]) -> bool
    requires dirs { All IsShort dirs.now }
    requires outlines { AreOutlines a.now b.now f.now }
{
    if dirs.len() != rows.len() {
        return false;
    }
    for k in 0..dirs.len() {
        if dirs[k].x != rows[k].0
            || dirs[k].y != rows[k].1
            || support(dirs[k], a, b, f) != rows[k].2
        {
            return false;
        }
    }
    true
}

// The direction of a row, and none past the last row.
fn direction_of(rows: &[(i64, i64, i64)], k: usize) -> Option<Dir>
    ensures { IsGoodAfter result }
{
    match rows.get(k) {
        Some(row) if row.0 != 0 || row.1 != 0 => Some(Dir { x: row.0, y: row.1 }),
        _ => None,
    }
}

// Whether each row is the next side after the row before, and there is none after the last row.
fn follow(rows: &[(i64, i64, i64)], a: &[Spot], b: &[Spot], f: &[Spot]) -> bool
    requires { AreOutlines a.now b.now f.now }
{
    if next_side(a, b, f, None) != direction_of(rows, 0) {
        return false;
    }
    for k in 0..rows.len() {
        if next_side(a, b, f, direction_of(rows, k)) != direction_of(rows, k + 1) {
            return false;
        }
    }
    true
}

// Three outlines, and the sides of their difference with the greatest values.
static ROWS: [((Shape, Shape, Shape), &[(i64, i64, i64)]); 5] = [
    (
        (Shape::Wedge, Shape::Wedge, Shape::Nozzle),
        &[
            (1, 0, 24),
            (1, 1, 28),
            (0, 1, 24),
            (-1, 0, 24),
            (-1, -1, 28),
            (0, -1, 24),
        ],
    ),
    (
        (Shape::Cube, Shape::Cube, Shape::Nozzle),
        &[(1, 0, 24), (0, 1, 24), (-1, 0, 24), (0, -1, 24)],
    ),
    (
        (Shape::Cube, Shape::Cube, Shape::Tip),
        &[(1, 0, 22), (0, 1, 22), (-1, 0, 22), (0, -1, 22)],
    ),
    (
        (Shape::Triangle, Shape::Cube, Shape::Bar),
        &[
            (1, 0, 10),
            (1, 1, 12),
            (0, 1, 6),
            (-1, 4, 40),
            (-5, 2, 128),
            (-1, 0, 26),
            (0, -1, 23),
            (1, -6, 134),
            (1, -4, 90),
        ],
    ),
    (
        (Shape::Wedge, Shape::Triangle, Shape::Bar),
        &[
            (1, 0, 24),
            (1, 1, 25),
            (0, 1, 21),
            (-1, 6, 124),
            (-1, 4, 84),
            (-1, 0, 12),
            (-1, -1, 16),
            (0, -1, 8),
            (1, -4, 46),
            (5, -2, 122),
        ],
    ),
];

fn have_rows(
    alloc: Global,
    rows: &[(i64, i64, i64)],
    a: &[Spot],
    b: &[Spot],
    f: &[Spot],
) -> Result<bool, NoMemory>
    requires { AreOutlines a.now b.now f.now }
{
    let dirs = sides_of(alloc, a, b, f)?;
    Ok(are_rows(dirs.as_slice(), rows, a, b, f) && follow(rows, a, b, f))
}

fn has_sides(
    alloc: Global,
    shapes: &(Shape, Shape, Shape),
    rows: &[(i64, i64, i64)],
) -> Result<bool, NoMemory> {
    let a = outline(alloc, shapes.0)?;
    let b = outline(alloc, shapes.1)?;
    let f = outline(alloc, shapes.2)?;
    if a.len() < 3 || b.len() < 3 || f.len() < 1 {
        return Ok(false);
    }
    have_rows(alloc, rows, &a, &b, &f)
}

#[test]
fn sides_of_five_differences(rt: HostRuntime) -> Result<(), Fail> {
    for (shapes, rows) in &ROWS {
        assert!(rt; has_sides(rt.alloc(), shapes, rows)?);
    }
    Ok(())
}

// Three outlines, numerators and the denominator of a point, and whether it is inner to their difference.
static POINTS: [((Shape, Shape, Shape), (i8, i8, u8), bool); 7] = [
    ((Shape::Cube, Shape::Cube, Shape::Nozzle), (24, 0, 1), false),
    ((Shape::Cube, Shape::Cube, Shape::Nozzle), (47, 0, 2), true),
    ((Shape::Cube, Shape::Cube, Shape::Tip), (47, 0, 2), false),
    (
        (Shape::Triangle, Shape::Cube, Shape::Bar),
        (-9, -9, 1),
        true,
    ),
    ((Shape::Triangle, Shape::Cube, Shape::Bar), (0, 5, 1), true),
    (
        (Shape::Triangle, Shape::Cube, Shape::Bar),
        (-20, 5, 1),
        false,
    ),
    (
        (Shape::Wedge, Shape::Triangle, Shape::Bar),
        (23, 0, 1),
        true,
    ),
];

// Whether the point is inner to the difference; none where outlines couldn't be made.
fn has_inside(
    alloc: Global,
    shapes: &(Shape, Shape, Shape),
    at: &RatPoint,
) -> Result<Option<bool>, NoMemory>
    requires { FitsProducts at.now }
{
    let a = outline(alloc, shapes.0)?;
    let b = outline(alloc, shapes.1)?;
    let f = outline(alloc, shapes.2)?;
    if a.len() < 3 || b.len() < 3 || f.len() < 1 {
        return Ok(None);
    }
    Ok(Some(strictly_in(&a, &b, &f, at)))
}

#[test]
fn points_of_four_differences(rt: HostRuntime) -> Result<(), Fail> {
    for (shapes, numbers, inner) in &POINTS {
        assert!(rt; has_inside(rt.alloc(), shapes, &point(numbers))? == Some(*inner));
    }
    Ok(())
}
