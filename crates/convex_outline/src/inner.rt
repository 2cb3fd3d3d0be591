// Whether a point is inner to the corners of an outline.
ghost use Rattle.std.specs.Prelude.{◌≡◌, ◌≤◌, List, All, ◌*ℤ◌, length, IsTrue, int_lt, ◌↔◌};
ghost use Rattle.std.specs.Ordering.{int_eq};
ghost use Rattle.seq_model.specs.Sides.{along};
ghost use Rattle.seq_model.specs.declared.point.RatPoint.{RatPoint};
ghost use Rattle.seq_model.specs.declared.printer.Spot.{Spot};
ghost use Rattle.seq_model.specs.declared.tree.Dir.{Dir};
ghost use Rattle.seq_model.specs.Outlines.{Inner};
ghost use Rattle.outline_laws.specs.Beyond.{FitsProducts};
ghost use Rattle.outline_laws.specs.Corners.{AreCorners, IsNarrow};
ghost use Rattle.outline_laws.specs.Directions.{IsShort};
ghost use Rattle.outline_laws.specs.Edges.{last_in_list, raw};
ghost use Rattle.outline_laws.specs.Laws.Left.{ahead, all_left, is_at, is_between, is_inner_to, is_left, value};

use outline_edges::{edge, last_corner, limit_at, value_along, value_at};
use seq_model::{Dir, RatPoint, Spot};

// Whether the point lies to the left of the way from one corner to the next.
fn lies_left(from: &Spot, to: &Spot, at: &RatPoint) -> bool
    requires from { IsNarrow from.now }
    requires to { IsNarrow to.now }
    requires at { FitsProducts at.now }
    ensures { result ≡ is_left at.now from.now to.now }
{
    let out = edge(from, to, false);
    value_at(&out, at) < limit_at(value_along(&out, from), at)
}

fn lies_left_of_all(corners: &[Spot], at: &RatPoint) -> bool
    requires near { All IsNarrow corners.now }
    requires some { 1 ≤ length corners.now }
    requires at { FitsProducts at.now }
    ensures { result ≡ all_left at.now (last_in_list corners.now) corners.now }
{
    let mut last = last_corner(corners);
    for corner in corners {
        if !lies_left(&last, corner, at) {
            return false;
        }
        last = *corner;
    }
    true
}

fn is_corner(corner: &Spot, at: &RatPoint) -> bool
    requires corner { IsNarrow corner.now }
    requires at { FitsProducts at.now }
    ensures { result ≡ is_at at.now corner.now }
{
    at.x == limit_at(corner.x, at) && at.y == limit_at(corner.y, at)
}

// The direction of the way from one corner to another, as long as the way.
fn direction_to(from: &Spot, to: &Spot) -> Dir
    requires from { IsNarrow from.now }
    requires to { IsNarrow to.now }
    ensures value { result ≡ ahead from.now to.now }
    ensures short { IsShort result }
{
    let out = edge(from, to, false);
    Dir {
        x: -out.y,
        y: out.x,
    }
}

// Whether the point lies on the line of two corners.
fn lies_on_line(from: &Spot, to: &Spot, at: &RatPoint) -> bool
    requires from { IsNarrow from.now }
    requires to { IsNarrow to.now }
    requires at { FitsProducts at.now }
    ensures { result ≡ int_eq
        (value (raw from.now to.now) at.now)
        (along (raw from.now to.now) from.now *ℤ at.now.d) }
{
    let out = edge(from, to, false);
    value_at(&out, at) == limit_at(value_along(&out, from), at)
}

// Whether the point lies farther along a direction than the corner.
fn lies_beyond(dir: &Dir, corner: &Spot, at: &RatPoint) -> bool
    requires dir { IsShort dir.now }
    requires corner { IsNarrow corner.now }
    requires at { FitsProducts at.now }
    ensures { result ≡ int_lt (along dir.now corner.now *ℤ at.now.d) (value dir.now at.now) }
{
    limit_at(value_along(dir, corner), at) < value_at(dir, at)
}

// Whether the corner lies farther along a direction than the point.
fn lies_before(dir: &Dir, corner: &Spot, at: &RatPoint) -> bool
    requires dir { IsShort dir.now }
    requires corner { IsNarrow corner.now }
    requires at { FitsProducts at.now }
    ensures { result ≡ int_lt (value dir.now at.now) (along dir.now corner.now *ℤ at.now.d) }
{
    value_at(dir, at) < limit_at(value_along(dir, corner), at)
}

// Whether the point lies on the line of two corners, strictly between them.
fn lies_between(from: &Spot, to: &Spot, at: &RatPoint) -> bool
    requires from { IsNarrow from.now }
    requires to { IsNarrow to.now }
    requires at { FitsProducts at.now }
    ensures { result ≡ is_between at.now from.now to.now }
{
    let along = direction_to(from, to);
    lies_on_line(from, to, at) && (lies_beyond(&along, from, at) && lies_before(&along, to, at))
}

/// Whether a point is inner to the corners that `hull` gives: strictly inside an area, strictly between the ends of a segment,
/// or the one point itself. Takes no memory.
pub fn is_inner(corners: &[Spot], at: &RatPoint) -> bool
    requires near { All IsNarrow corners.now }
    requires corners { AreCorners corners.now }
    requires at { FitsProducts at.now }
    ensures { IsTrue result ↔ Inner corners.now at.now }
{
    is_inner_to_corners(corners, at)
}

fn is_inner_to_corners(corners: &[Spot], at: &RatPoint) -> bool
    requires near { All IsNarrow corners.now }
    requires at { FitsProducts at.now }
    ensures { result ≡ is_inner_to at.now corners.now }
{
    match corners.len() {
        0 => false,
        1 => is_corner(&corners[0], at),
        2 => lies_between(&corners[0], &corners[1], at),
        _ => lies_left_of_all(corners, at),
    }
}
