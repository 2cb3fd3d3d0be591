// Whether a point is inner to a difference.
ghost use Rattle.std.specs.Prelude.{◌≡◌, ◌≤◌, List, All, length, IsTrue, ◌↔◌, ◌&&◌};
ghost use Rattle.std.specs.List.{list_all};
ghost use Rattle.seq_model.specs.declared.point.RatPoint.{RatPoint};
ghost use Rattle.seq_model.specs.declared.printer.Spot.{Spot};
ghost use Rattle.seq_model.specs.declared.tree.Dir.{Dir};
ghost use Rattle.seq_model.specs.Contacts.{difference};
ghost use Rattle.seq_model.specs.Outlines.{Inner};
ghost use Rattle.outline_laws.specs.Beyond.{BeyondNoSide, FitsProducts};
ghost use Rattle.outline_laws.specs.Corners.{IsNarrow};
ghost use Rattle.outline_laws.specs.Directions.{IsShort};
ghost use Rattle.outline_laws.specs.Edges.{edges_if};
ghost use Rattle.outline_laws.specs.Laws.Clear.{clear_of, in_box, three_clear};
ghost use Rattle.outline_laws.specs.Outlines.{AreOutlines};

use crate::values::support_along;
use outline_edges::{edge, is_none, last_corner, limit_at, value_at};
use seq_model::{Dir, RatPoint, Spot};

// Whether the point is short of the greatest value along an edge.
fn is_clear(dir: &Dir, a: &[Spot], b: &[Spot], f: &[Spot], at: &RatPoint) -> bool
    requires dir { IsShort dir.now }
    requires outlines { AreOutlines a.now b.now f.now }
    requires at { FitsProducts at.now }
    ensures { result ≡ clear_of (difference a.now b.now f.now) at.now dir.now }
{
    is_none(dir) || value_at(dir, at) < limit_at(support_along(dir, a, b, f), at)
}

fn edges_are_clear(
    of: &[Spot],
    turned: bool,
    a: &[Spot],
    b: &[Spot],
    f: &[Spot],
    at: &RatPoint,
) -> bool
    requires of_near { All IsNarrow of.now }
    requires of_some { 1 ≤ length of.now }
    requires outlines { AreOutlines a.now b.now f.now }
    requires at { FitsProducts at.now }
    ensures { result ≡ list_all (clear_of (difference a.now b.now f.now) at.now) (edges_if turned of.now) }
{
    let mut last = last_corner(of);
    for corner in of {
        if !is_clear(&edge(&last, corner, turned), a, b, f, at) {
            return false;
        }
        last = *corner;
    }
    true
}

fn all_are_clear(a: &[Spot], b: &[Spot], f: &[Spot], at: &RatPoint) -> bool
    requires outlines { AreOutlines a.now b.now f.now }
    requires at { FitsProducts at.now }
    ensures { result ≡ three_clear (clear_of (difference a.now b.now f.now) at.now) a.now b.now f.now }
{
    if !edges_are_clear(a, false, a, b, f, at) {
        return false;
    }
    if !edges_are_clear(b, true, a, b, f, at) {
        return false;
    }
    edges_are_clear(f, true, a, b, f, at)
}

// Whether the point lies inside the box of the difference.
fn is_in_box(a: &[Spot], b: &[Spot], f: &[Spot], at: &RatPoint) -> bool
    requires outlines { AreOutlines a.now b.now f.now }
    requires at { FitsProducts at.now }
    ensures { result ≡ in_box (difference a.now b.now f.now) at.now }
{
    let to_east = is_clear(&Dir { x: 1, y: 0 }, a, b, f, at);
    if !(to_east && is_clear(&Dir { x: 0, y: 1 }, a, b, f, at)) {
        return false;
    }
    is_clear(&Dir { x: -1, y: 0 }, a, b, f, at) && is_clear(&Dir { x: 0, y: -1 }, a, b, f, at)
}

// Whether the point lies inside the box and short of all edges.
fn is_inside(a: &[Spot], b: &[Spot], f: &[Spot], at: &RatPoint) -> bool
    requires outlines { AreOutlines a.now b.now f.now }
    requires at { FitsProducts at.now }
    ensures { result ≡ (in_box (difference a.now b.now f.now) at.now
        && three_clear (clear_of (difference a.now b.now f.now) at.now) a.now b.now f.now) }
{
    is_in_box(a, b, f, at) && all_are_clear(a, b, f, at)
}

/// Whether a point is inner to the difference, which is exactly where it is beyond no side. Takes no memory. The sides of the box
/// are tried first.
pub fn strictly_in(a: &[Spot], b: &[Spot], f: &[Spot], at: &RatPoint) -> bool
    requires outlines { AreOutlines a.now b.now f.now }
    requires at { FitsProducts at.now }
    ensures inner { IsTrue result ↔ Inner (difference a.now b.now f.now) at.now }
    ensures beyond_none { IsTrue result ↔ BeyondNoSide (difference a.now b.now f.now) at.now }
{
    is_inside(a, b, f, at)
}
