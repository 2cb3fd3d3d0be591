// The edges of an outline, as directions as long as they are.
ghost use Rattle.std.specs.Prelude.{◌≡◌, ◌≤◌, ◌<◌, ◌^◌, List, All, ◌++◌, ◌-ℤ◌, OnOk, length, unsigned_abs};
ghost use Rattle.seq_model.specs.declared.printer.Spot.{Spot};
ghost use Rattle.seq_model.specs.declared.tree.Dir.{Dir};
ghost use Rattle.outline_laws.specs.Corners.{IsNarrow};
ghost use Rattle.outline_laws.specs.Directions.{first_after, IsShort, IsShortOption};
ghost use Rattle.outline_laws.specs.Edges.{edge_if, edges_if, last_in_list, raw};

use crate::angles::{better_of, opposite};
use seq_model::{Dir, Spot};
use std::alloc::AllocError;

// The difference of two coordinates.
fn apart(a: i64, b: i64) -> i64
    requires a { unsigned_abs a < 2 ^ 21 }
    requires b { unsigned_abs b < 2 ^ 21 }
    ensures value { result ≡ a -ℤ b }
    ensures size { unsigned_abs result < 2 ^ 22 }
{
    a - b
}

// The outward direction of the way from one corner to the next, as long as the way.
fn outward(from: &Spot, to: &Spot) -> Dir
    requires from { IsNarrow from.now }
    requires to { IsNarrow to.now }
    ensures value { result ≡ raw from.now to.now }
    ensures short { IsShort result }
{
    Dir {
        x: apart(to.y, from.y),
        y: apart(from.x, to.x),
    }
}

/// The direction of an edge, turned round where that is asked.
pub fn edge(from: &Spot, to: &Spot, turned: bool) -> Dir
    requires from { IsNarrow from.now }
    requires to { IsNarrow to.now }
    ensures value { result ≡ edge_if turned from.now to.now }
    ensures short { IsShort result }
{
    let dir = outward(from, to);
    if turned { opposite(&dir) } else { dir }
}

/// The last corner.
pub fn last_corner(corners: &[Spot]) -> Spot
    requires near { All IsNarrow corners.now }
    requires some { 1 ≤ length corners.now }
    ensures value { result ≡ last_in_list corners.now }
    ensures near { IsNarrow result }
{
    corners[corners.len() - 1]
}

/// The first edge of the outline after a direction, or the best so far if it comes before.
pub fn first_edge_after(
    corners: &[Spot],
    turned: bool,
    after: &Option<Dir>,
    best: Option<Dir>,
) -> Option<Dir>
    requires near { All IsNarrow corners.now }
    requires best { IsShortOption best }
    ensures value { result ≡ first_after after.now best (edges_if turned corners.now) }
    ensures short { IsShortOption result }
{
    if corners.is_empty() {
        return best;
    }
    let mut last = last_corner(corners);
    let mut first = best;
    for corner in corners {
        first = better_of(after, first, edge(&last, corner, turned));
        last = *corner;
    }
    first
}

/// Puts the edges of an outline behind others, turned round where that is asked. A single corner has (0, 0).
pub fn push_edges(edges: &mut Vec<Dir>, corners: &[Spot], turned: bool) -> Result<(), AllocError>
    requires near { All IsNarrow corners.now }
    requires short { All IsShort edges.old.items }
    ensures pushed { OnOk result (edges.new.items ≡ edges.old.items ++ edges_if turned corners.now) }
    ensures short { OnOk result (All IsShort edges.new.items) }
{
    if corners.is_empty() {
        return Ok(());
    }
    let mut last = last_corner(corners);
    for corner in corners {
        edges.push(edge(&last, corner, turned))?;
        last = *corner;
    }
    Ok(())
}
