//! Convex outlines of lists of lattice points: their corners, what is inner to them, and their sides.
//!
//! `hull` gives the corners of the convex hull of a list: members of it, counterclockwise from the least, of which any three
//! turn left. Its main clause says that nothing is lost: a point is a mean of all corners with positive weights exactly where
//! it is one of all members of the list. A list of no point, of one point or of points on one line is no case of its own.
//! `is_inner` says exactly which points these are, and `sides` gives exactly the sides, by angle.
//!
//! Spots of meshes come in, and what collides is then decided by corners alone. The words of the contracts and the geometry are
//! those of `outline_laws`, and the edges by angle those of `outline_edges`.
#![tactic(auto)]

ghost use Rattle.std.specs.Prelude.{◌≡◌, List, [], reverse, IfOk, All, Contains, ◌<◌, ◌≤◌, length, ◌^◌, ◌-ℤ◌, unsigned_abs, ◌↔◌};
ghost use Rattle.seq_model.specs.declared.printer.Spot.{Spot};
ghost use Rattle.seq_model.specs.Points.{Point, at_spot};
ghost use Rattle.seq_model.specs.Outlines.{Inner, Within};
ghost use Rattle.outline_laws.specs.Corners.{turn, AreCorners, AreEnds, HasArea, IsNarrow};
ghost use Rattle.outline_laws.specs.Chains.{fallen, grown, both_chains, IsRising, SameMembers};

mod inner;
mod outward;

pub use inner::is_inner;
use integer_laws::{difference, wide_product};
pub use outward::sides;
use seq_model::Spot;
use seq_num::NoMemory;
use std::alloc::{AllocError, Global};

// The difference of two coordinates.
fn apart(a: i64, b: i64) -> i64
    requires a { unsigned_abs a < 2 ^ 21 }
    requires b { unsigned_abs b < 2 ^ 21 }
    ensures value { result ≡ a -ℤ b }
    ensures size { unsigned_abs result < 2 ^ 22 }
{
    a - b
}

// More than 0 where c lies to the left of the way from a to b.
fn turn_of(a: &Spot, b: &Spot, c: &Spot) -> i128
    requires a { IsNarrow a.now }
    requires b { IsNarrow b.now }
    requires c { IsNarrow c.now }
    ensures { result ≡ turn a.now b.now c.now }
{
    let ahead = wide_product(apart(b.x, a.x), apart(c.y, a.y));
    let back = wide_product(apart(b.y, a.y), apart(c.x, a.x));
    difference(ahead, back)
}

// Takes off the newest corners at which the way on to `to` doesn't turn left.
fn fall_back(chain: &mut Vec<Spot>, to: &Spot)
    requires chain { All IsNarrow chain.old.items }
    requires to { IsNarrow to.now }
    ensures fallen { reverse chain.new.items ≡ fallen to.now (reverse chain.old.items) }
    ensures near { All IsNarrow chain.new.items }
{
    while chain.len() >= 2 && turn_of(&chain[chain.len() - 2], &chain[chain.len() - 1], to) <= 0 {
        let _ = chain.pop();
    }
}

// The chain through the points that turns left at each corner.
fn chain_of(alloc: Global, spots: &[Spot]) -> Result<Vec<Spot>, AllocError>
    requires { All IsNarrow spots.now }
    ensures { IfOk result (λ chain. reverse chain.items ≡ grown [] spots.now) }
{
    let mut chain = Vec::new(alloc);
    for spot in spots {
        fall_back(&mut chain, spot);
        chain.push(*spot)?;
    }
    Ok(chain)
}

// The corners of ascending points: along the lower side, and back along the upper one. Each chain ends where the other begins.
fn corners_of(alloc: Global, mut spots: Vec<Spot>) -> Result<Vec<Spot>, AllocError>
    requires { All IsNarrow spots.items }
    ensures { IfOk result (λ corners. corners.items ≡ both_chains spots.items) }
{
    let mut corners = chain_of(alloc, spots.as_slice())?;
    spots.reverse();
    let mut upper = chain_of(alloc, spots.as_slice())?;
    let _ = corners.pop();
    let _ = upper.pop();
    corners.extend_from_slice(upper.as_slice())?;
    Ok(corners)
}

// The points in ascending order, each once.
fn ascending(alloc: Global, spots: &[Spot]) -> Result<Vec<Spot>, AllocError>
    requires { All IsNarrow spots.now }
    ensures near { IfOk result (λ sorted. All IsNarrow sorted.items) }
    ensures members { IfOk result (λ sorted. SameMembers spots.now sorted.items) }
    ensures rising { IfOk result (λ sorted. IsRising sorted.items) }
{
    let mut sorted = Vec::new(alloc);
    sorted.extend_from_slice(spots)?;
    sorted.sort_unstable();
    sorted.dedup();
    Ok(sorted)
}

/// The corners of the convex hull, counterclockwise from the least (x, y), no three on a line. No point has none, points on one
/// line have their two ends, and one point, however often it stands there, has itself.
pub fn hull(alloc: Global, spots: &[Spot]) -> Result<Vec<Spot>, NoMemory>
    requires { All IsNarrow spots.now }
    ensures corners { IfOk result (λ hull. AreCorners hull.items) }
    ensures near { IfOk result (λ hull. All IsNarrow hull.items) }
    ensures members { IfOk result (λ hull. All (Contains spots.now) hull.items) }
    ensures within { IfOk result (λ hull. All (λ s. Within hull.items (at_spot s)) spots.now) }
    ensures inner { IfOk result (λ hull. (q : Point) → Inner hull.items q ↔ Inner spots.now q) }
    ensures area { IfOk result (λ hull. HasArea spots.now → 3 ≤ length hull.items) }
    ensures ends { IfOk result (λ hull. (HasArea spots.now → ⊥) → AreEnds spots.now hull.items) }
{
    let sorted = ascending(alloc, spots)?;
    if sorted.len() < 2 {
        return Ok(sorted);
    }
    Ok(corners_of(alloc, sorted)?)
}
