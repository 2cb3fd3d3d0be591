ghost use Rattle.std.specs.Prelude.{◌≡◌, [], ◌∷◌, ◌≤◌, ◌<ℤ◌, ◌≤ℤ◌, pos, ◌+ℤ◌, ◌*ℤ◌, ◌-ℤ◌, ◌&&◌, unsigned_abs, IfOk, OnOk, IsTrue};
ghost use Rattle.std.specs.Int.Signed.{lt_z, le_z};
ghost use Rattle.seq_model.specs.Bands.{vertex_in, crossing_up, crossings, facet_corners};
ghost use Rattle.seq_model.specs.Bounds.{IsNear, IsNearFacet};
ghost use Rattle.mesh_slices.specs.CornerPoints.{as_point, points_of, Adds};

use crate::corner::{CornerPoint, Slab};
use seq_limits::FARTHEST;
use seq_model::{Facet, Point3};
use smallvec::SmallVec;
use std::alloc::{AllocError, Global};

/// The corner points of one facet in one band: at most its three vertices, and three crossings of each of two heights.
pub type CornerPoints = SmallVec<CornerPoint, 9>;

// A coordinate times a difference of heights.
fn part_of(x: i64, rise: i64) -> i64
    requires x { unsigned_abs x ≤ FARTHEST }
    requires rise { unsigned_abs rise ≤ 20_000_000 }
    ensures value { result ≡ x *ℤ rise }
    ensures size { unsigned_abs result ≤ 200_000_000_000_000 }
{
    x * rise
}

// The mean of two coordinates, times the sum of their weights, each of which is a difference of heights.
fn mean_of(a: i64, weight_a: i64, b: i64, weight_b: i64) -> i64
    requires a { unsigned_abs a ≤ FARTHEST }
    requires weight_a { unsigned_abs weight_a ≤ 20_000_000 }
    requires b { unsigned_abs b ≤ FARTHEST }
    requires weight_b { unsigned_abs weight_b ≤ 20_000_000 }
    ensures value { result ≡ a *ℤ weight_a +ℤ b *ℤ weight_b }
    ensures size { unsigned_abs result ≤ 400_000_000_000_000 }
{
    part_of(a, weight_a) + part_of(b, weight_b)
}

/// How far one height lies above another, in µm.
pub fn rise_of(from: i64, to: i64) -> i64
    requires from { unsigned_abs from ≤ FARTHEST }
    requires to { unsigned_abs to ≤ FARTHEST }
    ensures value { result ≡ to -ℤ from }
    ensures size { unsigned_abs result ≤ 20_000_000 }
{
    to - from
}

// Where the edge from a point below a height to one above it crosses that height.
fn crossing_of(height: i64, under: &Point3, over: &Point3) -> CornerPoint
    requires under { IsNear under.now }
    requires over { IsNear over.now }
    requires from { under.now.z <ℤ height }
    requires to { height <ℤ over.now.z }
    ensures { crossing_up height under.now over.now ≡ as_point result ∷ [] }
{
    let up = rise_of(height, over.z);
    let down = rise_of(under.z, height);
    let x = mean_of(under.x, up, over.x, down);
    let y = mean_of(under.y, up, over.y, down);
    let d = rise_of(under.z, over.z);
    CornerPoint { x, y, d }
}

fn point_at(p: &Point3) -> CornerPoint
    requires { IsNear p.now }
    ensures { as_point result ≡ record { x = p.now.x; y = p.now.y; d = pos 1 } }
{
    CornerPoint {
        x: p.x,
        y: p.y,
        d: 1,
    }
}

// Whether a height is one of a band's.
fn holds(slab: &Slab, z: i64) -> bool
    ensures { result ≡ (le_z slab.now.low z && le_z z slab.now.high) }
{
    slab.low <= z && z <= slab.high
}

// Whether an edge that begins at one height and ends at another goes up through a third.
fn goes_up_through(height: i64, from: i64, to: i64) -> bool
    ensures { result ≡ (lt_z from height && lt_z height to) }
{
    from < height && height < to
}

// Adds a vertex that lies in the band.
fn add_vertex(points: &mut CornerPoints, p: &Point3, slab: &Slab) -> Result<(), AllocError>
    requires { IsNear p.now }
    ensures { OnOk result (Adds points.old.items points.new.items
        (vertex_in slab.now.low slab.now.high p.now)) }
{
    if holds(slab, p.z) {
        points.push(point_at(p))?;
    }
    Ok(())
}

// Adds the crossing of a height by an edge that goes up from one point to another.
fn add_crossing(
    points: &mut CornerPoints,
    height: i64,
    from: &Point3,
    to: &Point3,
) -> Result<(), AllocError>
    requires from { IsNear from.now }
    requires to { IsNear to.now }
    ensures { OnOk result (Adds points.old.items points.new.items (crossing_up height from.now to.now)) }
{
    if goes_up_through(height, from.z, to.z) {
        points.push(crossing_of(height, from, to))?;
    }
    Ok(())
}

// Adds the crossings of a height by the edges of a facet.
fn add_crossings(points: &mut CornerPoints, height: i64, f: &Facet) -> Result<(), AllocError>
    requires { IsNearFacet f.now }
    ensures { OnOk result (Adds points.old.items points.new.items (crossings height f.now)) }
{
    add_crossing(points, height, &f.a, &f.b)?;
    add_crossing(points, height, &f.b, &f.a)?;
    add_crossing(points, height, &f.b, &f.c)?;
    add_crossing(points, height, &f.c, &f.b)?;
    add_crossing(points, height, &f.c, &f.a)?;
    add_crossing(points, height, &f.a, &f.c)
}

fn add_lower_crossings(points: &mut CornerPoints, f: &Facet, slab: &Slab) -> Result<(), AllocError>
    requires { IsNearFacet f.now }
    ensures { OnOk result (Adds points.old.items points.new.items (crossings slab.now.low f.now)) }
{
    add_crossings(points, slab.low, f)
}

fn add_upper_crossings(points: &mut CornerPoints, f: &Facet, slab: &Slab) -> Result<(), AllocError>
    requires { IsNearFacet f.now }
    ensures { OnOk result (Adds points.old.items points.new.items (crossings slab.now.high f.now)) }
{
    add_crossings(points, slab.high, f)
}

/// The corner points of a facet in a band.
pub fn corner_points(alloc: Global, f: &Facet, slab: &Slab) -> Result<CornerPoints, AllocError>
    requires { IsNearFacet f.now }
    ensures { IfOk result (λ points. points_of points.items
        ≡ facet_corners slab.now.low slab.now.high f.now) }
{
    let mut points = SmallVec::new(alloc);
    add_vertex(&mut points, &f.a, slab)?;
    add_vertex(&mut points, &f.b, slab)?;
    add_vertex(&mut points, &f.c, slab)?;
    add_lower_crossings(&mut points, f, slab)?;
    add_upper_crossings(&mut points, f, slab)?;
    Ok(points)
}

fn lies_below(f: &Facet, height: i64) -> bool
    ensures { IsTrue result → (f.now.a.z <ℤ height) × (f.now.b.z <ℤ height) × (f.now.c.z <ℤ height) }
{
    f.a.z < height && f.b.z < height && f.c.z < height
}

fn lies_above(f: &Facet, height: i64) -> bool
    ensures { IsTrue result → (height <ℤ f.now.a.z) × (height <ℤ f.now.b.z) × (height <ℤ f.now.c.z) }
{
    f.a.z > height && f.b.z > height && f.c.z > height
}

/// Whether a facet lies wholly below a band, or wholly above it.
pub fn misses(f: &Facet, slab: &Slab) -> bool
    ensures { IsTrue result → facet_corners slab.now.low slab.now.high f.now ≡ [] }
{
    lies_below(f, slab.low) || lies_above(f, slab.high)
}
