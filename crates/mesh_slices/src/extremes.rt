ghost use Rattle.std.specs.Prelude.{◌≡◌, ◌<◌, length, All};
ghost use Rattle.std.specs.Int.{int_min, int_max};
ghost use Rattle.seq_model.specs.Bands.{heights};
ghost use Rattle.seq_model.specs.Bounds.{IsNear, IsNearFacet};
ghost use Rattle.integer_laws.specs.Extremes.{least, greatest};
ghost use Rattle.mesh_slices.specs.Vertices.{xs, ys};

use seq_model::{Facet, Point3};

/// The least and the greatest coordinates of a mesh's vertices, in µm.
#[derive(Clone, Copy)]
pub struct Extremes {
    pub low: Point3,
    pub high: Point3,
}

// The least of four numbers, and the greatest.
fn least_of(a: i64, b: i64, c: i64, d: i64) -> i64
    ensures { result ≡ int_min (int_min (int_min a b) c) d }
{
    a.min(b).min(c).min(d)
}

fn greatest_of(a: i64, b: i64, c: i64, d: i64) -> i64
    ensures { result ≡ int_max (int_max (int_max a b) c) d }
{
    a.max(b).max(c).max(d)
}

// The corner at the least x, y and z of a point and a facet.
fn lowered(low: &Point3, f: &Facet) -> Point3
    ensures x { result.x ≡ int_min (int_min (int_min low.now.x f.now.a.x) f.now.b.x) f.now.c.x }
    ensures y { result.y ≡ int_min (int_min (int_min low.now.y f.now.a.y) f.now.b.y) f.now.c.y }
    ensures z { result.z ≡ int_min (int_min (int_min low.now.z f.now.a.z) f.now.b.z) f.now.c.z }
{
    let x = least_x(low, f);
    let y = least_y(low, f);
    let z = least_z(low, f);
    Point3 { x, y, z }
}

fn least_x(low: &Point3, f: &Facet) -> i64
    ensures { result ≡ int_min (int_min (int_min low.now.x f.now.a.x) f.now.b.x) f.now.c.x }
{
    least_of(low.x, f.a.x, f.b.x, f.c.x)
}

fn least_y(low: &Point3, f: &Facet) -> i64
    ensures { result ≡ int_min (int_min (int_min low.now.y f.now.a.y) f.now.b.y) f.now.c.y }
{
    least_of(low.y, f.a.y, f.b.y, f.c.y)
}

fn least_z(low: &Point3, f: &Facet) -> i64
    ensures { result ≡ int_min (int_min (int_min low.now.z f.now.a.z) f.now.b.z) f.now.c.z }
{
    least_of(low.z, f.a.z, f.b.z, f.c.z)
}

// The corner at the greatest x, y and z of a point and a facet.
fn raised(high: &Point3, f: &Facet) -> Point3
    ensures x { result.x ≡ int_max (int_max (int_max high.now.x f.now.a.x) f.now.b.x) f.now.c.x }
    ensures y { result.y ≡ int_max (int_max (int_max high.now.y f.now.a.y) f.now.b.y) f.now.c.y }
    ensures z { result.z ≡ int_max (int_max (int_max high.now.z f.now.a.z) f.now.b.z) f.now.c.z }
{
    let x = greatest_x(high, f);
    let y = greatest_y(high, f);
    let z = greatest_z(high, f);
    Point3 { x, y, z }
}

fn greatest_x(high: &Point3, f: &Facet) -> i64
    ensures { result ≡ int_max (int_max (int_max high.now.x f.now.a.x) f.now.b.x) f.now.c.x }
{
    greatest_of(high.x, f.a.x, f.b.x, f.c.x)
}

fn greatest_y(high: &Point3, f: &Facet) -> i64
    ensures { result ≡ int_max (int_max (int_max high.now.y f.now.a.y) f.now.b.y) f.now.c.y }
{
    greatest_of(high.y, f.a.y, f.b.y, f.c.y)
}

fn greatest_z(high: &Point3, f: &Facet) -> i64
    ensures { result ≡ int_max (int_max (int_max high.now.z f.now.a.z) f.now.b.z) f.now.c.z }
{
    greatest_of(high.z, f.a.z, f.b.z, f.c.z)
}

/// The extremes of the vertices of some facets.
pub fn extremes_of(facets: &[Facet]) -> Extremes
    requires near { All IsNearFacet facets.now }
    requires some { 0 < length facets.now }
    ensures low_x { result.low.x ≡ least (xs facets.now) }
    ensures low_y { result.low.y ≡ least (ys facets.now) }
    ensures low_z { result.low.z ≡ least (heights facets.now) }
    ensures high_x { result.high.x ≡ greatest (xs facets.now) }
    ensures high_y { result.high.y ≡ greatest (ys facets.now) }
    ensures high_z { result.high.z ≡ greatest (heights facets.now) }
    ensures low_near { IsNear result.low }
    ensures high_near { IsNear result.high }
{
    let first = facets[0].a;
    let mut found = Extremes {
        low: first,
        high: first,
    };
    for f in facets {
        let low = lowered(&found.low, f);
        let high = raised(&found.high, f);
        found = Extremes { low, high };
    }
    found
}
