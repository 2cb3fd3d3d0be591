ghost use Rattle.std.specs.Prelude.{◌≡◌, ◌<◌, ◌≤◌, ◌^◌, ◌-ℤ◌, ◌*ℤ◌, unsigned_abs, length, All};
ghost use Rattle.seq_model.specs.Bounds.{IsNearFacet};
ghost use Rattle.mesh_checks.specs.Volumes.{cross, dot, six_volume};

use integer_laws::{difference, product, sum, wide_product};
use seq_limits::MOST_FACETS;
use seq_model::Facet;

// One coordinate of a cross product: coordinates of at most 10 m in µm are below 2^24.
fn minor(a: i64, b: i64, c: i64, d: i64) -> i128
    requires a { unsigned_abs a < 2 ^ 24 }
    requires b { unsigned_abs b < 2 ^ 24 }
    requires c { unsigned_abs c < 2 ^ 24 }
    requires d { unsigned_abs d < 2 ^ 24 }
    ensures value { result ≡ a *ℤ d -ℤ b *ℤ c }
    ensures size { unsigned_abs result < 2 ^ 49 }
{
    difference(wide_product(a, d), wide_product(b, c))
}

// A coordinate times a minor: one term of the inner product a · (b × c).
fn scaled(a: i64, b: i128) -> i128
    requires a { unsigned_abs a < 2 ^ 24 }
    requires b { unsigned_abs b < 2 ^ 49 }
    ensures value { result ≡ a *ℤ b }
    ensures size { unsigned_abs result < 2 ^ 73 }
{
    product(i128::from(a), b)
}

// Six times the signed volume of the tetrahedron with the origin: negative where the facet looks toward it.
fn tetrahedron_six_volume(facet: &Facet) -> i128
    requires { IsNearFacet facet.now }
    ensures value { result ≡ dot facet.now.a (cross facet.now.b facet.now.c) }
    ensures size { unsigned_abs result < 2 ^ 75 }
{
    let Facet { a, b, c } = *facet;
    let along_x = scaled(a.x, minor(b.y, b.z, c.y, c.z));
    let along_y = scaled(a.y, minor(b.z, b.x, c.z, c.x));
    let along_z = scaled(a.z, minor(b.x, b.y, c.x, c.y));
    sum(sum(along_x, along_y), along_z)
}

pub fn sum_six_volumes(facets: &[Facet]) -> i128
    requires few { length facets.now ≤ MOST_FACETS }
    requires near { All IsNearFacet facets.now }
    ensures { result ≡ six_volume facets.now }
{
    let mut total = 0;
    for facet in facets {
        total = sum(total, tetrahedron_six_volume(facet));
    }
    total
}
