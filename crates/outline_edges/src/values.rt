// How far points lie along a direction.
ghost use Rattle.std.specs.Prelude.{◌≡◌, ◌≤◌, ◌<◌, ◌^◌, ◌*◌, List, All, ◌+ℤ◌, ◌*ℤ◌, length, unsigned_abs};
ghost use Rattle.seq_model.specs.declared.point.RatPoint.{RatPoint};
ghost use Rattle.seq_model.specs.declared.printer.Spot.{Spot};
ghost use Rattle.seq_model.specs.declared.tree.Dir.{Dir};
ghost use Rattle.seq_model.specs.Sides.{along, greatest_along};
ghost use Rattle.outline_laws.specs.Beyond.{FitsProducts};
ghost use Rattle.outline_laws.specs.Corners.{IsNarrow};
ghost use Rattle.outline_laws.specs.Directions.{IsShort};
ghost use Rattle.outline_laws.specs.Laws.Left.{value};

use integer_laws::{product, sum};
use seq_model::{Dir, RatPoint, Spot};

fn narrow_product(a: i64, b: i64) -> i64
    requires { unsigned_abs a * unsigned_abs b < 2 ^ 62 }
    ensures value { result ≡ a *ℤ b }
    ensures size { unsigned_abs result ≡ unsigned_abs a * unsigned_abs b }
{
    a * b
}

fn short_product(a: i64, b: i64) -> i64
    requires a { unsigned_abs a < 2 ^ 22 }
    requires b { unsigned_abs b < 2 ^ 21 }
    ensures value { result ≡ a *ℤ b }
    ensures size { unsigned_abs result < 2 ^ 43 }
{
    narrow_product(a, b)
}

fn short_sum(a: i64, b: i64) -> i64
    requires a { unsigned_abs a < 2 ^ 43 }
    requires b { unsigned_abs b < 2 ^ 43 }
    ensures value { result ≡ a +ℤ b }
    ensures size { unsigned_abs result < 2 ^ 44 }
{
    a + b
}

/// The value of a point along a direction.
pub fn value_along(dir: &Dir, at: &Spot) -> i64
    requires dir { IsShort dir.now }
    requires at { IsNarrow at.now }
    ensures value { result ≡ along dir.now at.now }
    ensures size { unsigned_abs result < 2 ^ 44 }
{
    short_sum(short_product(dir.x, at.x), short_product(dir.y, at.y))
}

/// The greatest value of a direction over corners.
pub fn greatest_value(dir: &Dir, corners: &[Spot]) -> i64
    requires dir { IsShort dir.now }
    requires near { All IsNarrow corners.now }
    requires some { 1 ≤ length corners.now }
    ensures value { result ≡ greatest_along dir.now corners.now }
    ensures size { unsigned_abs result < 2 ^ 44 }
{
    let mut most = value_along(dir, &corners[0]);
    for corner in corners {
        most = most.max(value_along(dir, corner));
    }
    most
}

/// The value of a point along a direction, times its denominator.
pub fn value_at(dir: &Dir, at: &RatPoint) -> i128
    requires dir { IsShort dir.now }
    requires at { FitsProducts at.now }
    ensures { result ≡ value dir.now at.now }
{
    sum(
        product(i128::from(dir.x), at.x),
        product(i128::from(dir.y), at.y),
    )
}

/// A value along a direction, times the denominator of a point.
pub fn limit_at(greatest: i64, at: &RatPoint) -> i128
    requires greatest { unsigned_abs greatest < 2 ^ 46 }
    requires at { FitsProducts at.now }
    ensures { result ≡ greatest *ℤ at.now.d }
{
    product(i128::from(greatest), at.d)
}
