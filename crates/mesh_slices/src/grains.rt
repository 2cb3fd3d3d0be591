ghost use Rattle.std.specs.Prelude.{◌≡◌, ◌≤◌, pos, neg_ℤ, ◌≤ℤ◌, unsigned_abs};
ghost use Rattle.integer_laws.specs.Quotients.{floor, ceil};
ghost use Rattle.seq_model.specs.Outlines.{below, above};

use seq_limits::GREATEST_MARGIN;

// x / d, rounded down.
fn floor_of(x: i64, d: i64) -> i64
    requires size { unsigned_abs x ≤ 400_000_000_000_000 }
    requires d { pos 1 ≤ℤ d }
    ensures value { result ≡ floor x d }
    ensures size { unsigned_abs result ≤ 400_000_000_000_000 }
{
    x.div_euclid(d)
}

fn negated(x: i64) -> i64
    requires size { unsigned_abs x ≤ 400_000_000_000_000 }
    ensures value { result ≡ neg_ℤ x }
    ensures size { unsigned_abs result ≡ unsigned_abs x }
{
    -x
}

/// x / d, rounded up.
pub fn ceil_of(x: i64, d: i64) -> i64
    requires size { unsigned_abs x ≤ 400_000_000_000_000 }
    requires d { pos 1 ≤ℤ d }
    ensures value { result ≡ ceil x d }
    ensures size { unsigned_abs result ≤ 400_000_000_000_000 }
{
    negated(floor_of(negated(x), d))
}

/// The least spot coordinate round x / d, in grains: it lies the margin below the coordinate, rounded down.
pub fn spot_below(x: i64, d: i64, margin: i64) -> i64
    requires size { unsigned_abs x ≤ 400_000_000_000_000 }
    requires d { pos 1 ≤ℤ d }
    requires margin { unsigned_abs margin ≤ unsigned_abs GREATEST_MARGIN }
    ensures { result ≡ below margin x d }
{
    floor_of(x, d) - margin
}

/// The greatest spot coordinate round x / d.
pub fn spot_above(x: i64, d: i64, margin: i64) -> i64
    requires size { unsigned_abs x ≤ 400_000_000_000_000 }
    requires d { pos 1 ≤ℤ d }
    requires margin { unsigned_abs margin ≤ unsigned_abs GREATEST_MARGIN }
    ensures { result ≡ above margin x d }
{
    ceil_of(x, d) + margin
}
