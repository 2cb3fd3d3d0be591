ghost use Rattle.std.specs.Prelude.{◌≡◌, ◌<◌, ◌≤◌, ◌+◌, ◌*◌, ◌^◌, ◌↔◌, pos, ◌<ℤ◌, max, int_div, unsigned_abs};
ghost use Rattle.std.specs.Int.{IsGcd};
ghost use Rattle.integer_laws.specs.Divisors.{IsGcdOf, Reduces};

/// The greatest common divisor, at least 0.
pub fn gcd(a: i128, b: i128) -> i128
    requires a { unsigned_abs a < 2 ^ 126 }
    requires b { unsigned_abs b < 2 ^ 126 }
    ensures is { IsGcdOf a b result }
    ensures zero { (result ≡ pos 0) ↔ (a ≡ pos 0) × (b ≡ pos 0) }
    ensures size { unsigned_abs result ≤ max (unsigned_abs a) (unsigned_abs b) }
{
    gcd_of_sizes(a.unsigned_abs(), b.unsigned_abs()) as i128
}

// Euclid's algorithm.
fn gcd_of_sizes(mut a: u128, mut b: u128) -> u128
    ensures is { IsGcd a b result }
    ensures size { result ≤ max a b }
{
    while b != 0 {
        (a, b) = (b, a % b);
    }
    a
}

/// The two numbers divided by their greatest common divisor: the shortest whole direction of the same sense.
pub fn primitive(x: i64, y: i64) -> (i64, i64)
    requires x { unsigned_abs x < 2 ^ 62 }
    requires y { unsigned_abs y < 2 ^ 62 }
    requires direction { 0 < unsigned_abs x + unsigned_abs y }
    ensures { Reduces x y result.0 result.1 }
{
    let divisor = gcd(i128::from(x), i128::from(y));
    (quotient(x, divisor), quotient(y, divisor))
}

fn quotient(x: i64, divisor: i128) -> i64
    requires size { unsigned_abs x < 2 ^ 62 }
    requires positive { pos 0 <ℤ divisor }
    ensures value { result ≡ int_div x divisor }
{
    (i128::from(x) / divisor) as i64
}
