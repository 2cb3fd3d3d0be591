ghost use Rattle.std.specs.Prelude.{◌≡◌, ◌^◌, ◌<◌, ◌≤◌, pos, ◌≤ℤ◌, unsigned_abs};
ghost use Rattle.integer_laws.specs.Quotients.{floor, ceil, IsFloor, IsCeil};

/// `a / d`, rounded down.
pub fn floor_div(a: i128, d: i128) -> i128
    requires size { unsigned_abs a < 2 ^ 125 }
    requires divisor { unsigned_abs d < 2 ^ 125 }
    requires positive { pos 1 ≤ℤ d }
    ensures value { result ≡ floor a d }
    ensures rounds { IsFloor a d result }
    ensures size { unsigned_abs result ≤ unsigned_abs a }
{
    a.div_euclid(d)
}

/// `a / d`, rounded up.
pub fn ceil_div(a: i128, d: i128) -> i128
    requires size { unsigned_abs a < 2 ^ 125 }
    requires divisor { unsigned_abs d < 2 ^ 125 }
    requires positive { pos 1 ≤ℤ d }
    ensures value { result ≡ ceil a d }
    ensures rounds { IsCeil a d result }
    ensures size { unsigned_abs result ≤ unsigned_abs a }
{
    -(-a).div_euclid(d)
}
