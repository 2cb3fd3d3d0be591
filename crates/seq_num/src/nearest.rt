ghost use Rattle.std.specs.Prelude.{◌≡◌, ◌<◌, ◌≤◌, ◌^◌, pos, ◌≤ℤ◌, unsigned_abs};
ghost use Rattle.seq_num.specs.Nearest.{IsNearest, half_up};

/// `a / d`, rounded to the nearest, ties away from zero.
pub fn near_div(a: i128, d: i128) -> i128
    requires size { unsigned_abs a < 2 ^ 125 }
    requires divisor { unsigned_abs d < 2 ^ 125 }
    requires positive { pos 1 ≤ℤ d }
    ensures nearest { IsNearest a d result }
    ensures size { unsigned_abs result ≤ unsigned_abs a }
{
    let size = half_up(a.unsigned_abs(), d.unsigned_abs()) as i128;
    if a < 0 { -size } else { size }
}

// The size of a / d, rounded to the nearest, ties upward.
fn half_up(a: u128, d: u128) -> u128
    requires size { a < 2 ^ 125 }
    requires divisor { d < 2 ^ 125 }
    requires positive { 0 < d }
    ensures value { result ≡ half_up a d }
    ensures size { result ≤ a }
{
    (2 * a + d) / (2 * d)
}
