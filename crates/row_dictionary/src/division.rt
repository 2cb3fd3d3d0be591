ghost use Rattle.std.specs.Prelude.{◌≡◌, ◌<◌, ◌^◌, ℤ, pos, ◌<ℤ◌, unsigned_abs, IsTrue, int_div, int_rem};
ghost use Rattle.std.specs.Int.{◌∣◌};

/// Whether both numbers are below 2^63 in size, so that the quicker division of such numbers serves.
fn are_short(x: &i128, y: &i128) -> bool
    ensures { IsTrue result → (unsigned_abs x.now < 2 ^ 63) × (unsigned_abs y.now < 2 ^ 63) }
{
    x.unsigned_abs() < 1 << 63 && y.unsigned_abs() < 1 << 63
}

pub fn short(x: &i128) -> i64
    requires { unsigned_abs x.now < 2 ^ 63 }
    ensures value { result ≡ x.now }
    ensures size { unsigned_abs result < 2 ^ 63 }
{
    *x as i64
}

/// Whether a number is below 2^31 in size: the division of 32 bits is several times as quick as that of 64.
pub fn is_brief(x: &i64) -> bool
    ensures { IsTrue result → unsigned_abs x.now < 2 ^ 31 }
{
    x.unsigned_abs() < 1 << 31
}

pub fn brief(x: &i64) -> i32
    requires { unsigned_abs x.now < 2 ^ 31 }
    ensures value { result ≡ x.now }
    ensures size { unsigned_abs result < 2 ^ 31 }
{
    *x as i32
}

fn brief_quotient(x: &i32, g: &i32) -> i32
    requires x { unsigned_abs x.now < 2 ^ 31 }
    requires g { 0 < unsigned_abs g.now }
    ensures value { result ≡ int_div x.now g.now }
{
    *x / *g
}

/// The quotient by a number of 32 bits, towards 0.
pub fn quotient_by_brief(x: &i64, g: &i32) -> i64
    requires x { unsigned_abs x.now < 2 ^ 63 }
    requires g { 0 < unsigned_abs g.now }
    ensures { result ≡ int_div x.now g.now }
{
    if is_brief(x) {
        return i64::from(brief_quotient(&brief(x), g));
    }
    *x / i64::from(*g)
}

/// The quotient, towards 0.
pub fn short_quotient(x: &i64, g: &i64) -> i64
    requires x { unsigned_abs x.now < 2 ^ 63 }
    requires g { 0 < unsigned_abs g.now }
    ensures value { result ≡ int_div x.now g.now }
{
    if is_brief(g) {
        return quotient_by_brief(x, &brief(g));
    }
    *x / *g
}

fn divided_short(x: &i128, g: &i128) -> i128
    requires x { unsigned_abs x.now < 2 ^ 63 }
    requires g { 0 < unsigned_abs g.now }
    requires short { unsigned_abs g.now < 2 ^ 63 }
    ensures value { result ≡ int_div x.now g.now }
{
    i128::from(short_quotient(&short(x), &short(g)))
}

/// The quotient, towards 0.
pub fn divided(x: &i128, g: &i128) -> i128
    requires x { unsigned_abs x.now < 2 ^ 125 }
    requires g { 0 < unsigned_abs g.now }
    ensures value { result ≡ int_div x.now g.now }
    ensures size { unsigned_abs result < 2 ^ 125 }
{
    if are_short(x, g) {
        return divided_short(x, g);
    }
    *x / *g
}

fn brief_divides(found: &i32, x: &i32) -> bool
    ensures { IsTrue result → (pos 0 <ℤ found.now) × (int_rem x.now found.now ≡ pos 0) }
{
    *found > 0 && *x % *found == 0
}

fn divides_brief(found: &i64, x: &i64) -> bool
    requires found { unsigned_abs found.now < 2 ^ 31 }
    requires x { unsigned_abs x.now < 2 ^ 31 }
    ensures { IsTrue result → (pos 0 <ℤ found.now) × (int_rem x.now found.now ≡ pos 0) }
{
    brief_divides(&brief(found), &brief(x))
}

/// Whether a positive number divides another.
pub fn short_divides(found: &i64, x: &i64) -> bool
    ensures { IsTrue result → (pos 0 <ℤ found.now) × (int_rem x.now found.now ≡ pos 0) }
{
    if is_brief(found) && is_brief(x) {
        return divides_brief(found, x);
    }
    *found > 0 && (*x == 0 || *x % *found == 0)
}

fn divides_short(found: &i128, x: &i128) -> bool
    requires found { unsigned_abs found.now < 2 ^ 63 }
    requires x { unsigned_abs x.now < 2 ^ 63 }
    ensures { IsTrue result → (pos 0 <ℤ found.now) × (int_rem x.now found.now ≡ pos 0) }
{
    short_divides(&short(found), &short(x))
}

/// Whether a positive number divides another.
pub fn divides(found: &i128, x: &i128) -> bool
    ensures { IsTrue result → (pos 0 <ℤ found.now) × (int_rem x.now found.now ≡ pos 0) }
{
    if are_short(found, x) {
        return divides_short(found, x);
    }
    *found > 0 && *x % *found == 0
}

/// Whether a number divides another.
pub fn is_factor(found: &i128, x: &i64) -> bool
    ensures { IsTrue result → unsigned_abs found.now ∣ unsigned_abs x.now }
{
    *x == 0 || i128::from(*x) == *found || divides(found, &i128::from(*x))
}
