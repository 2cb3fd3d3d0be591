// The greatest values of directions over a difference.
ghost use Rattle.std.specs.Prelude.{◌≡◌, ◌<◌, ◌^◌, List, ◌+ℤ◌, unsigned_abs};
ghost use Rattle.seq_model.specs.declared.printer.Spot.{Spot};
ghost use Rattle.seq_model.specs.declared.tree.Dir.{Dir};
ghost use Rattle.seq_model.specs.Contacts.{difference};
ghost use Rattle.seq_model.specs.Sides.{greatest_along};
ghost use Rattle.outline_laws.specs.Directions.{IsShort};
ghost use Rattle.outline_laws.specs.Outlines.{AreOutlines};

use outline_edges::{greatest_value, opposite};
use seq_model::{Dir, Spot};

fn sum_of_three(a: i64, b: i64, c: i64) -> i64
    requires a { unsigned_abs a < 2 ^ 44 }
    requires b { unsigned_abs b < 2 ^ 44 }
    requires c { unsigned_abs c < 2 ^ 44 }
    ensures value { result ≡ (a +ℤ b) +ℤ c }
    ensures size { unsigned_abs result < 2 ^ 46 }
{
    a + b + c
}

// The sum of the greatest values of the three, the last two along the opposite direction.
pub fn support_along(dir: &Dir, a: &[Spot], b: &[Spot], f: &[Spot]) -> i64
    requires dir { IsShort dir.now }
    requires outlines { AreOutlines a.now b.now f.now }
    ensures value { result ≡ greatest_along dir.now (difference a.now b.now f.now) }
    ensures size { unsigned_abs result < 2 ^ 46 }
{
    let back = opposite(dir);
    let of_a = greatest_value(dir, a);
    let of_b = greatest_value(&back, b);
    let of_f = greatest_value(&back, f);
    sum_of_three(of_a, of_b, of_f)
}

/// The greatest value of a direction over all `a - b - f`. Takes no memory.
pub fn support(dir: Dir, a: &[Spot], b: &[Spot], f: &[Spot]) -> i64
    requires dir { IsShort dir }
    requires outlines { AreOutlines a.now b.now f.now }
    ensures value { result ≡ greatest_along dir (difference a.now b.now f.now) }
    ensures size { unsigned_abs result < 2 ^ 46 }
{
    support_along(&dir, a, b, f)
}
