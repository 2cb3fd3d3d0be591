ghost use Rattle.std.specs.Prelude.{◌≡◌, ◌≤◌, ◌<◌, ◌+◌, ◌*◌, ◌^◌, ℕ, ℤ, pos, neg_ℤ, ◌+ℤ◌, ◌*ℤ◌, length, unsigned_abs, slice_index_or, slice_set};
ghost use Rattle.std.specs.Prelude.{All};
ghost use Rattle.bound_sums.specs.Sparse.{AreAdded, full_row, side_entries, IsSparse, IsShortSide, IsAtMost};

use difference_polygon::SideRow;
use seq_model::Mult;

/// A row of a system, by what isn't 0 in it: the room that is left for a variable, or a push.
#[derive(Clone, Copy, Debug)]
pub enum Line {
    Bound { variable: usize, constant: i64 },
    Beyond(SideRow),
}

// Adds to one of the sums.
fn add_at(sums: &mut [i128], at: usize, more: i128)
    requires within { at < length sums.old }
    requires room { All (IsAtMost (2 ^ 100)) sums.old }
    requires more { unsigned_abs more < 2 ^ 84 }
    ensures value { sums.new ≡ slice_set sums.old at (slice_index_or sums.old at (pos 0) +ℤ more) }
    ensures size { (b : ℕ) → All (IsAtMost b) sums.old → All (IsAtMost (b + 2 ^ 84)) sums.new }
{
    sums[at] += more;
}

fn less_of(mult: &Mult) -> i128
    requires times { unsigned_abs mult.now.times < 2 ^ 62 }
    ensures value { result ≡ mult.now.times *ℤ neg_ℤ (pos 1) }
    ensures size { unsigned_abs result < 2 ^ 84 }
{
    -i128::from(mult.times)
}

fn along_x(push: &SideRow, mult: &Mult) -> i128
    requires times { unsigned_abs mult.now.times < 2 ^ 62 }
    requires x { unsigned_abs push.now.x < 2 ^ 22 }
    ensures value { result ≡ mult.now.times *ℤ push.now.x }
    ensures size { unsigned_abs result < 2 ^ 84 }
{
    i128::from(mult.times) * i128::from(push.x)
}

fn along_y(push: &SideRow, mult: &Mult) -> i128
    requires times { unsigned_abs mult.now.times < 2 ^ 62 }
    requires y { unsigned_abs push.now.y < 2 ^ 22 }
    ensures value { result ≡ mult.now.times *ℤ push.now.y }
    ensures size { unsigned_abs result < 2 ^ 84 }
{
    i128::from(mult.times) * i128::from(push.y)
}

fn back_x(push: &SideRow, mult: &Mult) -> i128
    requires times { unsigned_abs mult.now.times < 2 ^ 62 }
    requires x { unsigned_abs push.now.x < 2 ^ 22 }
    ensures value { result ≡ mult.now.times *ℤ neg_ℤ push.now.x }
    ensures size { unsigned_abs result < 2 ^ 84 }
{
    -along_x(push, mult)
}

fn back_y(push: &SideRow, mult: &Mult) -> i128
    requires times { unsigned_abs mult.now.times < 2 ^ 62 }
    requires y { unsigned_abs push.now.y < 2 ^ 22 }
    ensures value { result ≡ mult.now.times *ℤ neg_ℤ push.now.y }
    ensures size { unsigned_abs result < 2 ^ 84 }
{
    -along_y(push, mult)
}

fn add_push(sums: &mut [i128], push: &SideRow, mult: &Mult)
    requires line { IsShortSide (length sums.old) push.now }
    requires times { unsigned_abs mult.now.times < 2 ^ 62 }
    requires room { All (IsAtMost (2 ^ 99)) sums.old }
    ensures added { AreAdded mult.now.times sums.old
        (side_entries (length sums.old) push.now.i push.now.j push.now.x push.now.y) sums.new }
    ensures len { length sums.new ≡ length sums.old }
    ensures size { (b : ℕ) → All (IsAtMost b) sums.old → All (IsAtMost (b + 2 ^ 86)) sums.new }
{
    add_at(sums, 2 * push.i as usize, back_x(push, mult));
    add_at(sums, 2 * push.i as usize + 1, back_y(push, mult));
    add_at(sums, 2 * push.j as usize, along_x(push, mult));
    add_at(sums, 2 * push.j as usize + 1, along_y(push, mult));
}

/// Adds a row, so many times, to the sums of the coefficients.
pub fn add_line(sums: &mut [i128], line: &Line, mult: &Mult)
    requires line { IsSparse (length sums.old) line.now }
    requires times { unsigned_abs mult.now.times < 2 ^ 62 }
    requires room { All (IsAtMost (2 ^ 99)) sums.old }
    ensures added { AreAdded mult.now.times sums.old (full_row (length sums.old) line.now).a sums.new }
    ensures len { length sums.new ≡ length sums.old }
    ensures size { (b : ℕ) → All (IsAtMost b) sums.old → All (IsAtMost (b + 2 ^ 86)) sums.new }
{
    match line {
        Line::Bound { variable, .. } => add_at(sums, *variable, less_of(mult)),
        Line::Beyond(push) => add_push(sums, push, mult),
    }
}
