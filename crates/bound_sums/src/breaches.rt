ghost use Rattle.std.specs.Prelude.{◌≡◌, ◌≤◌, ◌<◌, ◌+◌, ◌*◌, ◌^◌, ℤ, pos, ◌+ℤ◌, ◌*ℤ◌, ◌≤ℤ◌, ◌<ℤ◌, length, unsigned_abs, All, true, false};
ghost use Rattle.bound_sums.specs.Bounding.{IsLineOf, IsCounted, IsFirstBreach};
ghost use Rattle.bound_sums.specs.Sparse.{constant_of, rows_of, IsShortSide, IsShortRoom};

use crate::rows::{Line, add_line};
use difference_polygon::SideRow;
use seq_model::Mult;

/// A rule that a bound may break: a multiplier names no row, some coefficients add up to more than 0, or the constants don't add up to
/// less than 0.
#[derive(Clone, Copy, Debug, PartialEq, Eq)]
pub enum Breach {
    Row,
    Sum,
    Constant,
}

// The row that a multiplier names.
fn line_of(rooms: &[i64], sides: &[SideRow], mult: &Mult) -> Option<Line>
    requires rooms { All IsShortRoom rooms.now }
    requires sides { All (IsShortSide (length rooms.now)) sides.now }
    ensures { IsLineOf (rows_of rooms.now sides.now) (length rooms.now) mult.now.row result }
{
    let row = mult.row as usize;
    if row < rooms.len() {
        return Some(Line::Bound {
            variable: row,
            constant: rooms[row],
        });
    }
    let at = row - rooms.len();
    if at < sides.len() {
        return Some(Line::Beyond(sides[at]));
    }
    None
}

fn constant_along(line: &Line, mult: &Mult) -> i128
    requires line { unsigned_abs (constant_of line.now) < 2 ^ 47 }
    requires times { unsigned_abs mult.now.times < 2 ^ 62 }
    ensures value { result ≡ mult.now.times *ℤ constant_of line.now }
    ensures size { unsigned_abs result < 2 ^ 109 }
{
    match line {
        Line::Bound { constant, .. } => i128::from(mult.times) * i128::from(*constant),
        Line::Beyond(side) => i128::from(mult.times) * i128::from(side.c),
    }
}

fn add_constant(constant: &mut i128, line: &Line, mult: &Mult)
    requires room { unsigned_abs constant.old < 2 ^ 120 }
    requires line { unsigned_abs (constant_of line.now) < 2 ^ 47 }
    requires times { unsigned_abs mult.now.times < 2 ^ 62 }
    ensures value { constant.new ≡ constant.old +ℤ mult.now.times *ℤ constant_of line.now }
    ensures size { unsigned_abs constant.new ≤ unsigned_abs constant.old + 2 ^ 109 }
{
    *constant += constant_along(line, mult);
}

fn is_low(sum: &i128) -> bool
    ensures low { result ≡ true → sum.now ≤ℤ pos 0 }
    ensures high { result ≡ false → pos 0 <ℤ sum.now }
{
    *sum <= 0
}

fn is_below(sum: &i128) -> bool
    ensures below { result ≡ true → sum.now <ℤ pos 0 }
    ensures high { result ≡ false → pos 0 ≤ℤ sum.now }
{
    *sum < 0
}

// Whether no sum is above 0.
fn all_low(sums: &[i128]) -> bool
    ensures low { result ≡ true → All (λ a. a ≤ℤ pos 0) sums.now }
    ensures high { result ≡ false → All (λ a. a ≤ℤ pos 0) sums.now → ⊥ }
{
    for sum in sums {
        if !is_low(sum) {
            return false;
        }
    }
    true
}

/// The first rule that a bound breaks, over the rows of these rooms and sides; None exactly where the rows contradict each other.
/// `sums` has a place for each variable, and what stood there is gone.
pub fn first_breach(
    rooms: &[i64],
    sides: &[SideRow],
    mults: &[Mult],
    sums: &mut [i128],
) -> Option<Breach>
    requires rooms { All IsShortRoom rooms.now }
    requires sides { All (IsShortSide (length rooms.now)) sides.now }
    requires few { length mults.now ≤ 33 }
    requires counted { All IsCounted mults.now }
    requires width { length sums.old ≡ length rooms.now }
    ensures breach { IsFirstBreach (rows_of rooms.now sides.now) mults.now result }
    ensures width { length sums.new ≡ length rooms.now }
{
    sums.fill(0);
    let mut constant = 0;
    for mult in mults {
        let Some(line) = line_of(rooms, sides, mult) else {
            return Some(Breach::Row);
        };
        add_line(sums, &line, mult);
        add_constant(&mut constant, &line, mult);
    }
    if !all_low(sums) {
        return Some(Breach::Sum);
    }
    if !is_below(&constant) {
        return Some(Breach::Constant);
    }
    None
}
