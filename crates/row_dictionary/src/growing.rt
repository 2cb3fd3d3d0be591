ghost use Rattle.std.specs.Prelude.{◌≡◌, ◌↔◌, ℕ, suc, ◌+◌, ◌<◌, ◌≤◌, ◌^◌, ◌++◌, List, [], ◌∷◌, ℤ, pos, ◌+ℤ◌, ◌*ℤ◌, unsigned_abs, All, IsTrue, IfOk, length, slice_index_or, nat_eq, if◌then◌else◌, vec_len, vec_capacity};
ghost use Rattle.row_dictionary.specs.Halving.{whole, IsWithin};
ghost use Rattle.row_dictionary.specs.Pushing.{variable_line, pushed_line};
ghost use Rattle.row_dictionary.specs.Scans.{IsSmallRow};
ghost use Rattle.row_dictionary.specs.Tables.{AreLines};
ghost use Rattle.row_pivots.specs.Ends.{Small};

use crate::halves::{Halves, and_one, nothing, small_sum};
use crate::line::Line;
use crate::places::number_at;
use crate::variables::Variables;
use integer_laws::wide_product;
use seq_model::Row;
use std::alloc::AllocError;

/// The number at a place of a line that has one number alone.
fn only_at(place: usize, j: usize, x: &i64) -> i64
    requires { Small x.now }
    ensures is { result ≡ (if nat_eq j place then x.now else pos 0) }
    ensures size { Small result }
{
    if j == place { *x } else { 0 }
}

/// The number at a place of the line of a variable, over the free ones.
fn number_over(variables: &Variables, lines: &[Line], den: &i64, z: u32, j: usize) -> i64
    requires len { length variables.now.basic ≡ length lines.now }
    requires lines { AreLines (suc (length variables.now.free)) lines.now }
    requires den { Small den.now }
    requires j { j < suc (length variables.now.free) }
    ensures is { result ≡ slice_index_or (variable_line den.now variables.now lines.now z) j (pos 0) }
    ensures size { Small result }
{
    if variables.is_basic(z) {
        return number_at(lines, variables.basic_place(z), j);
    }
    only_at(variables.free_place(z) + 1, j, den)
}

fn term(x: &i64, y: &i64) -> i128
    requires x { Small x.now }
    requires y { Small y.now }
    ensures value { result ≡ x.now *ℤ y.now }
    ensures size { unsigned_abs result < 2 ^ 124 }
{
    wide_product(*x, *y)
}

/// The sum of `count` products, and one more.
fn and_term(sum: &Halves, count: usize, x: &i64, y: &i64) -> Halves
    requires count { count < 2 ^ 40 }
    requires within { IsWithin count sum.now }
    requires x { Small x.now }
    requires y { Small y.now }
    ensures value { whole result ≡ whole sum.now +ℤ x.now *ℤ y.now }
    ensures within { IsWithin (count + 1) result }
{
    and_one(sum, count, &term(x, y))
}

/// What the constant of a row adds at a place.
fn constant_term(c: &i64, den: &i64, j: usize) -> Halves
    requires c { Small c.now }
    requires den { Small den.now }
    ensures value { whole result ≡ c.now *ℤ (if nat_eq j 0 then den.now else pos 0) }
    ensures within { IsWithin 1 result }
{
    and_term(&nothing(), 0, c, &only_at(0, j, den))
}

/// The sum, and what a variable adds at a place.
fn and_variable(
    sum: &Halves,
    variables: &Variables,
    lines: &[Line],
    den: &i64,
    k: usize,
    x: &i64,
    j: usize,
) -> Halves
    requires len { length variables.now.basic ≡ length lines.now }
    requires lines { AreLines (suc (length variables.now.free)) lines.now }
    requires den { Small den.now }
    requires j { j < suc (length variables.now.free) }
    requires k { k < 2 ^ 32 }
    requires within { IsWithin (k + 1) sum.now }
    requires x { Small x.now }
    ensures value { whole result ≡ whole sum.now
        +ℤ x.now *ℤ slice_index_or (variable_line den.now variables.now lines.now k) j (pos 0) }
    ensures within { IsWithin (k + 1 + 1) result }
{
    if *x == 0 {
        return *sum;
    }
    and_term(
        sum,
        k + 1,
        x,
        &number_over(variables, lines, den, k as u32, j),
    )
}

/// The sum of the products that make the number at a place of the row's line.
fn row_sum(variables: &Variables, lines: &[Line], den: &i64, row: &Row, j: usize) -> Halves
    requires len { length variables.now.basic ≡ length lines.now }
    requires lines { AreLines (suc (length variables.now.free)) lines.now }
    requires den { Small den.now }
    requires j { j < suc (length variables.now.free) }
    requires small { IsSmallRow row.now }
    requires count { length row.now.a < 2 ^ 32 }
    ensures value { whole result
        ≡ slice_index_or (pushed_line den.now variables.now lines.now row.now) j (pos 0) }
    ensures within { IsWithin (length row.now.a + 1) result }
{
    let a = row.a.as_slice();
    let mut sum = constant_term(&row.c, den, j);
    for k in 0..a.len() {
        sum = and_variable(&sum, variables, lines, den, k, &a[k], j);
    }
    sum
}

/// Appends the numbers of the row's line, as far as they are below 2^62 in size; and whether all of them are.
pub fn push_numbers(
    numbers: &mut Vec<i64>,
    variables: &Variables,
    lines: &[Line],
    den: &i64,
    row: &Row,
) -> Result<bool, AllocError>
    requires len { length variables.now.basic ≡ length lines.now }
    requires lines { AreLines (suc (length variables.now.free)) lines.now }
    requires den { Small den.now }
    requires small { IsSmallRow row.now }
    requires count { length row.now.a < 2 ^ 32 }
    requires empty { numbers.old.items ≡ [] }
    ensures held { IfOk result (λ held. IsTrue held
        → numbers.new.items ≡ pushed_line den.now variables.now lines.now row.now) }
    ensures small { IfOk result (λ held. IsTrue held
        → All Small (pushed_line den.now variables.now lines.now row.now)) }
    ensures wide { IfOk result (λ held. (IsTrue held → ⊥)
        → All Small (pushed_line den.now variables.now lines.now row.now) → ⊥) }
{
    let count = row.a.len() + 1;
    for j in 0..variables.free().len() + 1 {
        match small_sum(&row_sum(variables, lines, den, row, j), count) {
            None => return Ok(false),
            Some(x) => numbers.push(x)?,
        }
    }
    Ok(true)
}

/// Appends a line where there is room for it.
pub fn add_line(lines: &mut Vec<Line>, line: Line)
    requires { vec_len lines.old < vec_capacity lines.old }
    ensures { lines.new.items ≡ lines.old.items ++ line ∷ [] }
{
    match lines.push(line) {
        Ok(()) => {}
        Err(_) => unreachable!(),
    }
}
