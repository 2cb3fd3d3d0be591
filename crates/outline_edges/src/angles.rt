// Directions by their angle, counterclockwise from (1, 0).
ghost use Rattle.std.specs.Prelude.{◌≡◌, ◌<◌, ◌^◌, List, All, ◌-ℤ◌, ◌*ℤ◌, IfOk, IsPermutation, unsigned_abs, None};
ghost use Rattle.std.specs.List.Sorted.{IsSortedBy};
ghost use Rattle.integer_laws.specs.Divisors.{Reduces};
ghost use Rattle.seq_model.specs.declared.tree.Dir.{Dir};
ghost use Rattle.outline_laws.specs.Directions.{AllReduced, angle_cmp, better, crossed, IsDirection, IsShort, IsShortOption, is_after, is_ahead, is_zero, lesser, upper};
ghost use Rattle.outline_laws.specs.Edges.{back};
ghost use Rattle.outline_laws.specs.Laws.InOrder.{comes_first, is_fresh, short, walk};

use integer_laws::{difference, product};
use seq_model::Dir;
use seq_num::primitive;
use std::alloc::{AllocError, Global};
use std::cmp::Ordering;

/// The opposite direction.
pub fn opposite(dir: &Dir) -> Dir
    requires { IsShort dir.now }
    ensures value { result ≡ back dir.now }
    ensures short { IsShort result }
{
    Dir {
        x: -dir.x,
        y: -dir.y,
    }
}

// A product with a component of an edge.
fn times(a: i64, b: i64) -> i128
    requires { unsigned_abs b < 2 ^ 22 }
    ensures value { result ≡ a *ℤ b }
    ensures room { unsigned_abs result < 2 ^ 126 }
{
    product(i128::from(a), i128::from(b))
}

// More than 0 where `to` lies to the left of `from`.
fn cross(from: &Dir, to: &Dir) -> i128
    requires { IsShort to.now }
    ensures { result ≡ crossed from.now to.now }
{
    difference(times(from.x, to.y), times(from.y, to.x))
}

// Whether it points into the first half of a turn.
fn is_upper(dir: &Dir) -> bool
    ensures { result ≡ upper dir.now }
{
    dir.y > 0 || (dir.y == 0 && dir.x > 0)
}

// Whether the one has the smaller angle.
fn has_lesser_angle(dir: &Dir, than: &Dir) -> bool
    requires { IsShort than.now }
    ensures { result ≡ lesser dir.now than.now }
{
    if is_upper(dir) {
        if is_upper(than) {
            return cross(dir, than) > 0;
        }
        return true;
    }
    if is_upper(than) {
        return false;
    }
    cross(dir, than) > 0
}

/// Whether it is (0, 0), which is no direction.
pub fn is_none(dir: &Dir) -> bool
    ensures { result ≡ is_zero dir.now }
{
    dir.x == 0 && dir.y == 0
}

// Whether it comes so by its angle, where there is one to compare with.
fn comes_after(after: &Option<Dir>, dir: &Dir) -> bool
    requires { IsShort dir.now }
    ensures { result ≡ is_after after.now dir.now }
{
    match after {
        None => true,
        Some(after) => has_lesser_angle(after, dir),
    }
}

// Whether it comes so by its angle, where there is one to compare with.
fn comes_before(dir: &Dir, best: &Option<Dir>) -> bool
    requires { IsShortOption best.now }
    ensures { result ≡ is_ahead dir.now best.now }
{
    match best {
        None => true,
        Some(best) => has_lesser_angle(dir, best),
    }
}

// The direction found, where it comes after the one and before the best so far.
pub fn better_of(after: &Option<Dir>, best: Option<Dir>, found: Dir) -> Option<Dir>
    requires best { IsShortOption best }
    requires found { IsShort found }
    ensures value { result ≡ better after.now best found }
    ensures short { IsShortOption result }
{
    if is_none(&found) {
        return best;
    }
    if !comes_after(after, &found) {
        return best;
    }
    if comes_before(&found, &best) {
        return Some(found);
    }
    best
}

/// The shortest whole direction of the same sense.
pub fn shortest(dir: &Dir) -> Dir
    requires short { IsShort dir.now }
    requires direction { IsDirection dir.now }
    ensures reduced { Reduces dir.now.x dir.now.y result.x result.y }
    ensures same { result ≡ short dir.now }
    ensures short { IsShort result }
{
    let (x, y) = primitive(dir.x, dir.y);
    Dir { x, y }
}

// A product of any two components: at most 2^126 in size.
fn full_product(a: i64, b: i64) -> i128
    ensures { result ≡ a *ℤ b }
{
    i128::from(a) * i128::from(b)
}

// By angle, and (0, 0) behind all.
fn compare_angles(d: &Dir, e: &Dir) -> Ordering
    ensures { result ≡ angle_cmp d.now e.now }
{
    if is_none(d) || is_none(e) {
        return is_none(d).cmp(&is_none(e));
    }
    match is_upper(e).cmp(&is_upper(d)) {
        Ordering::Equal => full_product(d.y, e.x).cmp(&full_product(d.x, e.y)),
        decided => decided,
    }
}

fn by_angle(mut dirs: Vec<Dir>) -> Vec<Dir>
    ensures permutation { IsPermutation dirs.items result.items }
    ensures sorted { IsSortedBy comes_first result.items }
{
    dirs.sort_unstable_by(|d: &Dir, e: &Dir| compare_angles(d, e));
    dirs
}

// A direction that comes after the last one.
fn is_new(last: &Option<Dir>, dir: &Dir) -> bool
    requires { IsShort dir.now }
    ensures { result ≡ is_fresh last.now dir.now }
{
    !is_none(dir) && comes_after(last, dir)
}

// Of directions by angle the first of each angle, reduced.
fn each_once(alloc: Global, dirs: &[Dir]) -> Result<Vec<Dir>, AllocError>
    requires { All IsShort dirs.now }
    ensures walk { IfOk result (λ short. short.items ≡ walk None dirs.now) }
    ensures short { IfOk result (λ short. All IsShort short.items) }
{
    let mut reduced = Vec::with_capacity(alloc, dirs.len())?;
    let mut last = None;
    for dir in dirs {
        if is_new(&last, dir) {
            let short = shortest(dir);
            reduced.push(short)?;
            last = Some(short);
        }
    }
    Ok(reduced)
}

/// The directions reduced, each once, by angle. (0, 0) is left out.
pub fn reduced_by_angle(alloc: Global, dirs: Vec<Dir>) -> Result<Vec<Dir>, AllocError>
    requires { All IsShort dirs.items }
    ensures reduced { IfOk result (λ reduced. AllReduced dirs.items reduced.items) }
    ensures short { IfOk result (λ reduced. All IsShort reduced.items) }
{
    let sorted = by_angle(dirs);
    each_once(alloc, sorted.as_slice())
}
