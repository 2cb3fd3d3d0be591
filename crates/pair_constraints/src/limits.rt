// Sides with the greatest values along them.
ghost use Rattle.std.specs.Prelude.{◌≡◌, ◌<◌, ◌^◌, List, All, map, ◌↔◌, IfOk, IsTrue, unsigned_abs};
ghost use Rattle.std.specs.List.{list_all};
ghost use Rattle.seq_model.specs.declared.point.RatPoint.{RatPoint};
ghost use Rattle.seq_model.specs.declared.printer.Spot.{Spot};
ghost use Rattle.seq_model.specs.declared.tree.Dir.{Dir};
ghost use Rattle.seq_model.specs.Contacts.{difference};
ghost use Rattle.seq_model.specs.Outlines.{Inner};
ghost use Rattle.outline_laws.specs.Beyond.{FitsProducts};
ghost use Rattle.outline_laws.specs.Corners.{HasArea};
ghost use Rattle.outline_laws.specs.Directions.{IsShort};
ghost use Rattle.outline_laws.specs.Outlines.{AreOutlines};
ghost use Rattle.pair_constraints.specs.Limits.{AreLimits, IsFit};
ghost use Rattle.search_laws.specs.Covering.{Covers};
ghost use Rattle.pair_constraints.specs.Laws.Covering.{is_short_of, is_under, limit_of};

use difference_polygon::{sides_of, support};
use outline_edges::{limit_at, value_at};
use seq_model::{Dir, RatPoint, Spot};
use seq_num::NoMemory;
use std::alloc::{AllocError, Global};

/// A side with the greatest value along it.
#[derive(Clone, Copy, Debug, PartialEq, Eq)]
pub struct Limit {
    pub dir: Dir,
    pub most: i64,
}

fn is_below(limit: &Limit, at: &RatPoint) -> bool
    requires limit { IsFit limit.now }
    requires at { FitsProducts at.now }
    ensures { result ≡ is_under at.now limit.now }
{
    value_at(&limit.dir, at) < limit_at(limit.most, at)
}

pub(crate) fn all_below(limits: &[Limit], at: &RatPoint) -> bool
    requires limits { All IsFit limits.now }
    requires at { FitsProducts at.now }
    ensures { result ≡ list_all (is_under at.now) limits.now }
{
    for limit in limits {
        if !is_below(limit, at) {
            return false;
        }
    }
    true
}

/// Whether a point is inner to what has these limits.
pub fn is_inside(limits: &[Limit], at: &RatPoint) -> bool
    requires limits { All IsFit limits.now }
    requires at { FitsProducts at.now }
    ensures { (spots : List Spot) → HasArea spots → AreLimits spots limits.now
        → IsTrue result ↔ Inner spots at.now }
{
    all_below(limits, at)
}

fn limit_along(dir: &Dir, a: &[Spot], b: &[Spot], f: &[Spot]) -> Limit
    requires dir { IsShort dir.now }
    requires outlines { AreOutlines a.now b.now f.now }
    ensures value { result ≡ limit_of (difference a.now b.now f.now) dir.now }
    ensures fit { IsFit result }
{
    Limit {
        dir: *dir,
        most: support(*dir, a, b, f),
    }
}

fn limits_along(
    alloc: Global,
    dirs: &[Dir],
    a: &[Spot],
    b: &[Spot],
    f: &[Spot],
) -> Result<Vec<Limit>, AllocError>
    requires dirs { All IsShort dirs.now }
    requires outlines { AreOutlines a.now b.now f.now }
    ensures value { IfOk result
        (λ limits. limits.items ≡ map (limit_of (difference a.now b.now f.now)) dirs.now) }
    ensures fit { IfOk result (λ limits. All IsFit limits.items) }
{
    let mut limits = Vec::with_capacity(alloc, dirs.len())?;
    for dir in dirs {
        limits.push(limit_along(dir, a, b, f))?;
    }
    Ok(limits)
}

/// The sides of a difference with their greatest values.
pub fn limits_of(alloc: Global, a: &[Spot], b: &[Spot], f: &[Spot]) -> Result<Vec<Limit>, NoMemory>
    requires outlines { AreOutlines a.now b.now f.now }
    ensures limits { IfOk result (λ limits. AreLimits (difference a.now b.now f.now) limits.items) }
    ensures fit { IfOk result (λ limits. All IsFit limits.items) }
{
    let dirs = sides_of(alloc, a, b, f)?;
    Ok(limits_along(alloc, dirs.as_slice(), a, b, f)?)
}

fn reaches_no_farther(limit: &Limit, a: &[Spot], b: &[Spot], f: &[Spot]) -> bool
    requires limit { IsFit limit.now }
    requires outlines { AreOutlines a.now b.now f.now }
    ensures { result ≡ is_short_of (difference a.now b.now f.now) limit.now }
{
    limit.most >= support(limit.dir, a, b, f)
}

pub(crate) fn all_reach_no_farther(limits: &[Limit], a: &[Spot], b: &[Spot], f: &[Spot]) -> bool
    requires limits { All IsFit limits.now }
    requires outlines { AreOutlines a.now b.now f.now }
    ensures { result ≡ list_all (is_short_of (difference a.now b.now f.now)) limits.now }
{
    for limit in limits {
        if !reaches_no_farther(limit, a, b, f) {
            return false;
        }
    }
    true
}

/// Whether what has these limits covers the difference: then it alone need be opened.
pub fn cover(limits: &[Limit], a: &[Spot], b: &[Spot], f: &[Spot]) -> bool
    requires limits { All IsFit limits.now }
    requires outlines { AreOutlines a.now b.now f.now }
    ensures { (covering : List Spot) → AreLimits covering limits.now
        → IsTrue result ↔ Covers covering (difference a.now b.now f.now) }
{
    all_reach_no_farther(limits, a, b, f)
}
