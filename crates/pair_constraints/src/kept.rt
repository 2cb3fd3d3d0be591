// Contacts with what their tests need.
ghost use Rattle.std.specs.Prelude.{◌≡◌, ◌<◌, ◌^◌, ◌-ℤ◌, All, length, unsigned_abs, IfOk};
ghost use Rattle.outline_laws.specs.Corners.{IsNarrow};
ghost use Rattle.outline_laws.specs.Outlines.{AreOutlines};
ghost use Rattle.pair_constraints.specs.Keeping.{IsKept, IsSmallSpot, IsReach, shift_at};
ghost use Rattle.pair_constraints.specs.Limits.{AreLimits, IsFit};
ghost use Rattle.seq_model.specs.Contacts.{IsContact, difference, less, points_of};
ghost use Rattle.seq_model.specs.Jobs.{object_at};
ghost use Rattle.seq_model.specs.Parts.{IsSoundPart};
ghost use Rattle.seq_model.specs.Soundness.{IsSoundZone};

use crate::limits::{Limit, limits_of};
use difference_polygon::support;
use owned_lists::Items;
use seq_model::{Contact, Dir, Job, Part, Spot, Zone};
use seq_num::NoMemory;
use std::alloc::Global;

/// How far a difference reaches to the east, north, west and south: the greatest values along (1, 0), (0, 1), (-1, 0), (0, -1).
#[derive(Clone, Copy, Debug, PartialEq, Eq)]
pub struct Reach {
    pub east: i64,
    pub north: i64,
    pub west: i64,
    pub south: i64,
}

/// A contact with its sides and how far its difference reaches, and the low corner of its earlier object less that of its later one.
#[derive(Debug, Drop)]
pub struct Kept {
    pub contact: Contact,
    pub limits: Items<Limit>,
    pub reach: Reach,
    pub shift: Spot,
}

fn reach_of(a: &[Spot], b: &[Spot], f: &[Spot]) -> Reach
    requires outlines { AreOutlines a.now b.now f.now }
    ensures { IsReach (difference a.now b.now f.now) result }
{
    Reach {
        east: support(Dir { x: 1, y: 0 }, a, b, f),
        north: support(Dir { x: 0, y: 1 }, a, b, f),
        west: support(Dir { x: -1, y: 0 }, a, b, f),
        south: support(Dir { x: 0, y: -1 }, a, b, f),
    }
}

fn reach_of_zones(a: &Zone, b: &Zone, part: &Part) -> Reach
    requires a { IsSoundZone a.now }
    requires b { IsSoundZone b.now }
    requires part { IsSoundPart part.now }
    ensures { IsReach (difference a.now.corners b.now.corners part.now.corners) result }
{
    reach_of(
        a.corners.as_slice(),
        b.corners.as_slice(),
        part.corners.as_slice(),
    )
}

fn limits_of_zones(alloc: Global, a: &Zone, b: &Zone, part: &Part) -> Result<Vec<Limit>, NoMemory>
    requires a { IsSoundZone a.now }
    requires b { IsSoundZone b.now }
    requires part { IsSoundPart part.now }
    ensures limits { IfOk result (λ limits. AreLimits
        (difference a.now.corners b.now.corners part.now.corners) limits.items) }
    ensures fit { IfOk result (λ limits. All IsFit limits.items) }
{
    limits_of(
        alloc,
        a.corners.as_slice(),
        b.corners.as_slice(),
        part.corners.as_slice(),
    )
}

fn apart(a: i64, b: i64) -> i64
    requires a { unsigned_abs a < 2 ^ 21 }
    requires b { unsigned_abs b < 2 ^ 21 }
    ensures value { result ≡ a -ℤ b }
    ensures size { unsigned_abs result < 2 ^ 22 }
{
    a - b
}

fn low_of(job: &Job, i: u32) -> Spot
    requires object { i < length job.now.objects }
    ensures { result ≡ (object_at job.now i).low }
{
    job.objects.as_slice()[i as usize].low
}

fn low_apart(earlier: &Spot, later: &Spot) -> Spot
    requires earlier { IsNarrow earlier.now }
    requires later { IsNarrow later.now }
    ensures value { result ≡ less earlier.now later.now }
    ensures near { IsSmallSpot result }
{
    Spot {
        x: apart(earlier.x, later.x),
        y: apart(earlier.y, later.y),
    }
}

fn shift_of(job: &Job, contact: &Contact) -> Spot
    requires contact { IsContact job.now contact.now }
    ensures value { result ≡ shift_at job.now contact.now }
    ensures near { IsSmallSpot result }
{
    low_apart(&low_of(job, contact.i), &low_of(job, contact.j))
}

/// The sides of a contact, in order, with the greatest values along them.
pub fn sides_of_contact(alloc: Global, job: &Job, contact: &Contact) -> Result<Vec<Limit>, NoMemory>
    requires contact { IsContact job.now contact.now }
    ensures limits { IfOk result
        (λ limits. AreLimits (points_of job.now contact.now) limits.items) }
    ensures fit { IfOk result (λ limits. All IsFit limits.items) }
{
    let a = &job.objects.as_slice()[contact.i as usize].zones.as_slice()[contact.zi as usize];
    let b = &job.objects.as_slice()[contact.j as usize].zones.as_slice()[contact.zj as usize];
    let part = &job.printer.parts.as_slice()[contact.part as usize];
    limits_of_zones(alloc, a, b, part)
}

fn reach_of_contact(job: &Job, contact: &Contact) -> Reach
    requires contact { IsContact job.now contact.now }
    ensures { IsReach (points_of job.now contact.now) result }
{
    let a = &job.objects.as_slice()[contact.i as usize].zones.as_slice()[contact.zi as usize];
    let b = &job.objects.as_slice()[contact.j as usize].zones.as_slice()[contact.zj as usize];
    let part = &job.printer.parts.as_slice()[contact.part as usize];
    reach_of_zones(a, b, part)
}

/// A contact with what its tests need.
pub fn keep(alloc: Global, job: &Job, contact: &Contact) -> Result<Kept, NoMemory>
    requires contact { IsContact job.now contact.now }
    ensures kept { IfOk result (λ kept. IsKept job.now kept) }
    ensures same { IfOk result (λ kept. kept.contact ≡ contact.now) }
{
    let limits = sides_of_contact(alloc, job, contact)?;
    Ok(Kept {
        contact: *contact,
        limits: Items::from_vec(limits),
        reach: reach_of_contact(job, contact),
        shift: shift_of(job, contact),
    })
}
