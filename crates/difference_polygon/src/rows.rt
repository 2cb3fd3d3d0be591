// The row of the linear system that keeps two objects apart at a side.
ghost use Rattle.std.specs.Prelude.{◌≡◌, ◌<◌, ◌^◌, ℕ, ◌-ℤ◌, unsigned_abs};
ghost use Rattle.seq_model.specs.declared.job.Job.{Job};
ghost use Rattle.seq_model.specs.declared.job.Object.{Object};
ghost use Rattle.seq_model.specs.declared.job.Zone.{Zone};
ghost use Rattle.seq_model.specs.declared.printer.Part.{Part};
ghost use Rattle.seq_model.specs.declared.tree.Contact.{Contact};
ghost use Rattle.seq_model.specs.declared.tree.Dir.{Dir};
ghost use Rattle.seq_model.specs.Contacts.{difference, IsContact, points_of};
ghost use Rattle.seq_model.specs.Jobs.{object_at, thing_count};
ghost use Rattle.seq_model.specs.Parts.{IsSoundPart};
ghost use Rattle.seq_model.specs.Sides.{along, greatest_along};
ghost use Rattle.seq_model.specs.Soundness.{IsSoundObject, IsSoundZone};
ghost use Rattle.seq_model.specs.Systems as Systems;
ghost use Rattle.outline_laws.specs.Directions.{IsShort};

use crate::values::support_along;
use outline_edges::value_along;
use seq_model::{Contact, Dir, Job, Object, Part, Zone};

/// A row of the system: `c + x * (x of j less x of i) + y * (y of j less y of i) >= 0`, over the variables of objects i and j.
#[derive(Clone, Copy, Debug, PartialEq, Eq)]
pub struct SideRow {
    pub c: i64,
    pub x: i64,
    pub y: i64,
    pub i: u32,
    pub j: u32,
}

fn support_of_zones(dir: &Dir, a: &Zone, b: &Zone, part: &Part) -> i64
    requires dir { IsShort dir.now }
    requires a { IsSoundZone a.now }
    requires b { IsSoundZone b.now }
    requires part { IsSoundPart part.now }
    ensures value { result
        ≡ greatest_along dir.now (difference a.now.corners b.now.corners part.now.corners) }
    ensures size { unsigned_abs result < 2 ^ 46 }
{
    support_along(
        dir,
        a.corners.as_slice(),
        b.corners.as_slice(),
        part.corners.as_slice(),
    )
}

fn support_of(job: &Job, contact: &Contact, dir: &Dir) -> i64
    requires contact { IsContact job.now contact.now }
    requires dir { IsShort dir.now }
    ensures value { result ≡ greatest_along dir.now (points_of job.now contact.now) }
    ensures size { unsigned_abs result < 2 ^ 46 }
{
    let a = &job.objects.as_slice()[contact.i as usize].zones.as_slice()[contact.zi as usize];
    let b = &job.objects.as_slice()[contact.j as usize].zones.as_slice()[contact.zj as usize];
    let part = &job.printer.parts.as_slice()[contact.part as usize];
    support_of_zones(dir, a, b, part)
}

fn low_along(dir: &Dir, object: &Object) -> i64
    requires dir { IsShort dir.now }
    requires object { IsSoundObject object.now }
    ensures value { result ≡ along dir.now object.now.low }
    ensures size { unsigned_abs result < 2 ^ 44 }
{
    value_along(dir, &object.low)
}

fn low_of(dir: &Dir, job: &Job, thing: u32) -> i64
    requires dir { IsShort dir.now }
    requires thing { thing < thing_count job.now }
    ensures value { result ≡ along dir.now (object_at job.now thing).low }
    ensures size { unsigned_abs result < 2 ^ 44 }
{
    low_along(dir, &job.objects.as_slice()[thing as usize])
}

fn constant_of(low_i: i64, low_j: i64, most: i64) -> i64
    requires low_i { unsigned_abs low_i < 2 ^ 44 }
    requires low_j { unsigned_abs low_j < 2 ^ 44 }
    requires most { unsigned_abs most < 2 ^ 46 }
    ensures value { result ≡ (low_i -ℤ low_j) -ℤ most }
    ensures size { unsigned_abs result < 2 ^ 47 }
{
    low_i - low_j - most
}

fn constant_along(job: &Job, contact: &Contact, dir: &Dir) -> i64
    requires contact { IsContact job.now contact.now }
    requires dir { IsShort dir.now }
    ensures value { (e : ℕ) → result ≡ Systems.side_constant job.now e contact.now dir.now }
    ensures size { unsigned_abs result < 2 ^ 47 }
{
    constant_of(
        low_of(dir, job, contact.i),
        low_of(dir, job, contact.j),
        support_of(job, contact, dir),
    )
}

/// The row of the system for a contact and a direction, as each of its sides: that the later object stands beyond it. Takes no
/// memory.
pub fn side_row(job: &Job, contact: &Contact, dir: Dir) -> SideRow
    requires contact { IsContact job.now contact.now }
    requires dir { IsShort dir }
    ensures constant { (e : ℕ) → result.c ≡ Systems.side_constant job.now e contact.now dir }
    ensures x { result.x ≡ dir.x }
    ensures y { result.y ≡ dir.y }
    ensures i { result.i ≡ contact.now.i }
    ensures j { result.j ≡ contact.now.j }
    ensures row { (e : ℕ) → Systems.pair_row job.now result.c result.x result.y result.i result.j
        ≡ Systems.side_row job.now e contact.now dir }
    ensures size { unsigned_abs result.c < 2 ^ 47 }
{
    SideRow {
        c: constant_along(job, contact, &dir),
        x: dir.x,
        y: dir.y,
        i: contact.i,
        j: contact.j,
    }
}
