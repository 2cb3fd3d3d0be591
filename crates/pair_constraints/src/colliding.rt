// Which contact of two objects at their places collides.
ghost use Rattle.std.specs.Prelude.{◌≡◌, ◌≢◌, ℕ, List, All, ◌<◌, ◌≤◌, ◌≤ℤ◌, ◌↔◌, pos, unsigned_abs, length, IsTrue, IsNone};
ghost use Rattle.seq_model.specs.Contacts.{ContactCollides, IsContact};
ghost use Rattle.seq_model.specs.Jobs.{part_at, scene_of_job, zone_at};
ghost use Rattle.seq_model.specs.Parts.{IsSoundPart};
ghost use Rattle.seq_model.specs.Points.{place_point};
ghost use Rattle.seq_model.specs.Scenes.{Collides, Overlap};
ghost use Rattle.seq_model.specs.Soundness.{IsSoundZone};
ghost use Rattle.model_laws.specs.Collisions.{ByBands};
ghost use Rattle.pair_constraints.specs.FirstContacts.{ArePlaces, CollidesBetween, ComesBefore, IsFirst, Sooner};
ghost use Rattle.pair_constraints.specs.Laws.Pairs.{PairHits, PartHits, ZoneHits, ZonesHit};

use crate::overlaps::zones_overlap;
use printer_envelopes::zones_meet;
use seq_limits::{MOST_BANDS, MOST_PARTS};
use seq_model::{Contact, Job, Part, Place, Zone};

fn contact_overlaps(
    job: &Job,
    contact: &Contact,
    earlier: &Place,
    later: &Place,
    scale: i128,
) -> bool
    requires contact { IsContact job.now contact.now }
    requires places { ArePlaces earlier.now later.now scale }
    ensures { IsTrue result ↔ Overlap (zone_at job.now contact.now.i contact.now.zi).corners
        (zone_at job.now contact.now.j contact.now.zj).corners
        (part_at job.now contact.now.part).corners
        (place_point scale earlier.now) (place_point scale later.now) }
{
    let a = &job.objects.as_slice()[contact.i as usize].zones.as_slice()[contact.zi as usize];
    let b = &job.objects.as_slice()[contact.j as usize].zones.as_slice()[contact.zj as usize];
    let part = &job.printer.parts.as_slice()[contact.part as usize];
    zones_overlap(a, b, part, earlier, later, scale)
}

/// Whether a contact collides with its objects at these places: some bands of its two zones meet by its part, and their spots
/// overlap. Takes no memory.
pub fn collides(job: &Job, contact: &Contact, earlier: &Place, later: &Place, scale: i128) -> bool
    requires contact { IsContact job.now contact.now }
    requires places { ArePlaces earlier.now later.now scale }
    ensures collides { IsTrue result ↔ ContactCollides job.now contact.now
        (place_point scale earlier.now) (place_point scale later.now) }
    ensures by_bands { IsTrue result ↔ ByBands job.now contact.now
        (place_point scale earlier.now) (place_point scale later.now) }
{
    contact_overlaps(job, contact, earlier, later, scale)
}

fn zones_hit(a: &Zone, b: &Zone, part: &Part, earlier: &Place, later: &Place, scale: i128) -> bool
    requires a { IsSoundZone a.now }
    requires b { IsSoundZone b.now }
    requires part { IsSoundPart part.now }
    requires places { ArePlaces earlier.now later.now scale }
    ensures { IsTrue result ↔ ZonesHit a.now part.now b.now
        (place_point scale earlier.now) (place_point scale later.now) }
{
    zones_meet(part, b, a) && zones_overlap(a, b, part, earlier, later, scale)
}

fn first_part(
    parts: &[Part],
    a: &Zone,
    b: &Zone,
    earlier: &Place,
    later: &Place,
    scale: i128,
) -> Option<u32>
    requires parts { All IsSoundPart parts.now }
    requires few { length parts.now ≤ MOST_PARTS }
    requires a { IsSoundZone a.now }
    requires b { IsSoundZone b.now }
    requires places { ArePlaces earlier.now later.now scale }
    ensures { IsFirst (PartHits parts.now a.now b.now
        (place_point scale earlier.now) (place_point scale later.now)) (λ a b. a < b) result }
{
    for k in 0..parts.len() {
        if zones_hit(a, b, &parts[k], earlier, later, scale) {
            return Some(k as u32);
        }
    }
    None
}

fn first_zone(
    parts: &[Part],
    zones: &[Zone],
    b: &Zone,
    earlier: &Place,
    later: &Place,
    scale: i128,
) -> Option<(u32, u32)>
    requires parts { All IsSoundPart parts.now }
    requires few { length parts.now ≤ MOST_PARTS }
    requires zones { All IsSoundZone zones.now }
    requires few_zones { length zones.now ≤ MOST_BANDS }
    requires b { IsSoundZone b.now }
    requires places { ArePlaces earlier.now later.now scale }
    ensures { IsFirst (ZoneHits parts.now zones.now b.now
        (place_point scale earlier.now) (place_point scale later.now))
        (Sooner (λ a b. a < b)) result }
{
    for z in 0..zones.len() {
        if let Some(part) = first_part(parts, &zones[z], b, earlier, later, scale) {
            return Some((z as u32, part));
        }
    }
    None
}

fn first_pair(
    parts: &[Part],
    zones: &[Zone],
    later_zones: &[Zone],
    earlier: &Place,
    later: &Place,
    scale: i128,
) -> Option<(u32, (u32, u32))>
    requires parts { All IsSoundPart parts.now }
    requires few { length parts.now ≤ MOST_PARTS }
    requires zones { All IsSoundZone zones.now }
    requires few_zones { length zones.now ≤ MOST_BANDS }
    requires later_zones { All IsSoundZone later_zones.now }
    requires few_later { length later_zones.now ≤ MOST_BANDS }
    requires places { ArePlaces earlier.now later.now scale }
    ensures { IsFirst (PairHits parts.now zones.now later_zones.now
        (place_point scale earlier.now) (place_point scale later.now))
        (Sooner (Sooner (λ a b. a < b))) result }
{
    for z in 0..later_zones.len() {
        if let Some(rest) = first_zone(parts, zones, &later_zones[z], earlier, later, scale) {
            return Some((z as u32, rest));
        }
    }
    None
}

/// The first contact that collides with the earlier object and the later one at their places: by zone of the later, zone of the
/// earlier, part. None exactly where the earlier object doesn't collide with the later one. Takes no memory.
pub fn next_contact(job: &Job, earlier: &Place, later: &Place, scale: i128) -> Option<Contact>
    requires earlier { earlier.now.object < length job.now.objects }
    requires later { later.now.object < length job.now.objects }
    requires apart { earlier.now.object ≢ later.now.object }
    requires places { ArePlaces earlier.now later.now scale }
    ensures first { IsFirst (CollidesBetween job.now earlier.now.object later.now.object
        (place_point scale earlier.now) (place_point scale later.now)) ComesBefore result }
    ensures none { IsNone result
        ↔ (Collides (scene_of_job job.now) earlier.now.object (place_point scale earlier.now)
        later.now.object (place_point scale later.now) → ⊥) }
{
    let a = job.objects.as_slice()[earlier.object as usize]
        .zones
        .as_slice();
    let b = job.objects.as_slice()[later.object as usize]
        .zones
        .as_slice();
    match first_pair(job.printer.parts.as_slice(), a, b, earlier, later, scale) {
        Some((zj, (zi, part))) => Some(Contact {
            i: earlier.object,
            zi,
            part,
            zj,
            j: later.object,
        }),
        None => None,
    }
}
