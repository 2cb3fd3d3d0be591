//! Whether two objects collide at all, by their zones.

ghost use Rattle.std.specs.Prelude.{◌≡◌, ◌<◌, ◌↔◌, List, length, All, IsTrue};
ghost use Rattle.outline_laws.specs.Beyond.{FitsProducts};
ghost use Rattle.plan_audit.specs.Steps.{ZonesHit, SomePartHits, SomeZoneHits, SomePairHits};
ghost use Rattle.seq_model.specs.Contacts.{difference};
ghost use Rattle.seq_model.specs.Jobs.{zones_of};
ghost use Rattle.seq_model.specs.Outlines.{Inner};
ghost use Rattle.seq_model.specs.Parts.{IsSoundPart};
ghost use Rattle.seq_model.specs.Soundness.{IsSoundZone};

use difference_polygon::strictly_in;
use printer_envelopes::zones_meet;
use seq_model::{Job, Part, RatPoint, Zone};

// Whether the outlines of two zones overlap, spread by the part, where the later place less the earlier one is `at`.
pub(crate) fn overlap(a: &Zone, b: &Zone, part: &Part, at: &RatPoint) -> bool
    requires a { IsSoundZone a.now }
    requires b { IsSoundZone b.now }
    requires part { IsSoundPart part.now }
    requires at { FitsProducts at.now }
    ensures { IsTrue result
        ↔ Inner (difference a.now.corners b.now.corners part.now.corners) at.now }
{
    strictly_in(
        a.corners.as_slice(),
        b.corners.as_slice(),
        part.corners.as_slice(),
        at,
    )
}

fn zones_hit(a: &Zone, part: &Part, b: &Zone, at: &RatPoint) -> bool
    requires a { IsSoundZone a.now }
    requires part { IsSoundPart part.now }
    requires b { IsSoundZone b.now }
    requires at { FitsProducts at.now }
    ensures { IsTrue result ↔ ZonesHit a.now part.now b.now at.now }
{
    zones_meet(part, b, a) && overlap(a, b, part, at)
}

fn some_part_hits(parts: &[Part], a: &Zone, b: &Zone, at: &RatPoint) -> bool
    requires parts { All IsSoundPart parts.now }
    requires a { IsSoundZone a.now }
    requires b { IsSoundZone b.now }
    requires at { FitsProducts at.now }
    ensures { IsTrue result ↔ SomePartHits parts.now a.now b.now at.now }
{
    for k in 0..parts.len() {
        if zones_hit(a, &parts[k], b, at) {
            return true;
        }
    }
    false
}

fn some_zone_hits(parts: &[Part], zones: &[Zone], b: &Zone, at: &RatPoint) -> bool
    requires parts { All IsSoundPart parts.now }
    requires zones { All IsSoundZone zones.now }
    requires b { IsSoundZone b.now }
    requires at { FitsProducts at.now }
    ensures { IsTrue result ↔ SomeZoneHits parts.now zones.now b.now at.now }
{
    for z in 0..zones.len() {
        if some_part_hits(parts, &zones[z], b, at) {
            return true;
        }
    }
    false
}

fn some_pair_hits(parts: &[Part], zones: &[Zone], later_zones: &[Zone], at: &RatPoint) -> bool
    requires parts { All IsSoundPart parts.now }
    requires zones { All IsSoundZone zones.now }
    requires later_zones { All IsSoundZone later_zones.now }
    requires at { FitsProducts at.now }
    ensures { IsTrue result ↔ SomePairHits parts.now zones.now later_zones.now at.now }
{
    for z in 0..later_zones.len() {
        if some_zone_hits(parts, zones, &later_zones[z], at) {
            return true;
        }
    }
    false
}

/// Whether object i, printed earlier, collides with object j where the later place less the earlier one is `at`.
pub(crate) fn objects_hit(job: &Job, i: u32, j: u32, at: &RatPoint) -> bool
    requires known { i < length job.now.objects }
    requires later_known { j < length job.now.objects }
    requires at { FitsProducts at.now }
    ensures { IsTrue result ↔ SomePairHits job.now.printer.parts
        (zones_of job.now i) (zones_of job.now j) at.now }
{
    let zones = job.objects.as_slice()[i as usize].zones.as_slice();
    let later_zones = job.objects.as_slice()[j as usize].zones.as_slice();
    some_pair_hits(job.printer.parts.as_slice(), zones, later_zones, at)
}
