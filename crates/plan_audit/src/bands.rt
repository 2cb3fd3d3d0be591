//! By which bands and part two objects collide first.

ghost use Rattle.std.specs.Prelude.{◌≡◌, ◌<◌, ◌≤◌, ◌↔◌, length, All, IsTrue};
ghost use Rattle.outline_laws.specs.Beyond.{FitsProducts};
ghost use Rattle.plan_audit.specs.Firsts.{IsFirst, Less, Sooner};
ghost use Rattle.plan_audit.specs.Steps.{Holds, PartHits, EarlierHits, LaterHits};
ghost use Rattle.seq_model.specs.Contacts.{difference};
ghost use Rattle.seq_model.specs.Jobs.{scene_of_job};
ghost use Rattle.seq_model.specs.Outlines.{Inner};
ghost use Rattle.seq_model.specs.Parts.{IsSoundPart};
ghost use Rattle.seq_model.specs.Scenes.{Meets};
ghost use Rattle.seq_model.specs.Soundness.{IsSoundZone};

use crate::zones::overlap;
use printer_envelopes::meets;
use seq_limits::MOST_PARTS;
use seq_model::{Job, Part, RatPoint, Zone};

// The zone that holds a band.
fn zone_in(zones: &[Zone], band: u32) -> Option<usize>
    ensures { IsFirst (Holds zones.now band) Less result }
{
    for z in 0..zones.len() {
        if zones[z].first <= band && band <= zones[z].last {
            return Some(z);
        }
    }
    None
}

fn part_hits(part: &Part, a: &Zone, b: &Zone, later_band: u32, band: u32, at: &RatPoint) -> bool
    requires part { IsSoundPart part.now }
    requires a { IsSoundZone a.now }
    requires b { IsSoundZone b.now }
    requires at { FitsProducts at.now }
    ensures { IsTrue result ↔ (Meets part.now later_band band
        × Inner (difference a.now.corners b.now.corners part.now.corners) at.now) }
{
    meets(part, later_band, band) && overlap(a, b, part, at)
}

fn first_part(
    parts: &[Part],
    a: &Zone,
    b: &Zone,
    later_band: u32,
    band: u32,
    at: &RatPoint,
) -> Option<u32>
    requires parts { All IsSoundPart parts.now }
    requires few { length parts.now ≤ MOST_PARTS }
    requires a { IsSoundZone a.now }
    requires b { IsSoundZone b.now }
    requires at { FitsProducts at.now }
    ensures { IsFirst (PartHits parts.now a.now.corners b.now.corners later_band band at.now)
        Less result }
{
    for k in 0..parts.len() {
        if part_hits(&parts[k], a, b, later_band, band, at) {
            return Some(k as u32);
        }
    }
    None
}

fn in_band(job: &Job, i: u32, band: u32, b: &Zone, later_band: u32, at: &RatPoint) -> Option<u32>
    requires known { i < length job.now.objects }
    requires b { IsSoundZone b.now }
    requires at { FitsProducts at.now }
    ensures { IsFirst (PartHits job.now.printer.parts ((scene_of_job job.now).spots i band)
        b.now.corners later_band band at.now) Less result }
{
    let zones = job.objects.as_slice()[i as usize].zones.as_slice();
    match zone_in(zones, band) {
        Some(z) => first_part(
            job.printer.parts.as_slice(),
            &zones[z],
            b,
            later_band,
            band,
            at,
        ),
        None => None,
    }
}

fn first_band(job: &Job, i: u32, b: &Zone, later_band: u32, at: &RatPoint) -> Option<(u32, u32)>
    requires known { i < length job.now.objects }
    requires b { IsSoundZone b.now }
    requires at { FitsProducts at.now }
    ensures { IsFirst (EarlierHits (scene_of_job job.now) i b.now.corners later_band at.now)
        (Sooner Less) result }
{
    for band in 0..job.objects.as_slice()[i as usize].bands {
        if let Some(part) = in_band(job, i, band, b, later_band, at) {
            return Some((band, part));
        }
    }
    None
}

fn in_later_band(job: &Job, i: u32, j: u32, band: u32, at: &RatPoint) -> Option<(u32, u32)>
    requires known { i < length job.now.objects }
    requires later_known { j < length job.now.objects }
    requires at { FitsProducts at.now }
    ensures { IsFirst (EarlierHits (scene_of_job job.now) i
        ((scene_of_job job.now).spots j band) band at.now) (Sooner Less) result }
{
    let zones = job.objects.as_slice()[j as usize].zones.as_slice();
    match zone_in(zones, band) {
        Some(z) => first_band(job, i, &zones[z], band, at),
        None => None,
    }
}

/// The first band of object j, band of object i and part by which i, printed earlier, collides with j.
pub(crate) fn first_later_band(
    job: &Job,
    i: u32,
    j: u32,
    at: &RatPoint,
) -> Option<(u32, (u32, u32))>
    requires known { i < length job.now.objects }
    requires later_known { j < length job.now.objects }
    requires at { FitsProducts at.now }
    ensures { IsFirst (LaterHits (scene_of_job job.now) i j at.now) (Sooner (Sooner Less)) result }
{
    for band in 0..job.objects.as_slice()[j as usize].bands {
        if let Some(rest) = in_later_band(job, i, j, band, at) {
            return Some((band, rest));
        }
    }
    None
}
