//! The first collision of a plan.

ghost use Rattle.std.specs.Prelude.{◌≡◌, ◌<◌, ◌≤◌, ◌^◌, ◌-ℤ◌, ◌≤ℤ◌, pos, unsigned_abs, length, All};
ghost use Rattle.outline_laws.specs.Beyond.{FitsProducts};
ghost use Rattle.plan_audit.specs.Faults.{FirstHit};
ghost use Rattle.plan_audit.specs.Firsts.{IsFirst, Less, Sooner};
ghost use Rattle.plan_audit.specs.Places.{IsRoomy, gap};
ghost use Rattle.plan_audit.specs.Steps.{LaterHits, HitsAfter, HitsAt};
ghost use Rattle.seq_model.specs.Jobs.{scene_of_job};

use crate::Hit;
use crate::bands::first_later_band;
use crate::zones::objects_hit;
use integer_laws::difference;
use seq_limits::MOST_OBJECTS;
use seq_model::{Job, Place, RatPoint};

fn apart(a: i128, b: i128) -> i128
    requires a { unsigned_abs a < 2 ^ 90 }
    requires b { unsigned_abs b < 2 ^ 90 }
    ensures value { result ≡ a -ℤ b }
    ensures size { unsigned_abs result < 2 ^ 91 }
{
    difference(a, b)
}

// The later place less the earlier one.
fn gap(earlier: &Place, later: &Place, scale: i128) -> RatPoint
    requires earlier { IsRoomy earlier.now }
    requires later { IsRoomy later.now }
    requires one { pos 1 ≤ℤ scale }
    requires scale { unsigned_abs scale < 2 ^ 62 }
    ensures value { result ≡ gap scale earlier.now later.now }
    ensures fits { FitsProducts result }
{
    RatPoint {
        x: apart(later.x, earlier.x),
        y: apart(later.y, earlier.y),
        d: scale,
    }
}

// Zones are fewer than bands, so bands are looked at only where some zones collide.
fn first_of_pair(
    job: &Job,
    earlier: &Place,
    later: &Place,
    scale: i128,
) -> Option<(u32, (u32, u32))>
    requires known { earlier.now.object < length job.now.objects }
    requires later_known { later.now.object < length job.now.objects }
    requires earlier { IsRoomy earlier.now }
    requires later { IsRoomy later.now }
    requires one { pos 1 ≤ℤ scale }
    requires scale { unsigned_abs scale < 2 ^ 62 }
    ensures { IsFirst (LaterHits (scene_of_job job.now) earlier.now.object later.now.object
        (gap scale earlier.now later.now)) (Sooner (Sooner Less)) result }
{
    let at = gap(earlier, later, scale);
    if !objects_hit(job, earlier.object, later.object, &at) {
        return None;
    }
    first_later_band(job, earlier.object, later.object, &at)
}

fn first_after(
    job: &Job,
    places: &[Place],
    e: usize,
    scale: i128,
) -> Option<(u32, (u32, (u32, u32)))>
    requires within { e < length places.now }
    requires few { length places.now ≤ MOST_OBJECTS }
    requires roomy { All IsRoomy places.now }
    requires known { All (λ p. p.object < length job.now.objects) places.now }
    requires one { pos 1 ≤ℤ scale }
    requires scale { unsigned_abs scale < 2 ^ 62 }
    ensures { IsFirst (HitsAfter (scene_of_job job.now) scale places.now e)
        (Sooner (Sooner (Sooner Less))) result }
{
    for l in e + 1..places.len() {
        if let Some(rest) = first_of_pair(job, &places[e], &places[l], scale) {
            return Some((l as u32, rest));
        }
    }
    None
}

fn first_numbers(
    job: &Job,
    places: &[Place],
    scale: i128,
) -> Option<(u32, (u32, (u32, (u32, u32))))>
    requires one { pos 1 ≤ℤ scale }
    requires scale { unsigned_abs scale < 2 ^ 62 }
    requires few { length places.now ≤ MOST_OBJECTS }
    requires roomy { All IsRoomy places.now }
    requires known { All (λ p. p.object < length job.now.objects) places.now }
    ensures { IsFirst (HitsAt (scene_of_job job.now) scale places.now)
        (Sooner (Sooner (Sooner (Sooner Less)))) result }
{
    for e in 0..places.len() {
        if let Some(rest) = first_after(job, places, e, scale) {
            return Some((e as u32, rest));
        }
    }
    None
}

/// The first collision.
pub(crate) fn first_hit(job: &Job, places: &[Place], scale: i128) -> Option<Hit>
    requires one { pos 1 ≤ℤ scale }
    requires scale { unsigned_abs scale < 2 ^ 62 }
    requires few { length places.now ≤ MOST_OBJECTS }
    requires roomy { All IsRoomy places.now }
    requires known { All (λ p. p.object < length job.now.objects) places.now }
    ensures { FirstHit (scene_of_job job.now) scale places.now result }
{
    match first_numbers(job, places, scale) {
        Some((earlier, (later, (b, (c, part))))) => Some(Hit {
            earlier,
            later,
            c,
            b,
            part,
        }),
        None => None,
    }
}
