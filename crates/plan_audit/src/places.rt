ghost use Rattle.std.specs.Prelude.{◌≡◌, ◌↔◌, ◌<◌, ◌≤◌, ◌^◌, ◌+ℤ◌, ◌*ℤ◌, ◌≤ℤ◌, ◌⊎◌, ◌||◌, pos, true, None, unsigned_abs, length, All, int_lt};
ghost use Rattle.plan_audit.specs.Firsts.{IsFirst, Less};
ghost use Rattle.plan_audit.specs.Places.{IsRoomy};
ghost use Rattle.plan_audit.specs.Faults.{IsStray, IsAbsent, HasSpotOff, IsOff, StandsBelow, FirstStray, FirstAbsent, FirstOff, nth};
ghost use Rattle.plan_audit.specs.Steps.{is_out, span_out};
ghost use Rattle.seq_model.specs.Bounds.{IsNearSpot};
ghost use Rattle.seq_model.specs.Jobs.{object_at, scene_of_job};

use integer_laws::{product, sum};
use seq_limits::MOST_OBJECTS;
use seq_model::{Job, Place, Region, Spot, region};

// Whether the object has a place below this number.
fn stands_below(places: &[Place], below: usize, object: u32) -> bool
    requires { below ≤ length places.now }
    ensures { (result ≡ true) ↔ StandsBelow places.now below object }
{
    for m in 0..below {
        if places[m].object == object {
            return true;
        }
    }
    false
}

fn is_stray(places: &[Place], k: usize, count: usize) -> bool
    requires { k < length places.now }
    ensures { (result ≡ true) ↔ ((count ≤ (nth places.now k).object)
        ⊎ StandsBelow places.now k (nth places.now k).object) }
{
    places[k].object as usize >= count || stands_below(places, k, places[k].object)
}

pub(crate) fn first_stray(job: &Job, places: &[Place]) -> Option<u32>
    requires few { length places.now ≤ MOST_OBJECTS }
    ensures { FirstStray (scene_of_job job.now) places.now result }
{
    for k in 0..places.len() {
        if is_stray(places, k, job.objects.len()) {
            return Some(k as u32);
        }
    }
    None
}

pub(crate) fn first_absent(job: &Job, places: &[Place]) -> Option<u32>
    ensures { FirstAbsent (scene_of_job job.now) places.now result }
{
    for o in 0..job.objects.len() {
        if !stands_below(places, places.len(), o as u32) {
            return Some(o as u32);
        }
    }
    None
}

fn scaled(scale: i128, at: i64) -> i128
    requires scale { unsigned_abs scale < 2 ^ 62 }
    requires at { unsigned_abs at < 2 ^ 21 }
    ensures value { result ≡ scale *ℤ at }
    ensures size { unsigned_abs result < 2 ^ 83 }
{
    product(scale, i128::from(at))
}

fn moved(scale: i128, at: i64, shift: i128) -> i128
    requires scale { unsigned_abs scale < 2 ^ 62 }
    requires at { unsigned_abs at < 2 ^ 21 }
    requires shift { unsigned_abs shift < 2 ^ 90 }
    ensures { result ≡ scale *ℤ at +ℤ shift }
{
    sum(scaled(scale, at), shift)
}

// Whether what is moved there comes before the limit.
fn is_before(limit: i64, scale: i128, at: i64, shift: i128) -> bool
    requires limit { unsigned_abs limit < 2 ^ 21 }
    requires scale { unsigned_abs scale < 2 ^ 62 }
    requires at { unsigned_abs at < 2 ^ 21 }
    requires shift { unsigned_abs shift < 2 ^ 90 }
    ensures { result ≡ int_lt (scale *ℤ at +ℤ shift) (scale *ℤ limit) }
{
    moved(scale, at, shift) < scaled(scale, limit)
}

// Whether it passes the limit.
fn is_past(limit: i64, scale: i128, at: i64, shift: i128) -> bool
    requires limit { unsigned_abs limit < 2 ^ 21 }
    requires scale { unsigned_abs scale < 2 ^ 62 }
    requires at { unsigned_abs at < 2 ^ 21 }
    requires shift { unsigned_abs shift < 2 ^ 90 }
    ensures { result ≡ int_lt (scale *ℤ limit) (scale *ℤ at +ℤ shift) }
{
    scaled(scale, limit) < moved(scale, at, shift)
}

fn far_end(low: i64, size: i64) -> i64
    requires low { unsigned_abs low ≤ 40_000 }
    requires least { pos 0 ≤ℤ size }
    requires most { size ≤ℤ pos 40_000 }
    ensures value { result ≡ low +ℤ size }
    ensures near { unsigned_abs result < 2 ^ 21 }
{
    low + size
}

// Whether what reaches from one coordinate to another, moved, isn't within a span of the region.
fn is_span_out(scale: i128, start: i64, size: i64, low: i64, high: i64, shift: i128) -> bool
    requires scale { unsigned_abs scale < 2 ^ 62 }
    requires start { unsigned_abs start ≤ 40_000 }
    requires least { pos 0 ≤ℤ size }
    requires most { size ≤ℤ pos 40_000 }
    requires low { unsigned_abs low < 2 ^ 21 }
    requires high { unsigned_abs high < 2 ^ 21 }
    requires shift { unsigned_abs shift < 2 ^ 90 }
    ensures { result ≡ span_out scale start size low high shift }
{
    if is_before(start, scale, low, shift) {
        return true;
    }
    is_past(far_end(start, size), scale, high, shift)
}

fn either(a: bool, b: bool) -> bool
    ensures { result ≡ (a || b) }
{
    if a {
        return true;
    }
    b
}

fn is_box_out(region: &Region, scale: i128, place: &Place, low: &Spot, high: &Spot) -> bool
    requires region { IsNearSpot 40_000 region.now.low }
    requires wide { (pos 0 ≤ℤ region.now.w) × (region.now.w ≤ℤ pos 40_000) }
    requires deep { (pos 0 ≤ℤ region.now.h) × (region.now.h ≤ℤ pos 40_000) }
    requires scale { unsigned_abs scale < 2 ^ 62 }
    requires place { IsRoomy place.now }
    requires low { IsNearSpot 1_001_000 low.now }
    requires high { IsNearSpot 1_001_000 high.now }
    ensures { result ≡ is_out region.now scale place.now low.now high.now }
{
    either(
        is_span_out(scale, region.low.x, region.w, low.x, high.x, place.x),
        is_span_out(scale, region.low.y, region.h, low.y, high.y, place.y),
    )
}

fn is_off(job: &Job, extent: u32, scale: i128, place: &Place) -> bool
    requires from_one { 1 ≤ extent }
    requires to_grid { extent ≤ job.now.printer.grid }
    requires one { pos 1 ≤ℤ scale }
    requires scale { unsigned_abs scale < 2 ^ 62 }
    requires place { IsRoomy place.now }
    requires known { place.now.object < length job.now.objects }
    ensures { (result ≡ true) ↔ HasSpotOff (scene_of_job job.now) extent scale place.now }
{
    let object = &job.objects.as_slice()[place.object as usize];
    is_box_out(
        &region(&job.printer, extent),
        scale,
        place,
        &object.low,
        &object.high,
    )
}

pub(crate) fn first_off(job: &Job, extent: u32, places: &[Place], scale: i128) -> Option<u32>
    requires from_one { 1 ≤ extent }
    requires to_grid { extent ≤ job.now.printer.grid }
    requires one { pos 1 ≤ℤ scale }
    requires scale { unsigned_abs scale < 2 ^ 62 }
    requires few { length places.now ≤ MOST_OBJECTS }
    requires roomy { All IsRoomy places.now }
    requires known { All (λ p. p.object < length job.now.objects) places.now }
    ensures { FirstOff (scene_of_job job.now) extent scale places.now result }
{
    for k in 0..places.len() {
        if is_off(job, extent, scale, &places[k]) {
            return Some(k as u32);
        }
    }
    None
}
