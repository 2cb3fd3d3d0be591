//! The plan at a point in an order, over the least scale.

ghost use Rattle.std.specs.Prelude.{◌≡◌, ◌+◌, ◌*◌, ◌<◌, ◌≤◌, ◌^◌, All, length, map, pos, ◌+ℤ◌, ◌-ℤ◌, ◌*ℤ◌, ◌≤ℤ◌, ◌<ℤ◌, unsigned_abs, slice_index_or, int_div, IfOk};
ghost use Rattle.node_looks.specs.Looks.{IsFound};
ghost use Rattle.node_looks.specs.Scaled.{IsCommon, IsReduced, IsShared, place_over};
ghost use Rattle.node_looks.specs.Sites.{IsSite, place_of_site, plan_of_site};
ghost use Rattle.plan_text.specs.PlanText.{IsPlace};
ghost use Rattle.seq_model.specs.Bounds.{IsNearSpot};
ghost use Rattle.seq_model.specs.Jobs.{scene_of_job};
ghost use Rattle.seq_model.specs.Scenes.{Valid};

use crate::site::Site;
use integer_laws::{sum, wide_product};
use owned_lists::Items;
use pair_constraints::SolvedPoint;
use seq_model::{Job, Place, Plan, Spot, region};
use seq_num::gcd;
use std::alloc::{AllocError, Global};

fn apart(corner: i64, low: i64) -> i64
    requires corner { unsigned_abs corner ≤ 40_000 }
    requires low { unsigned_abs low ≤ 1_001_000 }
    ensures value { result ≡ corner -ℤ low }
    ensures size { unsigned_abs result < 2 ^ 21 }
{
    corner - low
}

fn times(den: i64, shift: i64) -> i128
    requires den { unsigned_abs den < 2 ^ 62 }
    requires shift { unsigned_abs shift < 2 ^ 21 }
    ensures value { result ≡ den *ℤ shift }
    ensures size { unsigned_abs result < 2 ^ 83 }
{
    wide_product(den, shift)
}

// A coordinate of a place: the variable, moved by the region's corner less the object's low one.
fn coordinate(u: i64, den: i64, corner: i64, low: i64) -> i128
    requires den { unsigned_abs den < 2 ^ 62 }
    requires corner { unsigned_abs corner ≤ 40_000 }
    requires low { unsigned_abs low ≤ 1_001_000 }
    ensures value { result ≡ u +ℤ den *ℤ (corner -ℤ low) }
    ensures size { unsigned_abs result < 2 ^ 90 }
{
    sum(i128::from(u), times(den, apart(corner, low)))
}

fn coordinate_x(at: &SolvedPoint, object: usize, corner: &Spot, low: &Spot) -> i128
    requires known { 2 * object < length at.now.nums.now }
    requires den { unsigned_abs at.now.den < 2 ^ 62 }
    requires corner { IsNearSpot 40_000 corner.now }
    requires low { IsNearSpot 1_001_000 low.now }
    ensures value { result ≡ slice_index_or at.now.nums.now (2 * object) (pos 0)
        +ℤ at.now.den *ℤ (corner.now.x -ℤ low.now.x) }
    ensures size { unsigned_abs result < 2 ^ 90 }
{
    coordinate(at.nums[2 * object], at.den, corner.x, low.x)
}

fn coordinate_y(at: &SolvedPoint, object: usize, corner: &Spot, low: &Spot) -> i128
    requires known { 2 * object + 1 < length at.now.nums.now }
    requires den { unsigned_abs at.now.den < 2 ^ 62 }
    requires corner { IsNearSpot 40_000 corner.now }
    requires low { IsNearSpot 1_001_000 low.now }
    ensures value { result ≡ slice_index_or at.now.nums.now (2 * object + 1) (pos 0)
        +ℤ at.now.den *ℤ (corner.now.y -ℤ low.now.y) }
    ensures size { unsigned_abs result < 2 ^ 90 }
{
    coordinate(at.nums[2 * object + 1], at.den, corner.y, low.y)
}

/// Where an object stands at the point.
pub(crate) fn place(site: &Site, object: u32) -> Place
    requires site { IsSite site.now }
    requires known { object < length site.now.job.now.objects }
    ensures value { result ≡ place_of_site site.now object }
    ensures is { IsPlace result }
{
    let region = region(&site.job.printer, site.extent);
    let low = &site.job.objects.as_slice()[object as usize].low;
    Place {
        object,
        x: coordinate_x(&site.at, object as usize, &region.low, low),
        y: coordinate_y(&site.at, object as usize, &region.low, low),
    }
}

fn places(alloc: Global, site: &Site, order: &[u32]) -> Result<Vec<Place>, AllocError>
    requires site { IsSite site.now }
    requires known { All (λ o. o < length site.now.job.now.objects) order.now }
    ensures value { IfOk result (λ v. v.items ≡ map (place_of_site site.now) order.now) }
    ensures each { IfOk result (λ v. All IsPlace v.items) }
{
    let mut made = Vec::new(alloc);
    for o in order {
        made.push(place(site, *o))?;
    }
    Ok(made)
}

// The greatest common divisor of a number and the numerators of a place.
fn shared_divisor(divisor: i128, place: &Place) -> i128
    requires positive { pos 1 ≤ℤ divisor }
    requires size { unsigned_abs divisor < 2 ^ 90 }
    requires place { IsPlace place.now }
    ensures shared { IsShared result divisor place.now }
    ensures size { unsigned_abs result < 2 ^ 90 }
{
    gcd(gcd(divisor, place.x), place.y)
}

fn common_divisor(at: &SolvedPoint, places: &[Place]) -> i128
    requires positive { pos 1 ≤ℤ at.now.den }
    requires places { All IsPlace places.now }
    ensures common { IsCommon result at.now.den places.now }
    ensures size { unsigned_abs result < 2 ^ 90 }
{
    let mut divisor = i128::from(at.den);
    for place in places {
        divisor = shared_divisor(divisor, place);
    }
    divisor
}

fn quotient(x: i128, divisor: i128) -> i128
    requires size { unsigned_abs x < 2 ^ 90 }
    requires positive { pos 1 ≤ℤ divisor }
    ensures value { result ≡ int_div x divisor }
    ensures size { unsigned_abs result ≤ unsigned_abs x }
{
    x / divisor
}

fn scale_over(at: &SolvedPoint, divisor: &i128) -> i128
    requires positive { pos 1 ≤ℤ divisor.now }
    ensures value { result ≡ int_div at.now.den divisor.now }
{
    quotient(i128::from(at.den), *divisor)
}

fn divided(place: &Place, divisor: &i128) -> Place
    requires place { IsPlace place.now }
    requires positive { pos 1 ≤ℤ divisor.now }
    ensures value { result ≡ place_over divisor.now place.now }
    ensures is { IsPlace result }
{
    Place {
        object: place.object,
        x: quotient(place.x, *divisor),
        y: quotient(place.y, *divisor),
    }
}

fn all_divided(alloc: Global, places: &[Place], divisor: &i128) -> Result<Items<Place>, AllocError>
    requires places { All IsPlace places.now }
    requires positive { pos 1 ≤ℤ divisor.now }
    ensures value { IfOk result (λ v. v ≡ map (place_over divisor.now) places.now) }
    ensures each { IfOk result (λ v. All IsPlace v) }
{
    let mut made = Vec::with_capacity(alloc, places.len())?;
    for place in places {
        made.push(divided(place, divisor))?;
    }
    Ok(Items::from_vec(made))
}

fn reduced(alloc: Global, at: &SolvedPoint, places: &[Place]) -> Result<Plan, AllocError>
    requires positive { pos 1 ≤ℤ at.now.den }
    requires places { All IsPlace places.now }
    ensures over { IfOk result (IsReduced at.now.den places.now) }
    ensures each { IfOk result (λ plan. All IsPlace plan.places) }
{
    let divisor = common_divisor(at, places);
    Ok(Plan {
        scale: scale_over(at, &divisor),
        places: all_divided(alloc, places, &divisor)?,
    })
}

/// The plan at the point in an order of the objects, over the least scale.
pub(crate) fn plan_at(alloc: Global, site: &Site, order: &[u32]) -> Result<Plan, AllocError>
    requires site { IsSite site.now }
    requires known { All (λ o. o < length site.now.job.now.objects) order.now }
    requires valid { Valid (scene_of_job site.now.job.now) site.now.extent (plan_of_site site.now order.now) }
    ensures found { IfOk result (IsFound site.now.job.now site.now.extent) }
    ensures unscaled { site.now.at.den ≡ pos 1
        → IfOk result (λ plan. plan ≡ plan_of_site site.now order.now) }
{
    let places = places(alloc, site, order)?;
    let plan = reduced(alloc, &site.at, &places)?;
    Ok(plan)
}
