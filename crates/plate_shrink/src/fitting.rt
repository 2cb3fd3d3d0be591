//! The least extent that a plan fits, moved as a whole.

ghost use Rattle.std.specs.Prelude.{◌≡◌, ◌≤◌, ◌<◌, ◌^◌, ◌↔◌, ◌≤ℤ◌, ◌+ℤ◌, ◌-ℤ◌, ◌*ℤ◌, ℕ, pos, unsigned_abs, length, All, IsTrue, IfOk};
ghost use Rattle.std.specs.Int.{int_max, int_min};
ghost use Rattle.integer_laws.specs.Quotients.{ceil, floor};
ghost use Rattle.node_looks.specs.Looks.{IsFound};
ghost use Rattle.plan_text.specs.PlanText.{IsPlace};
ghost use Rattle.plate_shrink.specs.Edges.{AreNarrow, IsNarrowIn, IsNearEdges, IsSpanOf, edges_of, joined, shift_of};
ghost use Rattle.plate_shrink.specs.Fitting.{FitsNoLower, IsFitted, IsSmallShift, place_by, plan_by};

use integer_laws::{difference, product, sum};
use owned_lists::Items;
use seq_model::{Job, Place, Plan, Region, Spot, region};
use seq_num::{ceil_div, floor_div};
use std::alloc::{AllocError, Global};

/// A plan, and an extent at which it is valid.
#[derive(Debug, Drop)]
pub struct Fitted {
    pub extent: u32,
    pub plan: Plan,
}

/// A move by whole grains.
#[derive(Clone, Copy, Debug)]
struct Shift {
    x: i128,
    y: i128,
}

/// The least and greatest coordinates of a plan's spots, rounded outwards to grains.
#[derive(Clone, Copy, Debug)]
struct Edges {
    west: i128,
    east: i128,
    south: i128,
    north: i128,
}

fn west_of(low: &Spot, place: &Place, scale: &i128) -> i128
    requires place { IsPlace place.now }
    requires positive { pos 1 ≤ℤ scale.now }
    requires scale { unsigned_abs scale.now < 2 ^ 62 }
    ensures value { result ≡ low.now.x +ℤ floor place.now.x scale.now }
    ensures near { unsigned_abs result < 2 ^ 92 }
{
    sum(i128::from(low.x), floor_div(place.x, *scale))
}

fn east_of(high: &Spot, place: &Place, scale: &i128) -> i128
    requires place { IsPlace place.now }
    requires positive { pos 1 ≤ℤ scale.now }
    requires scale { unsigned_abs scale.now < 2 ^ 62 }
    ensures value { result ≡ high.now.x +ℤ ceil place.now.x scale.now }
    ensures near { unsigned_abs result < 2 ^ 92 }
{
    sum(i128::from(high.x), ceil_div(place.x, *scale))
}

fn south_of(low: &Spot, place: &Place, scale: &i128) -> i128
    requires place { IsPlace place.now }
    requires positive { pos 1 ≤ℤ scale.now }
    requires scale { unsigned_abs scale.now < 2 ^ 62 }
    ensures value { result ≡ low.now.y +ℤ floor place.now.y scale.now }
    ensures near { unsigned_abs result < 2 ^ 92 }
{
    sum(i128::from(low.y), floor_div(place.y, *scale))
}

fn north_of(high: &Spot, place: &Place, scale: &i128) -> i128
    requires place { IsPlace place.now }
    requires positive { pos 1 ≤ℤ scale.now }
    requires scale { unsigned_abs scale.now < 2 ^ 62 }
    ensures value { result ≡ high.now.y +ℤ ceil place.now.y scale.now }
    ensures near { unsigned_abs result < 2 ^ 92 }
{
    sum(i128::from(high.y), ceil_div(place.y, *scale))
}

// The edges of one place.
fn edges_of(job: &Job, place: &Place, scale: &i128) -> Edges
    requires known { place.now.object < length job.now.objects }
    requires place { IsPlace place.now }
    requires positive { pos 1 ≤ℤ scale.now }
    requires scale { unsigned_abs scale.now < 2 ^ 62 }
    ensures value { result ≡ edges_of job.now scale.now place.now }
    ensures near { IsNearEdges result }
{
    let object = &job.objects.as_slice()[place.object as usize];
    Edges {
        west: west_of(&object.low, place, scale),
        east: east_of(&object.high, place, scale),
        south: south_of(&object.low, place, scale),
        north: north_of(&object.high, place, scale),
    }
}

fn lesser(a: &i128, b: &i128) -> i128
    requires a { unsigned_abs a.now < 2 ^ 92 }
    requires b { unsigned_abs b.now < 2 ^ 92 }
    ensures value { result ≡ int_min a.now b.now }
    ensures near { unsigned_abs result < 2 ^ 92 }
{
    *a.min(b)
}

fn greater(a: &i128, b: &i128) -> i128
    requires a { unsigned_abs a.now < 2 ^ 92 }
    requires b { unsigned_abs b.now < 2 ^ 92 }
    ensures value { result ≡ int_max a.now b.now }
    ensures near { unsigned_abs result < 2 ^ 92 }
{
    *a.max(b)
}

// The edges of two together.
fn joined(a: &Edges, b: &Edges) -> Edges
    requires a { IsNearEdges a.now }
    requires b { IsNearEdges b.now }
    ensures value { result ≡ joined a.now b.now }
    ensures near { IsNearEdges result }
{
    Edges {
        west: lesser(&a.west, &b.west),
        east: greater(&a.east, &b.east),
        south: lesser(&a.south, &b.south),
        north: greater(&a.north, &b.north),
    }
}

// The edges of a plan that has a place.
fn span_of(job: &Job, plan: &Plan) -> Edges
    requires some { 1 ≤ length plan.now.places }
    requires known { All (λ p. p.object < length job.now.objects) plan.now.places }
    requires places { All IsPlace plan.now.places }
    requires positive { pos 1 ≤ℤ plan.now.scale }
    requires scale { unsigned_abs plan.now.scale < 2 ^ 62 }
    ensures span { IsSpanOf job.now plan.now result }
    ensures near { IsNearEdges result }
{
    let places = plan.places.as_slice();
    let mut all = edges_of(job, &places[0], &plan.scale);
    for place in places {
        all = joined(&all, &edges_of(job, place, &plan.scale));
    }
    all
}

// Whether what lies from `low` to `high` is at most this size.
fn is_within(low: &i128, high: &i128, size: &i64) -> bool
    requires low { unsigned_abs low.now < 2 ^ 92 }
    requires high { unsigned_abs high.now < 2 ^ 92 }
    ensures { IsTrue result ↔ ((high.now -ℤ low.now) ≤ℤ size.now) }
{
    difference(*high, *low) <= i128::from(*size)
}

// Whether the edges are no wider and no deeper than the region.
fn is_narrow(all: &Edges, within: &Region) -> bool
    requires { IsNearEdges all.now }
    ensures { IsTrue result ↔ IsNarrowIn within.now all.now }
{
    if !is_within(&all.west, &all.east, &within.w) {
        return false;
    }
    is_within(&all.south, &all.north, &within.h)
}

// The least extent whose region is as large as the plan.
fn least_fit(job: &Job, extent: u32, all: &Edges) -> u32
    requires from_one { 1 ≤ extent }
    requires to_grid { extent ≤ job.now.printer.grid }
    requires near { IsNearEdges all.now }
    requires narrow { AreNarrow job.now extent all.now }
    ensures low { 1 ≤ result }
    ensures high { result ≤ extent }
    ensures narrow { AreNarrow job.now result all.now }
    ensures least { (f : ℕ) → 1 ≤ f → f < result → AreNarrow job.now f all.now → ⊥ }
{
    for smaller in 1..extent {
        if is_narrow(all, &region(&job.printer, smaller)) {
            return smaller;
        }
    }
    extent
}

// The move that brings the low edges to a corner.
fn shift_to(all: &Edges, corner: &Spot) -> Shift
    requires { IsNearEdges all.now }
    ensures { result ≡ shift_of all.now corner.now }
{
    Shift {
        x: difference(i128::from(corner.x), all.west),
        y: difference(i128::from(corner.y), all.south),
    }
}

fn moved(at: i128, scale: i128, by: i128) -> i128
    requires at { unsigned_abs at < 2 ^ 90 }
    requires scale { unsigned_abs scale < 2 ^ 62 }
    requires by { unsigned_abs by < 2 ^ 40 }
    ensures { result ≡ at +ℤ scale *ℤ by }
{
    sum(at, product(scale, by))
}

fn moved_place(place: &Place, scale: &i128, shift: &Shift) -> Place
    requires place { IsPlace place.now }
    requires scale { unsigned_abs scale.now < 2 ^ 62 }
    requires near { IsSmallShift shift.now }
    ensures { result ≡ place_by scale.now shift.now place.now }
{
    Place {
        object: place.object,
        x: moved(place.x, *scale, shift.x),
        y: moved(place.y, *scale, shift.y),
    }
}

fn moved_plan(alloc: Global, plan: &Plan, shift: &Shift) -> Result<Plan, AllocError>
    requires places { All IsPlace plan.now.places }
    requires scale { unsigned_abs plan.now.scale < 2 ^ 62 }
    requires near { IsSmallShift shift.now }
    ensures { IfOk result (λ moved. moved ≡ plan_by shift.now plan.now) }
{
    let mut places = Items::new(alloc);
    for place in plan.places.as_slice() {
        places.push(moved_place(place, &plan.scale, shift))?;
    }
    Ok(Plan {
        scale: plan.scale,
        places,
    })
}

/// The least extent that a found plan fits, moved by whole grains, and the plan there.
pub fn least_fitted(alloc: Global, job: &Job, extent: u32, plan: Plan) -> Result<Fitted, AllocError>
    requires from_one { 1 ≤ extent }
    requires to_grid { extent ≤ job.now.printer.grid }
    requires found { IsFound job.now extent plan }
    ensures fitted { IfOk result (IsFitted job.now extent) }
    ensures least { IfOk result (λ fitted. FitsNoLower job.now plan fitted.extent) }
{
    let all = span_of(job, &plan);
    let fit = least_fit(job, extent, &all);
    let corner = region(&job.printer, fit).low;
    let shift = shift_to(&all, &corner);
    let moved = moved_plan(alloc, &plan, &shift)?;
    Ok(Fitted {
        extent: fit,
        plan: moved,
    })
}
