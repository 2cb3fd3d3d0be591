//! The audit.

ghost use Rattle.std.specs.Prelude.{◌≡◌, ◌↔◌, ◌<◌, ◌≤◌, ◌^◌, ◌≤ℤ◌, pos, unsigned_abs, length, All};
ghost use Rattle.plan_audit.specs.Faults.{IsVerdict};
ghost use Rattle.plan_audit.specs.Places.{IsRoomy};
ghost use Rattle.plan_audit.specs.declared.verdict.Verdict.{Verdict};
ghost use Rattle.plan_audit.specs.declared.verdict.Verdict.TheVariants as Verdicts;
ghost use Rattle.seq_model.specs.Jobs.{scene_of_job};
ghost use Rattle.seq_model.specs.Scenes.{Valid};

use crate::hits::first_hit;
use crate::places::{first_absent, first_off, first_stray};
use crate::{Hit, Verdict};
use seq_limits::MOST_OBJECTS;
use seq_model::{Job, Place, Plan};

fn first_fault(job: &Job, extent: u32, places: &[Place], scale: i128) -> Verdict
    requires from_one { 1 ≤ extent }
    requires to_grid { extent ≤ job.now.printer.grid }
    requires one { pos 1 ≤ℤ scale }
    requires scale { unsigned_abs scale < 2 ^ 62 }
    requires few { length places.now ≤ MOST_OBJECTS }
    requires roomy { All IsRoomy places.now }
    ensures { IsVerdict (scene_of_job job.now) extent
        (record { scale = scale; places = places.now }) result }
{
    if let Some(place) = first_stray(job, places) {
        return Verdict::Stray(place);
    }
    if let Some(object) = first_absent(job, places) {
        return Verdict::Absent(object);
    }
    if let Some(place) = first_off(job, extent, places, scale) {
        return Verdict::OffPlate(place);
    }
    match first_hit(job, places, scale) {
        Some(hit) => Verdict::Collides(hit),
        None => Verdict::Good,
    }
}

/// Whether the plan is valid at the extent, and else its first fault: by kind, and then by number. Takes no memory.
pub fn audit(job: &Job, extent: u32, plan: &Plan) -> Verdict
    requires from_one { 1 ≤ extent }
    requires to_grid { extent ≤ job.now.printer.grid }
    requires one { pos 1 ≤ℤ plan.now.scale }
    requires scale { unsigned_abs plan.now.scale < 2 ^ 62 }
    requires few { length plan.now.places ≤ MOST_OBJECTS }
    requires roomy { All IsRoomy plan.now.places }
    ensures good { (result ≡ Verdicts.Good) ↔ Valid (scene_of_job job.now) extent plan.now }
    ensures verdict { IsVerdict (scene_of_job job.now) extent plan.now result }
    ensures only { (v : Verdict) → IsVerdict (scene_of_job job.now) extent plan.now v → result ≡ v }
{
    first_fault(job, extent, plan.places.as_slice(), plan.scale)
}
