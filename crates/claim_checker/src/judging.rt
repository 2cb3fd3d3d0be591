ghost use Rattle.std.specs.Prelude.{◌≡◌, ◌↔◌, ◌≤◌, ℕ, true, IfOk};
ghost use Rattle.claim_checker.specs.Claims.{CanBeChecked, HasBlock, HasPlanAsSaid, IsBlockJudgement, IsJudgement, IsReadTree, IsTreeJudgement, Shows, excluded_by};
ghost use Rattle.claim_checker.specs.declared.verdict.Judgement.{Judgement};
ghost use Rattle.plan_text.specs.PlanText.{IsPlanFile};
ghost use Rattle.seq_model.specs.Jobs.{scene_of_job};

use crate::{Fault, Judgement};
use cert_checker::{Checked, check};
use cert_text::Head;
use plan_audit::{Verdict, audit};
use plan_text::{PlanFile, State};
use seq_model::{Job, Tree};
use seq_num::NoMemory;
use std::alloc::Global;

fn can_be_checked(state: State) -> bool
    ensures { (result ≡ true) ↔ CanBeChecked state }
{
    match state {
        State::Least | State::NoPlan => true,
        _ => false,
    }
}

// 0 where nothing is excluded.
fn excluded_by(file: &PlanFile) -> u32
    ensures { result ≡ excluded_by file.now }
{
    match file.state {
        State::Least => file.extent.saturating_sub(1),
        State::NoPlan => file.grid,
        _ => 0,
    }
}

// Whether the plan of a least extent is valid there.
fn has_plan_as_said(job: &Job, file: &PlanFile) -> bool
    requires file { IsPlanFile file.now }
    requires grid { file.now.grid ≡ job.now.printer.grid }
    ensures { (result ≡ true) ↔ HasPlanAsSaid job.now file.now }
{
    match file.state {
        State::Least => audit(job, file.extent, &file.plan) == Verdict::Good,
        _ => true,
    }
}

fn judge_tree(alloc: Global, job: &Job, extent: u32, tree: &Tree) -> Result<Judgement, NoMemory>
    requires from_one { 1 ≤ extent }
    requires to_grid { extent ≤ job.now.printer.grid }
    requires read { IsReadTree tree.now }
    ensures is { IfOk result (IsTreeJudgement job.now extent tree.now) }
    ensures only { IfOk result (λ c. (other : Judgement) → IsTreeJudgement job.now extent tree.now other
        → c ≡ other) }
{
    match check(alloc, job, extent, tree)? {
        Checked::Passes => Ok(Judgement::Passes(extent)),
        Checked::Fails(number, rule) => Ok(Judgement::Fails(Fault::Node(number, rule))),
    }
}

fn judge_block(
    alloc: Global,
    job: &Job,
    extent: u32,
    block: &Option<(Head, Tree)>,
) -> Result<Judgement, NoMemory>
    requires to_grid { extent ≤ job.now.printer.grid }
    requires block { HasBlock extent block.now }
    ensures is { IfOk result (IsBlockJudgement job.now extent block.now) }
    ensures only { IfOk result (λ c. (other : Judgement) → IsBlockJudgement job.now extent block.now other
        → c ≡ other) }
{
    if extent == 0 {
        return Ok(Judgement::Passes(0));
    }
    match block {
        None => unreachable!(),
        Some(block) => {
            if block.0.extent != extent {
                return Ok(Judgement::Fails(Fault::Excludes));
            }
            judge_tree(alloc, job, extent, &block.1)
        }
    }
}

/// The judgement of the claim that a plan file makes of a job, with the tree block behind it, which is there where the file
/// excludes an extent. In another state than that of a least extent or of no plan the block isn't looked at.
pub fn judge(
    alloc: Global,
    job: &Job,
    file: &PlanFile,
    block: &Option<(Head, Tree)>,
) -> Result<Judgement, NoMemory>
    requires file { IsPlanFile file.now }
    requires block { HasBlock (excluded_by file.now) block.now }
    ensures is { IfOk result (IsJudgement job.now file.now block.now) }
    ensures only { IfOk result (λ c. (other : Judgement) → IsJudgement job.now file.now block.now other
        → c ≡ other) }
    ensures sound { IfOk result (λ c. (x : ℕ) → c ≡ Judgement.Passes x
        → Shows (scene_of_job job.now) file.now x) }
{
    if !can_be_checked(file.state) {
        return Ok(Judgement::Fails(Fault::State));
    }
    if file.grid != job.printer.grid {
        return Ok(Judgement::Fails(Fault::Grid));
    }
    if !has_plan_as_said(job, file) {
        return Ok(Judgement::Fails(Fault::Plan));
    }
    judge_block(alloc, job, excluded_by(file), block)
}
