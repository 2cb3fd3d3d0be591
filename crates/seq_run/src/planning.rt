ghost use Rattle.std.specs.Prelude.{◌≡◌, ◌≤◌, ◌<◌, ◌^◌, Option, Some, length, IfOk};
ghost use Rattle.plan_text.specs.PlanText.{IsPlanFile};
ghost use Rattle.run_files.specs.declared.plans.GivenPlan.{GivenPlan};
ghost use Rattle.run_files.specs.declared.words.Task.{Task};
ghost use Rattle.seq_run.specs.Planning.{CanBeJudged, CanWorkOn, PrintsFor, verdict_of_audit, verdict_of_judgement, verdict_of_decision, verdict_of_outcome};
ghost use Rattle.seq_run.specs.Tried.{PrintsTrial};

use crate::Verdict;
use audit_text::audit_text;
use check_text::check_text;
use claim_checker::{Judgement, judge};
use decision_text::{decision_text, outcome_text};
use owned_lists::Items;
use plan_audit::{Verdict as Audit, audit};
use plate_shrink::{Outcome, least};
use refinement_loop::{Decision, decide};
use run_files::{GivenPlan, Task, the_job_of_files_is_one};
use seq_limits::{MOST_NODES, MOST_OBJECTS, USUAL_NODES};
use seq_model::Job;
use seq_num::NoMemory;
use slice_text::slices_text;
use std::alloc::Global;
use trial_job::{summary_text, trial_job};

/// What goes to `out`, and its verdict.
#[derive(Debug, Drop)]
pub struct Printed {
    pub verdict: Verdict,
    pub text: Items<u8>,
}

fn verdict_of_decision(decision: &Decision) -> Verdict
    ensures { result ≡ verdict_of_decision decision.now }
{
    match decision {
        Decision::Found(_) => Verdict::Done,
        Decision::Refuted(_) => Verdict::NoPlan,
        Decision::Spent(_) | Decision::Wide(_, _) => Verdict::Undecided,
    }
}

// A plan of a job on the whole plate, a certificate that there is none, or why that is undecided.
fn arrange(alloc: Global, strict: bool, budget: u64, job: &Job) -> Result<Printed, NoMemory>
    requires { (1 ≤ budget) × (budget ≤ MOST_NODES) }
    ensures { (plan : Option GivenPlan)
        → IfOk result (λ p. PrintsFor (Task.Arrange strict budget) job.now plan p.verdict p.text) }
{
    let grid = job.printer.grid;
    let decision = decide(alloc, job, grid, budget)?;
    let verdict = verdict_of_decision(&decision);
    let text = decision_text(alloc, grid, decision)?;
    Ok(Printed {
        verdict,
        text: Items::from_vec(text),
    })
}

fn verdict_of_outcome(outcome: &Outcome) -> Verdict
    ensures { result ≡ verdict_of_outcome outcome.now }
{
    match outcome {
        Outcome::Least { .. } => Verdict::Done,
        Outcome::NoPlan(_) => Verdict::NoPlan,
        Outcome::Unproved { .. } => Verdict::Open,
        Outcome::Undecided(_) => Verdict::Undecided,
    }
}

// A plan of a job at the least extent, with a certificate for the one below; a plan, and why the one below is undecided; or what
// is said of the whole plate.
fn shrink(alloc: Global, strict: bool, budget: u64, job: &Job) -> Result<Printed, NoMemory>
    requires { (1 ≤ budget) × (budget ≤ MOST_NODES) }
    ensures { (plan : Option GivenPlan)
        → IfOk result (λ p. PrintsFor (Task.Least strict budget) job.now plan p.verdict p.text) }
{
    let outcome = least(alloc, job, budget)?;
    let verdict = verdict_of_outcome(&outcome);
    let text = outcome_text(alloc, job.printer.grid, outcome)?;
    Ok(Printed {
        verdict,
        text: Items::from_vec(text),
    })
}

// The bands and outlines of a job's one object.
fn slice(alloc: Global, job: &Job) -> Result<Printed, NoMemory>
    requires { length job.now.objects ≡ 1 }
    ensures { (plan : Option GivenPlan)
        → IfOk result (λ p. PrintsFor Task.Slices job.now plan p.verdict p.text) }
{
    let object = &job.objects.as_slice()[0];
    let text = slices_text(alloc, object)?;
    Ok(Printed {
        verdict: Verdict::Done,
        text: Items::from_vec(text),
    })
}

fn verdict_of_audit(audit: Audit) -> Verdict
    ensures { result ≡ verdict_of_audit audit }
{
    match audit {
        Audit::Good => Verdict::Done,
        _ => Verdict::Fault,
    }
}

// Whether the plan of a file is valid on the whole plate, and else its first fault.
fn audit_plan(alloc: Global, job: &Job, plan: &GivenPlan) -> Result<Printed, NoMemory>
    requires { IsPlanFile plan.now.file }
    ensures { IfOk result (λ p. PrintsFor Task.Audit job.now (Some plan.now) p.verdict p.text) }
{
    let printer = &job.printer;
    let placed = &plan.file.plan;
    let found = audit(job, printer.grid, placed);
    let text = audit_text(
        alloc,
        printer.parts.as_slice(),
        placed.places.as_slice(),
        found,
    )?;
    Ok(Printed {
        verdict: verdict_of_audit(found),
        text: Items::from_vec(text),
    })
}

fn verdict_of_judgement(judgement: Judgement) -> Verdict
    ensures { result ≡ verdict_of_judgement judgement }
{
    match judgement {
        Judgement::Passes(_) => Verdict::Done,
        Judgement::Fails(_) => Verdict::Fault,
    }
}

// Whether the claim of a plan's file passes, and else what is wrong with it first. The law says that no other job of the files is judged
// otherwise.
fn check_plan(alloc: Global, job: &Job, plan: &GivenPlan) -> Result<Printed, NoMemory>
    requires { CanBeJudged plan.now }
    ensures { IfOk result (λ p. PrintsFor Task.Check job.now (Some plan.now) p.verdict p.text) }
{
    the_job_of_files_is_one();
    let judged = judge(alloc, job, &plan.file, &plan.block)?;
    let text = check_text(alloc, judged)?;
    Ok(Printed {
        verdict: verdict_of_judgement(judged),
        text: Items::from_vec(text),
    })
}

/// The summary of a trial, and then what `arrange` prints of its job.
pub fn try_out(alloc: Global, objects: u32, seed: u64) -> Result<Printed, NoMemory>
    requires some { 1 ≤ objects }
    requires few { objects ≤ MOST_OBJECTS }
    requires seed { seed < 2 ^ 32 }
    ensures { IfOk result (λ p. PrintsTrial objects seed p.verdict p.text) }
{
    let trial = trial_job(alloc, objects, seed)?;
    let arranged = arrange(alloc, false, USUAL_NODES, &trial.job)?;
    let mut text = summary_text(alloc, objects, seed, &trial)?;
    text.extend_from_slice(arranged.text.as_slice())?;
    Ok(Printed {
        verdict: arranged.verdict,
        text: Items::from_vec(text),
    })
}

/// What a task makes of the job of its files, and of the plan.
pub fn work_on(
    alloc: Global,
    task: Task,
    job: &Job,
    plan: &Option<GivenPlan>,
) -> Result<Printed, NoMemory>
    requires { CanWorkOn task job.now plan.now }
    ensures { IfOk result (λ p. PrintsFor task job.now plan.now p.verdict p.text) }
{
    match task {
        Task::Arrange { strict, budget } => arrange(alloc, strict, budget, job),
        Task::Least { strict, budget } => shrink(alloc, strict, budget, job),
        Task::Audit => match plan {
            Some(plan) => audit_plan(alloc, job, plan),
            None => unreachable!(),
        },
        Task::Check => match plan {
            Some(plan) => check_plan(alloc, job, plan),
            None => unreachable!(),
        },
        Task::Slices => slice(alloc, job),
    }
}
