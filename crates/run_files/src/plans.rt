ghost use Rattle.std.specs.Prelude.{◌≡◌, ◌≢◌, true, List, Some, IsSome, IfOk, IfErr, OnOk, OnErr};
ghost use Rattle.cert_text.specs.Heads.{IsRefusedTree};
ghost use Rattle.cert_text.specs.declared.block.CertRead.{CertRead};
ghost use Rattle.cert_text.specs.declared.block.Kind.{Kind};
ghost use Rattle.seq_io.specs.Views.{ShelfView};
ghost use Rattle.seq_io.specs.declared.mem_file.MemFile.{MemFile};
ghost use Rattle.run_files.specs.Causes.{IsUnstated};
ghost use Rattle.run_files.specs.Files.{HasNamedPlan, IsOnlyPlan, StatesPlan, name_in};
ghost use Rattle.run_files.specs.Loading.{NextPlan};
ghost use Rattle.run_files.specs.Plans.{IsBlockOf, IsOnlyBy, IsStatedBy, can_be_checked, reads_block};
ghost use Rattle.run_files.specs.Stops.{Explains, IsNextFile, NextRead};
ghost use Rattle.run_files.specs.declared.plans.GivenPlan.{GivenPlan};
ghost use Rattle.run_files.specs.declared.stop.NamedFile.{NamedFile};

use crate::reading::read_file;
use crate::stop::{stop_at, stop_of};
use crate::{Asked, Cause, NamedFile, Stop, Task, Unfit};
use cert_text::{CertRead, Head, Kind, read_tree};
use plan_text::{PlanFile, PlanRead, State, read_plan};
use seq_io::Shelf;
use seq_model::Tree;
use std::alloc::Global;

/// A plan that the words name: the lines of its file, and the tree block behind them where the task reads it.
#[derive(Debug, Drop)]
pub struct GivenPlan {
    pub file: PlanFile,
    pub block: Option<(Head, Tree)>,
}

fn can_be_checked(state: State) -> bool
    ensures { result ≡ can_be_checked state }
{
    match state {
        State::Least | State::NoPlan => true,
        State::Found
        | State::OpenBudget
        | State::OpenWide
        | State::UndecidedBudget
        | State::UndecidedWide => false,
    }
}

fn reads_block(task: Task, file: &PlanFile) -> bool
    ensures { result ≡ reads_block task file.now }
{
    match task {
        Task::Check => can_be_checked(file.state) && file.is_block_due(),
        Task::Arrange { .. } | Task::Least { .. } | Task::Audit | Task::Slices => false,
    }
}

// The tree block behind a plan's own lines, where the task reads it.
fn block_of(
    alloc: Global,
    task: Task,
    file: &PlanFile,
    rest: &[u8],
) -> Result<Option<(Head, Tree)>, CertRead>
    ensures is { IfOk result (IsBlockOf (reads_block task file.now) rest.now) }
    ensures due { OnErr result (reads_block task file.now ≡ true) }
    ensures refused { IfErr result (λ e. e ≢ CertRead.NoMemory
        → IsRefusedTree rest.now Kind.Certificate e) }
{
    if !reads_block(task, file) {
        return Ok(None);
    }
    let block = read_tree(alloc, rest, Kind::Certificate)?;
    Ok(Some(block))
}

// The plan that the bytes of a file state.
fn plan_of(alloc: Global, task: Task, bytes: &[u8]) -> Result<GivenPlan, Unfit>
    ensures is { IfOk result (IsStatedBy task bytes.now) }
    ensures only { IfOk result (IsOnlyBy task bytes.now) }
    ensures why { IfErr result (IsUnstated task bytes.now) }
{
    let (file, place) = match read_plan(alloc, bytes) {
        Ok(read) => read,
        Err(PlanRead::NoMemory) => return Err(Unfit::NoMemory),
        Err(e) => return Err(Unfit::Because(Cause::Plan(e))),
    };
    match block_of(alloc, task, &file, &bytes[place..]) {
        Ok(block) => Ok(GivenPlan { file, block }),
        Err(CertRead::NoMemory) => Err(Unfit::NoMemory),
        Err(e) => Err(Unfit::Because(Cause::Block(e))),
    }
}

// The plan that a word names, where it is the next file in word order.
fn load_named_plan<S: Shelf>(alloc: Global, asked: &Asked, shelf: &mut S) -> Result<GivenPlan, Stop>
    ensures is { IfOk result (StatesPlan
        (S.shows shelf.old).files asked.now.task (name_in asked.now NamedFile.Plan)) }
    ensures only { IfOk result (λ plan. (told : List MemFile) (other : GivenPlan)
        → (S.shows shelf.old).files ≡ Some told
        → StatesPlan (Some told) asked.now.task (name_in asked.now NamedFile.Plan) other
        → other ≡ plan) }
    ensures read { OnOk result (NextRead (name_in asked.now NamedFile.Plan)
        (S.shows shelf.old) (S.shows shelf.new)) }
    ensures files { (S.shows shelf.new).files ≡ (S.shows shelf.old).files }
    ensures why { (s : ShelfView) → IsNextFile asked.now NamedFile.Plan s (S.shows shelf.old)
        → IfErr result (Explains asked.now s (S.shows shelf.new)) }
{
    let bytes = match read_file(alloc, asked, NamedFile::Plan, shelf) {
        Ok(bytes) => bytes,
        Err(why) => return Err(stop_of(NamedFile::Plan, why)),
    };
    match plan_of(alloc, asked.task, &bytes) {
        Ok(plan) => Ok(plan),
        Err(why) => Err(stop_at(NamedFile::Plan, why)),
    }
}

/// The plan that the words name, where they name one.
pub fn load_plan<S: Shelf>(
    alloc: Global,
    asked: &Asked,
    shelf: &mut S,
) -> Result<Option<GivenPlan>, Stop>
    ensures is { IfOk result (HasNamedPlan
        (S.shows shelf.old).files asked.now.task asked.now.plan) }
    ensures only { IfOk result (IsOnlyPlan (S.shows shelf.old).files asked.now) }
    ensures read { OnOk result (NextPlan asked.now.plan (S.shows shelf.old) (S.shows shelf.new)) }
    ensures files { (S.shows shelf.new).files ≡ (S.shows shelf.old).files }
    ensures why { (s : ShelfView)
        → (IsSome asked.now.plan → IsNextFile asked.now NamedFile.Plan s (S.shows shelf.old))
        → IfErr result (Explains asked.now s (S.shows shelf.new)) }
{
    if asked.plan.is_none() {
        return Ok(None);
    }
    let plan = load_named_plan(alloc, asked, shelf)?;
    Ok(Some(plan))
}
