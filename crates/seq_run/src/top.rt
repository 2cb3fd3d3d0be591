ghost use Rattle.std.specs.Prelude.{◌≡◌, ◌≢◌, ◌≤◌, ◌<◌, ◌^◌, ◌∷◌, [], List, Some, IsErr, IfOk, IfErr, OnOk};
ghost use Rattle.run_files.specs.Stops.{Explains, ReadUpTo, last_of};
ghost use Rattle.run_files.specs.Words.{Asks, IsRequest, requested};
ghost use Rattle.seq_io.specs.declared.mem_file.MemFile.{MemFile};
ghost use Rattle.seq_run.specs.Planning.{CanWorkOn, PrintsFor};
ghost use Rattle.seq_run.specs.Premises.{AsksTrial, HasEnough, HasFaultyPlan, HasFaultlessPlan, HasNoPlan, IsUnusable, IsUsable};
ghost use Rattle.seq_run.specs.Printed.{Answers};
ghost use Rattle.seq_run.specs.Runs.{AskedEnds, RunEnds, HasAnswered, IsMisworded, IsUnreadFile, IsUnwritten, IsWanting, IsWrongFile, RefusalEnds, TrialEnds};
ghost use Rattle.seq_run.specs.Statuses.{IsOneOf};
ghost use Rattle.seq_run.specs.declared.status.Verdict.{Verdict};
ghost use Rattle.seq_words.specs.Usages.{texts};

use crate::Status;
use crate::planning::{Printed, try_out, work_on};
use crate::status::{code_of, status_of};
use crate::telling::{Answer, deliver, tell};
use run_files::{Asked, Loaded, Request, Stop, Task, load, read_request};
use run_lines::words_line;
use seq_io::{Shelf, Sink, SinkFault, write_all};
use seq_limits::MOST_OBJECTS;
use seq_num::NoMemory;
use seq_words::Words;
use std::alloc::Global;

// What a task makes of what was loaded.
fn answer_of(alloc: Global, task: Task, loaded: Loaded) -> Result<Answer, NoMemory>
    requires { CanWorkOn task loaded.job loaded.plan }
    ensures prints { IfOk result
        (λ answer. PrintsFor task loaded.job loaded.plan answer.verdict answer.text) }
    ensures notes { IfOk result (λ answer. answer.notes ≡ loaded.notes) }
{
    let Loaded { job, plan, notes } = loaded;
    let Printed { verdict, text } = work_on(alloc, task, &job, &plan)?;
    Ok(Answer {
        verdict,
        notes,
        text,
    })
}

// What the files that the words name give.
fn work<S: Shelf>(alloc: Global, asked: &Asked, shelf: &mut S) -> Result<Answer, Stop>
    requires { IsRequest asked.now }
    ensures answers { IfOk result (λ answer. Answers (S.shows shelf.old).files asked.now
        answer.verdict answer.notes answer.text) }
    ensures read { OnOk result (ReadUpTo asked.now (last_of asked.now)
        (S.shows shelf.old) (S.shows shelf.new)) }
    ensures why { IfErr result (Explains asked.now (S.shows shelf.old) (S.shows shelf.new)) }
{
    let loaded = load(alloc, asked, shelf)?;
    let answer = answer_of(alloc, asked.task, loaded)?;
    Ok(answer)
}

// Writes the line of refused words, which takes no memory.
fn refuse<E: Sink>(why: Words, err: &mut E) -> Status
    ensures { RefusalEnds why (E.shows err.old) (E.shows err.new) result }
{
    if write_all(err, words_line(why)).is_err() {
        return Status::WriteFault;
    }
    match why {
        Words::NoMemory => Status::NoMemory,
        _ => Status::WrongWords,
    }
}

// Does what the words ask for, and writes what comes of it.
fn answer<S: Shelf, O: Sink, E: Sink>(
    alloc: Global,
    asked: &Asked,
    shelf: &mut S,
    out: &mut O,
    err: &mut E,
) -> Status
    requires { IsRequest asked.now }
    ensures { AskedEnds asked.now (S.shows shelf.old) (S.shows shelf.new)
        (E.shows err.old) (E.shows err.new) (O.shows out.old) (O.shows out.new) result }
{
    match work(alloc, asked, shelf) {
        Ok(answer) => match deliver(&answer, out, err) {
            Ok(()) => Status::Answered(answer.verdict),
            Err(SinkFault) => Status::WriteFault,
        },
        Err(stop) => match tell(alloc, asked, stop, err) {
            Ok(told) => status_of(&told),
            Err(_) => Status::WriteFault,
        },
    }
}

// Makes the files of a trial, and writes what comes of them. No file is read.
fn try_files<O: Sink, E: Sink>(
    alloc: Global,
    objects: u32,
    seed: u64,
    out: &mut O,
    err: &mut E,
) -> Status
    requires some { 1 ≤ objects }
    requires few { objects ≤ MOST_OBJECTS }
    requires seed { seed < 2 ^ 32 }
    ensures { TrialEnds objects seed (E.shows err.old) (E.shows err.new)
        (O.shows out.old) (O.shows out.new) result }
{
    match try_out(alloc, objects, seed) {
        Ok(printed) => match write_all(out, printed.text.as_slice()) {
            Ok(()) => Status::Answered(printed.verdict),
            Err(_) => Status::WriteFault,
        },
        Err(NoMemory) => match write_all(err, b"memory\n") {
            Ok(()) => Status::NoMemory,
            Err(_) => Status::WriteFault,
        },
    }
}

// How a run ends.
fn end<S: Shelf, O: Sink, E: Sink>(
    alloc: Global,
    words: &Vec<String>,
    shelf: &mut S,
    out: &mut O,
    err: &mut E,
) -> Status
    ensures { RunEnds (texts words.now.items) (S.shows shelf.old) (S.shows shelf.new)
        (E.shows err.old) (E.shows err.new) (O.shows out.old) (O.shows out.new) result }
{
    match read_request(alloc, words) {
        Ok(Request::OfFiles(asked)) => answer(alloc, &asked, shelf, out, err),
        Ok(Request::Trial { objects, seed }) => try_files(alloc, objects, seed, out, err),
        Err(why) => refuse(why, err),
    }
}

/// All that the program does, with its exit status.
///
/// The words don't hold the program's name. Nothing is written before the whole text stands in memory.
pub fn run<S: Shelf, O: Sink, E: Sink>(
    alloc: Global,
    words: &Vec<String>,
    shelf: &mut S,
    out: &mut O,
    err: &mut E,
) -> u8
    ensures statuses { result ≤ 9 }

    // 0: `err` took the notes, and then `out` the whole text: of a plan that is valid on the plate; of a plan at the least extent, with
    // the certificate for the one below; of the object's bands; or that the plan that was given is valid, or its claim passes. Of a
    // trial it took the summary, and then such a plan; `err` took nothing.
    ensures found { result ≡ 0 → HasAnswered Verdict.Done (texts words.now.items)
        (S.shows shelf.old) (S.shows shelf.new)
        (E.shows err.old) (E.shows err.new) (O.shows out.old) (O.shows out.new) }
    ensures good_always { (files : List MemFile) → (S.shows shelf.old).files ≡ Some files
        → Asks (texts words.now.items) (HasFaultlessPlan (Some files))
        → IsOneOf (0 ∷ 3 ∷ 8 ∷ 9 ∷ []) result }

    // 1: only where no plan is valid; `err` took the notes, and then `out` the text that says so, with a certificate that passes.
    ensures none { result ≡ 1 → HasAnswered Verdict.NoPlan (texts words.now.items)
        (S.shows shelf.old) (S.shows shelf.new)
        (E.shows err.old) (E.shows err.new) (O.shows out.old) (O.shows out.new) }
    ensures none_always { (files : List MemFile) → (S.shows shelf.old).files ≡ Some files
        → Asks (texts words.now.items) (HasNoPlan (Some files))
        → IsOneOf (1 ∷ 3 ∷ 6 ∷ 8 ∷ 9 ∷ []) result }

    // 5: a plan that is valid at its extent was found, and the extent below left undecided; `out` took the tree that shows why.
    ensures still_open { result ≡ 5 → HasAnswered Verdict.Open (texts words.now.items)
        (S.shows shelf.old) (S.shows shelf.new)
        (E.shows err.old) (E.shows err.new) (O.shows out.old) (O.shows out.new) }

    // 6: the whole plate was left undecided; `out` took the tree that shows why. With a budget that is enough neither 5 nor 6 comes.
    ensures undecided { result ≡ 6
        → HasAnswered Verdict.Undecided (texts words.now.items)
        (S.shows shelf.old) (S.shows shelf.new)
        (E.shows err.old) (E.shows err.new) (O.shows out.old) (O.shows out.new) }
    ensures decided_always { (files : List MemFile) → (S.shows shelf.old).files ≡ Some files
        → Asks (texts words.now.items) (HasEnough (Some files))
        → IsOneOf (0 ∷ 1 ∷ 3 ∷ 8 ∷ 9 ∷ []) result }

    // 7: exactly where the plan that is to be audited isn't valid, or the claim that is to be checked doesn't pass; `out` took its
    // first fault.
    ensures fault { result ≡ 7 → HasAnswered Verdict.Fault (texts words.now.items)
        (S.shows shelf.old) (S.shows shelf.new)
        (E.shows err.old) (E.shows err.new) (O.shows out.old) (O.shows out.new) }
    ensures fault_always { (files : List MemFile) → (S.shows shelf.old).files ≡ Some files
        → Asks (texts words.now.items) (HasFaultyPlan (Some files))
        → IsOneOf (3 ∷ 7 ∷ 8 ∷ 9 ∷ []) result }

    // a trial is of files that are made: none is read, and none of them can be refused.
    ensures trial { AsksTrial (texts words.now.items)
        → IsOneOf (0 ∷ 1 ∷ 6 ∷ 8 ∷ 9 ∷ []) result }

    // 2: exactly where the words are refused; no file is started.
    ensures words { result ≡ 2 → IsMisworded (texts words.now.items)
        (S.shows shelf.old) (S.shows shelf.new) (E.shows err.old) (E.shows err.new) }
    ensures words_always { IsErr (requested (texts words.now.items))
        → IsOneOf (2 ∷ 8 ∷ 9 ∷ []) result }

    // 3: only where the shelf failed at a file that the words name, once those before it were found usable.
    ensures read { result ≡ 3 → Asks (texts words.now.items) (λ a. IsUnreadFile a
        (S.shows shelf.old) (S.shows shelf.new) (E.shows err.old) (E.shows err.new)) }

    // 4: exactly where the first file in word order that can't be used is refused for its bytes.
    ensures input { result ≡ 4 → Asks (texts words.now.items) (λ a. IsWrongFile a
        (S.shows shelf.old) (S.shows shelf.new) (E.shows err.old) (E.shows err.new)) }
    ensures input_always { Asks (texts words.now.items) (IsUnusable (S.shows shelf.old).files)
        → IsOneOf (3 ∷ 4 ∷ 8 ∷ 9 ∷ []) result }
    ensures input_only { (files : List MemFile) → (S.shows shelf.old).files ≡ Some files
        → result ≡ 4
        → Asks (texts words.now.items) (IsUsable (Some files)) → ⊥ }

    // 8: exactly where a sink failed, within its text; `out` is written after `err`.
    ensures write { result ≡ 8 → IsUnwritten (texts words.now.items)
        (S.shows shelf.old) (S.shows shelf.new)
        (E.shows err.old) (E.shows err.new) (O.shows out.old) (O.shows out.new) }
    ensures err_calm { result ≢ 8 → (E.shows err.new).faults ≡ (E.shows err.old).faults }
    ensures out_calm { result ≢ 8 → (O.shows out.new).faults ≡ (O.shows out.old).faults }

    // 9: want of memory.
    ensures memory { result ≡ 9 → IsWanting (texts words.now.items)
        (S.shows shelf.old) (S.shows shelf.new) (E.shows err.old) (E.shows err.new) }

    ensures silent { IsOneOf (2 ∷ 3 ∷ 4 ∷ 9 ∷ []) result → O.shows out.new ≡ O.shows out.old }
    ensures calm { result ≢ 3 → result ≢ 8
        → (S.shows shelf.new).faults ≡ (S.shows shelf.old).faults }
{
    code_of(end(alloc, words, shelf, out, err))
}
