ghost use Rattle.std.specs.Prelude.{◌≡◌, ◌⊎◌, IfOk, IfErr};
ghost use Rattle.seq_words.specs.Usages.{texts};
ghost use Rattle.seq_words.specs.Asked.{IsDue, IsWithinLimits, asked, asked_arrange, asked_audit, asked_check, asked_slices, asked_trial};

use crate::command::{Command, Opt, Words};
use crate::found::{budget, found, is_on, meshes, text, word};
use crate::numbers::number_for;
use crate::usage::{ARRANGE, AUDIT, CHECK, Name, SLICES, TRIAL};
use seq_limits::MOST_OBJECTS;
use std::alloc::Global;

/// What the words ask for. They don't hold the program's name.
pub fn read(alloc: Global, words: &[String]) -> Result<Command, Words>
    ensures ok { IfOk result (λ command. asked (texts words.now) ≡ Ok command) }
    ensures limits { IfOk result IsWithinLimits }
    ensures err { IfErr result (λ refusal. (refusal ≡ Words.NoMemory)
        ⊎ (asked (texts words.now) ≡ Err refusal)) }
{
    let Some(name) = words.first() else {
        return Err(Words::Unknown);
    };
    let name = name.as_str();
    if name == "arrange" {
        read_arrange(alloc, words)
    } else if name == "check" {
        read_check(alloc, words)
    } else if name == "audit" {
        read_audit(alloc, words)
    } else if name == "slices" {
        read_slices(alloc, words)
    } else if name == "trial" {
        read_trial(alloc, words)
    } else {
        Err(Words::Unknown)
    }
}

#[tactic(auto, using(crate::proofs::Free::arrange_is_free))]
fn read_arrange(alloc: Global, words: &[String]) -> Result<Command, Words>
    ensures ok { IfOk result (λ command. asked_arrange (texts words.now) ≡ Ok command) }
    ensures limits { IfOk result IsWithinLimits }
    ensures err { IfErr result (IsDue (asked_arrange (texts words.now))) }
{
    let matches = found(alloc, "arrange", ARRANGE, words)?;
    let least = is_on(&matches, Name::Least);
    let strict = is_on(&matches, Name::Strict);
    let budget = budget(&matches)?;
    let printer = text(alloc, &matches, Name::Printer)?;
    let meshes = meshes(alloc, &matches)?;
    Ok(Command::Arrange {
        least,
        strict,
        budget,
        printer,
        meshes,
    })
}

#[tactic(auto, using(crate::proofs::Free::check_is_free))]
fn read_check(alloc: Global, words: &[String]) -> Result<Command, Words>
    ensures ok { IfOk result (λ command. asked_check (texts words.now) ≡ Ok command) }
    ensures limits { IfOk result IsWithinLimits }
    ensures err { IfErr result (IsDue (asked_check (texts words.now))) }
{
    let matches = found(alloc, "check", CHECK, words)?;
    let printer = text(alloc, &matches, Name::Printer)?;
    let plan = text(alloc, &matches, Name::Plan)?;
    let meshes = meshes(alloc, &matches)?;
    Ok(Command::Check {
        printer,
        plan,
        meshes,
    })
}

#[tactic(auto, using(crate::proofs::Free::audit_is_free))]
fn read_audit(alloc: Global, words: &[String]) -> Result<Command, Words>
    ensures ok { IfOk result (λ command. asked_audit (texts words.now) ≡ Ok command) }
    ensures limits { IfOk result IsWithinLimits }
    ensures err { IfErr result (IsDue (asked_audit (texts words.now))) }
{
    let matches = found(alloc, "audit", AUDIT, words)?;
    let printer = text(alloc, &matches, Name::Printer)?;
    let plan = text(alloc, &matches, Name::Plan)?;
    let meshes = meshes(alloc, &matches)?;
    Ok(Command::Audit {
        printer,
        plan,
        meshes,
    })
}

#[tactic(auto, using(crate::proofs::Free::slices_is_free))]
fn read_slices(alloc: Global, words: &[String]) -> Result<Command, Words>
    ensures ok { IfOk result (λ command. asked_slices (texts words.now) ≡ Ok command) }
    ensures limits { IfOk result IsWithinLimits }
    ensures err { IfErr result (IsDue (asked_slices (texts words.now))) }
{
    let matches = found(alloc, "slices", SLICES, words)?;
    let printer = text(alloc, &matches, Name::Printer)?;
    let mesh = text(alloc, &matches, Name::Stl)?;
    Ok(Command::Slices { printer, mesh })
}

#[tactic(auto, using(crate::proofs::Free::trial_is_free))]
fn read_trial(alloc: Global, words: &[String]) -> Result<Command, Words>
    ensures ok { IfOk result (λ command. asked_trial (texts words.now) ≡ Ok command) }
    ensures limits { IfOk result IsWithinLimits }
    ensures err { IfErr result (IsDue (asked_trial (texts words.now))) }
{
    let matches = found(alloc, "trial", TRIAL, words)?;
    let objects = number_for(Opt::K, 1, MOST_OBJECTS as u64, word(&matches, Name::K))?;
    let seed = number_for(Opt::N, 0, 4_294_967_295, word(&matches, Name::N))?;
    Ok(Command::Trial {
        objects: objects as u32,
        seed,
    })
}
