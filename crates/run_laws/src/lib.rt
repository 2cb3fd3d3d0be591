//! What `arrange` claims passes `check`, over files.
//!
//! A text that `arrange` prints of a least extent, or of no plan, is saved under a name, and the printer and the meshes stay as they were.
//! Then the files can be used to check it, and its claim passes, with the extent that the text excludes: 0 below extent 1. By the clauses of
//! `run` a check of them prints just that, unless reading or writing fails or memory is wanting.
//!
//! The law is the contract of a call that does nothing. It stands on the top call, for what its texts are.
#![tactic(auto)]

ghost use Rattle.std.specs.Prelude.{ℕ, List, Some};
ghost use Rattle.run_files.specs.declared.words.Asked.{Asked};
ghost use Rattle.run_laws.specs.Checking.{IsClaimed, IsSaved, check_of};
ghost use Rattle.seq_io.specs.declared.mem_file.MemFile.{MemFile};
ghost use Rattle.seq_run.specs.Premises.{HasFaultlessPlan};
ghost use Rattle.seq_run.specs.Printed.{Answers};
ghost use Rattle.seq_run.specs.declared.status.Verdict.{Verdict};

/// `before` are the files when the text was printed, and `after` those in which it stands under the name.
pub fn what_is_arranged_passes_check()
    ensures { (before after : List MemFile) (a : Asked) (verdict : Verdict)
        (notes text name : List ℕ)
        → Answers (Some before) a verdict notes text → IsClaimed a.task verdict
        → IsSaved before after a text name → HasFaultlessPlan (Some after) (check_of a name) }
{}
