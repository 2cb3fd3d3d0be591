//! The top call: words, a shelf of files and two sinks in; a printed text and a status out.
//!
//! `run` does all that the program does. It answers all five commands. Its contract is the promise of the program,
//! by status:
//!
//! - 0: the text that `out` took is the whole text of a plan that is valid on the plate, for the scene that the bytes of the files
//!   describe. Where it calls its extent the least one, no plan is valid at a smaller extent, and its certificate passes `check`. Of a
//!   plan that was given, 0 says that it is valid, or that its claim passes; and then no plan is valid at the extent that it excludes.
//! - 1: no plan is valid at any extent, and the text has a certificate that passes `check`.
//! - 5 and 6: the text has the tree that shows why the search was left undecided, below the plan that it holds, or of the whole plate.
//! - 7: the plan that was given isn't valid, or its claim doesn't pass, and its first fault is told.
//!
//! Of a trial 0, 1 and 6 say this of the files that are made from its number, behind a summary of them; it reads no file.
//!
//! Every other status has its cause. All that `err` takes is stated to the byte, and so is which files are started, each once, and that
//! the first call that fails ends the run.
//!
//! `specs/Runs` says what each status promises, `specs/Statuses` their numbers, `specs/Premises` from what of the files a status follows,
//! and `specs/Printed` what a text does: of a plan that is sought `Arranged`, of one that is given `Judged`, of a trial `Tried`. It stands
//! on `run_files`, which reads the words and the files, and on the crates that search, judge and write.
#![tactic(auto)]

mod planning;
mod status;
mod telling;
mod top;

// The types are exported because the clauses of `run` name them.
pub use status::{Status, Verdict};
pub use top::run;
