//! The program `seqarrange`: the words of its command line, the files of the system, and its two streams.
//!
//! It does nothing itself but make them and call `seq_run::run`, whose contract is the promise of the program.
#![tactic(auto)]

use seq_io::{DirShelf, StdSink};
use seq_run::run;
use std::env;
use std::io::ErrorKind;
use std::process::ExitCode;

/// Ends with the status of the run; with 2 where a word isn't text, with 9 where the words find no memory.
fn main(rt: HostRuntime) -> ExitCode {
    let alloc = rt.alloc();
    let args = match env::args(&rt) {
        Ok(args) => args,
        Err(error) if error.kind() == ErrorKind::OutOfMemory => return ExitCode::from(9),
        Err(_) => return ExitCode::from(2),
    };
    let mut words = Vec::new(alloc);
    for word in args.skip(1) {
        if words.push(word).is_err() {
            return ExitCode::from(9);
        }
    }
    let mut out = StdSink::out(&rt);
    let mut err = StdSink::err(&rt);
    let mut shelf = DirShelf::new(rt);
    ExitCode::from(run(alloc, &words, &mut shelf, &mut out, &mut err))
}
