//! Where bytes come from and where they go: shelves of files that are read, and sinks that are written.
//!
//! Everything that the program reads or writes passes through two traits, `Shelf` and `Sink`. Each has a version in
//! memory, whose contents contracts can name, one that never fails, and one over the system's files and streams,
//! of which nothing is told but how many files were started and how many calls failed. `read_all` gives the bytes of a
//! file, or says why not; `write_all` writes all bytes, or a proper part of them. Both end with the first call that
//! fails: a device counts each failure, so nothing above can make one up, pass over one or try a call again.
//! (That the system's devices answer each failure of the system is tested, not proved.)
//!
//! It stands above `seq_num` and below the top call, which takes its shelf and its sinks as type parameters.
#![tactic(auto)]

mod dir_shelf;
mod mem_file;
mod mem_shelf;
mod mem_sink;
mod open_files;
mod shelf;
mod sink;
mod std_sink;
mod sure_shelf;
mod sure_sink;

pub use dir_shelf::DirShelf;
pub use mem_file::MemFile;
pub use mem_shelf::MemShelf;
pub use mem_sink::MemSink;
pub use shelf::{ReadAll, Shelf, read_all};
pub use sink::{Sink, SinkFault, write_all};
pub use std_sink::StdSink;
pub use sure_shelf::SureShelf;
pub use sure_sink::SureSink;

/// A call of a shelf or a sink failed.
#[derive(Clone, Copy, Debug, PartialEq, Eq)]
pub struct Failed;
