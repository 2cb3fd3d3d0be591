//! The lines that go to `err`: of refused words, and of a file that stops a run.
//!
//! Each is stated to the byte in `specs/Messages.antt`, and each call gives exactly the line of its cause. It stands on the reading of
//! files, whose causes it tells, and below the top call.
#![tactic(auto)]

mod messages;

pub use messages::{input_line, words_line};
