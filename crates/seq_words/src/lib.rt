//! The words of a command line, read into a command.
//!
//! Each command is one entry of the table in `usage.rt`: the arguments that it takes, in order. From this entry
//! clap's command is built, and by the same entry the definition `asked` says which words are accepted and what they
//! ask for. So the main contract, that of `read`, holds both ways: the command is the one that the words spell, a
//! refusal is the one that they deserve, and only want of memory may come in place of either.
//!
//! A further command is one entry there and one variant of `Command`, with the few lines in `Asked.antt` and `reading.rt`
//! that say what it makes of its arguments.
//!
//! It stands before all else: the top call reads its words here before it opens a file.
#![tactic(auto)]

mod command;
mod found;
mod numbers;
mod reading;
mod usage;

pub use command::{Command, Opt, Words};
pub use reading::read;
