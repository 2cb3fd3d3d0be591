//! Lines of text: a fixed text, a whole number, and the end of a line, read at the front of some bytes and appended to a text.
//!
//! Each reader is a function on lists, with a law both ways: `literal`, `whole` and `number_line` read a text, a number or a
//! line exactly where it stands, and what stands at the front of some bytes determines its value and the bytes after it.
//! `put_number` and `put_line` append what these read.
//!
//! Only the spelling of numbers lies below. The readers and writers of plans and of trees are chains of these calls; so are the
//! other texts that a run prints.
#![tactic(auto)]

mod laws;
mod lines;
mod reading;
mod writing;

pub use laws::{
    line_is_read_where_it_stands, literal_is_read_where_it_stands, one_reading,
    whole_is_read_where_it_stands,
};
pub use lines::number_line;
pub use reading::{has_line_end, literal, whole};
pub use writing::{put_line, put_number};

#[cfg(test)]
mod tests;
