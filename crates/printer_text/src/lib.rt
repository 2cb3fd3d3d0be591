//! Printer descriptions: a TOML document of a printer's sizes and of the parts that move with its nozzle tip.
//!
//! `read_printer` answers the printer of a description exactly where the bytes state one, and each refusal exactly where the
//! tables of keys give it: the first key that is wrong, in the order in which they are tested, with its first fault.
//! `specs/Keys` is those tables, written down apart from the code; `specs/Values` is how a value of each kind is read,
//! `specs/Tables` how a table is read by its keys, and `specs/Printers` what all of it says of a printer. These three speak
//! of the causes and the sizes that the code has.
//!
//! It stands between the bytes of the description and all crates that ask for a printer. The crate toml makes the tree; the
//! listed corners of a part are read as they are, and the printer keeps the corners of their hull.
#![tactic(auto)]

ghost use Rattle.std.specs.Prelude.{◌≡◌};
ghost use Rattle.printer_text.specs.Values.{key_name};

mod keys;
mod part;
mod printer;
mod top;
mod values;

use owned_lists::Text;
pub use printer::{one_description, read_printer};
use thiserror::Error;

/// A key of a description.
#[derive(Clone, Copy, Debug, PartialEq, Eq)]
pub enum Key {
    Format,
    Grain,
    Plate,
    Step,
    Margin,
    Grid,
    Part,
    Name,
    From,
    To,
    Bar,
    Corners,
    Low,
    High,
}

/// Why bytes describe no printer. The number beside a key is 0 for the top table and 1 + p for listed part p.
#[derive(Debug, Drop, Error)]
pub enum Prn {
    /// The bytes are no TOML, or not UTF-8.
    #[error("the description is refused")]
    Toml,
    #[error("the description is refused")]
    Missing(Key, u32),
    /// The value is of another kind than the key asks for, or an array has another number of elements.
    #[error("the description is refused")]
    Kind(Key, u32),
    /// A length is a TOML float.
    #[error("the description is refused")]
    FloatLength(Key, u32),
    /// A length is a string that spells none.
    #[error("the description is refused")]
    Number(Key, u32),
    #[error("the description is refused")]
    Range(Key, u32),
    /// A length that has to lie on the grain is no whole multiple of it.
    #[error("the description is refused")]
    OffGrain(Key, u32),
    /// The first other key of the table, in byte order.
    #[error("the description is refused")]
    Unknown(Text, u32),
    #[error("the description is refused")]
    TooManyParts,
    #[error("memory")]
    NoMemory,
}

/// The spelling of a key in a description.
pub fn key_text(key: Key) -> &'static str
    ensures { result.now ≡ key_name key }
{
    match key {
        Key::Format => "format",
        Key::Grain => "grain",
        Key::Plate => "plate",
        Key::Step => "step",
        Key::Margin => "margin",
        Key::Grid => "grid",
        Key::Part => "part",
        Key::Name => "name",
        Key::From => "from",
        Key::To => "to",
        Key::Bar => "bar",
        Key::Corners => "corners",
        Key::Low => "low",
        Key::High => "high",
    }
}
