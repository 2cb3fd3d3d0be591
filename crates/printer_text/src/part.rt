//! A listed part.

ghost use Rattle.std.specs.Prelude.{◌≡◌, ◌≤ℤ◌, ◌≤◌, ◌⊎◌, pos, Some, None, Ok, Err, IfOk, IfErr, IfSome, All, ◌++◌, option_map};
ghost use Rattle.seq_model.specs.Parts.{IsPartName};
ghost use Rattle.toml.specs.View.{table_view};
ghost use Rattle.printer_text.specs.Keys.{part_keys, outline_keys};
ghost use Rattle.printer_text.specs.Outlines.{AreSizes, IsOutline, IsListedPart};
ghost use Rattle.printer_text.specs.Printers.{outline_in, part_in};
ghost use Rattle.printer_text.specs.Tables.{reading, about, said_first, names, prn_of, first_other};
ghost use Rattle.printer_text.specs.declared.top.Sizes.{Sizes};
ghost use Rattle.printer_text.specs.Values.{StopsKey};

use crate::keys::{
    Unread, axis_if, corners_at, first_other, grains_at, length_at, length_if, name_at,
};
use crate::top::Sizes;
use crate::values::{Bad, Cause};
use crate::{Key, Prn};
use owned_lists::{Items, Text};
use printer_envelopes::{bands_of, bar_corners};
use seq_limits::{FARTHEST, GREATEST_REACH, LONGEST_NAME};
use seq_model::{Part, Spot};
use std::alloc::Global;
use toml::Table;

// The same, as the readers of lengths take it.
const REACH: i64 = GREATEST_REACH as i64;

/// Where a part begins and ends above the tip, in µm, and whether it is a bar, along x or y.
#[derive(Clone, Copy, Debug)]
pub struct Heights {
    pub from: i64,
    pub to: Option<i64>,
    pub bar: Option<bool>,
}

/// The refusal of a key in the table of this number.
pub fn refusal(number: u32, bad: Bad) -> Prn
    ensures { result ≡ prn_of number bad }
{
    match bad.cause {
        Cause::Missing => Prn::Missing(bad.key, number),
        Cause::Kind => Prn::Kind(bad.key, number),
        Cause::FloatLength => Prn::FloatLength(bad.key, number),
        Cause::Number => Prn::Number(bad.key, number),
        Cause::Range => Prn::Range(bad.key, number),
        Cause::OffGrain => Prn::OffGrain(bad.key, number),
        Cause::TooMany => Prn::TooManyParts,
    }
}

/// The refusal of another key in the table of this number.
pub fn unknown(alloc: Global, text: &str, number: u32) -> Prn
    ensures { (result ≡ Prn.NoMemory) ⊎ (result ≡ Prn.Unknown text.now number) }
{
    match Text::from_str(alloc, text) {
        Ok(text) => Prn::Unknown(text, number),
        Err(_) => Prn::NoMemory,
    }
}

// The name and the heights.
fn read_first(table: &Table) -> Result<(&str, Heights), Bad>
    ensures ok { IfOk result
        (λ first. (sizes : Sizes)
        → reading part_keys (table_view table.now) (about sizes)
        ≡ Ok (said_first sizes first.0.now first.1)) }
    ensures name { IfOk result (λ first. IsPartName first.0.now) }
    ensures from_low { IfOk result (λ first. pos 0 ≤ℤ first.1.from) }
    ensures from_high { IfOk result (λ first. first.1.from ≤ℤ pos FARTHEST) }
    ensures to { IfOk result
        (λ first. IfSome first.1.to (λ to. (first.1.from ≤ℤ to) × (to ≤ℤ pos FARTHEST))) }
    ensures err { IfErr result
        (λ bad. (sizes : Sizes)
        → reading part_keys (table_view table.now) (about sizes) ≡ Err bad) }
{
    let name = name_at(table, Key::Name, 1, LONGEST_NAME)?;
    let from = length_at(table, Key::From, 0, i64::from(FARTHEST))?;
    let to = length_if(table, Key::To, from, i64::from(FARTHEST))?;
    let bar = axis_if(table, Key::Bar)?;
    Ok((name, Heights { from, to, bar }))
}

// The corners of a bar.
#[tactic(auto, unfolding(crate::specs::Printers::outline_in))]
fn bar_outline(
    alloc: Global,
    table: &Table,
    sizes: &Sizes,
    along_x: bool,
) -> Result<Vec<Spot>, Unread>
    requires { AreSizes sizes.now }
    ensures outline { IfOk result (λ spots. IsOutline spots.items) }
    ensures ok { IfOk result
        (λ spots. outline_in sizes.now (Some along_x) (table_view table.now) ≡ Ok spots.items) }
    ensures err { IfErr result
        (StopsKey (outline_in sizes.now (Some along_x) (table_view table.now))) }
{
    let low = match grains_at(table, Key::Low, sizes.grain, -REACH, REACH) {
        Ok(low) => low,
        Err(bad) => return Err(Unread::Bad(bad)),
    };
    let high = match grains_at(table, Key::High, sizes.grain, low, REACH) {
        Ok(high) => high,
        Err(bad) => return Err(Unread::Bad(bad)),
    };
    match Vec::from_array(
        alloc,
        bar_corners(along_x, low, high, sizes.width, sizes.depth),
    ) {
        Ok(spots) => Ok(spots),
        Err(_) => Err(Unread::NoMemory),
    }
}

// The corners that a part lists, or those of its bar.
#[tactic(auto, unfolding(crate::specs::Printers::outline_in))]
fn outline(
    alloc: Global,
    table: &Table,
    sizes: &Sizes,
    bar: Option<bool>,
) -> Result<Vec<Spot>, Unread>
    requires { AreSizes sizes.now }
    ensures outline { IfOk result (λ spots. IsOutline spots.items) }
    ensures ok { IfOk result
        (λ spots. outline_in sizes.now bar (table_view table.now) ≡ Ok spots.items) }
    ensures err { IfErr result (StopsKey (outline_in sizes.now bar (table_view table.now))) }
{
    match bar {
        None => corners_at(alloc, table, Key::Corners, sizes.grain, -REACH, REACH),
        Some(along_x) => bar_outline(alloc, table, sizes, along_x),
    }
}

// The first key that a part with this bar, or without one, may not have.
fn other_key(table: &Table, bar: Option<bool>) -> Option<&str>
    ensures { option_map (λ text. text.now) result
        ≡ first_other (names (part_keys ++ outline_keys bar)) (table_view table.now) }
{
    match bar {
        None => first_other(
            table,
            &[Key::Name, Key::From, Key::To, Key::Bar, Key::Corners],
        ),
        Some(_) => first_other(
            table,
            &[Key::Name, Key::From, Key::To, Key::Bar, Key::Low, Key::High],
        ),
    }
}

/// The part that the table of this number lists, with its corners as they are listed.
#[tactic(auto, unfolding(crate::specs::Printers::part_in))]
pub fn read_part(alloc: Global, number: u32, table: &Table, sizes: &Sizes) -> Result<Part, Prn>
    requires { AreSizes sizes.now }
    ensures listed { IfOk result IsListedPart }
    ensures ok { IfOk result (λ part. part_in number sizes.now (table_view table.now) ≡ Ok part) }
    ensures err { IfErr result
        (λ e. (e ≡ Prn.NoMemory) ⊎ (part_in number sizes.now (table_view table.now) ≡ Err e)) }
{
    let (name, heights) = match read_first(table) {
        Ok(first) => first,
        Err(bad) => return Err(refusal(number, bad)),
    };
    let corners = match outline(alloc, table, sizes, heights.bar) {
        Ok(corners) => corners,
        Err(Unread::NoMemory) => return Err(Prn::NoMemory),
        Err(Unread::Bad(bad)) => return Err(refusal(number, bad)),
    };
    if let Some(text) = other_key(table, heights.bar) {
        return Err(unknown(alloc, text, number));
    }
    let (lo, hi) = bands_of(heights.from, heights.to, sizes.step);
    match Text::from_str(alloc, name) {
        Ok(name) => Ok(Part {
            name,
            corners: Items::from_vec(corners),
            lo,
            hi,
        }),
        Err(_) => Err(Prn::NoMemory),
    }
}
