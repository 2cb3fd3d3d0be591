//! The whole description.

ghost use Rattle.std.specs.Prelude.{◌≡◌, ◌≤◌, ◌⊎◌, List, ℕ, [], ◌∷◌, Ok, Err, IfOk, IfErr, IfSome, All, length, option_map};
ghost use Rattle.seq_model.specs.Parts.{tip, AreParts, IsSoundPart};
ghost use Rattle.seq_model.specs.Scenes.{Description, description_of};
ghost use Rattle.seq_model.specs.declared.printer.Part.{Part};
ghost use Rattle.toml.specs.View.{table_view, items_view};
ghost use Rattle.printer_text.specs.Keys.{top_keys};
ghost use Rattle.printer_text.specs.Outlines.{AreSizes, IsListedPart};
ghost use Rattle.printer_text.specs.Printers.{top_in, parts_behind, IsKept, ArePartsOf, description_in, description_with, DescribedBy, AreKept, PrinterOf, IsRefusedPrinter};
ghost use Rattle.printer_text.specs.Tables.{said_top};
ghost use Rattle.printer_text.specs.declared.Prn.{Prn};

use crate::keys::first_other;
use crate::part::{read_part, refusal, unknown};
use crate::top::{Sizes, read_top};
use crate::{Key, Prn};
use convex_outline::hull;
use owned_lists::{Items, Text};
use seq_limits::MOST_LISTED_PARTS;
use seq_model::{Part, Printer, Spot};
use seq_num::NoMemory;
use std::alloc::{AllocError, Global};
use toml::{Table, Value};

// The tip: part 0 of every printer.
fn tip(alloc: Global) -> Result<Part, AllocError>
    ensures { IfOk result (λ part. part ≡ tip) }
{
    let mut corners = Items::new(alloc);
    corners.push(Spot { x: 0, y: 0 })?;
    Ok(Part {
        name: Text::from_str(alloc, "tip")?,
        corners,
        lo: 0,
        hi: Some(0),
    })
}

// The tip alone, before any listed part.
fn tip_alone(alloc: Global) -> Result<Vec<Part>, AllocError>
    ensures { IfOk result (λ parts. parts.items ≡ tip ∷ []) }
{
    let mut parts = Vec::new(alloc);
    parts.push(tip(alloc)?)?;
    Ok(parts)
}

// The part with the corners of its hull.
fn kept_part(alloc: Global, part: Part) -> Result<Part, NoMemory>
    requires { IsListedPart part }
    ensures kept { IfOk result (λ kept. IsKept part kept) }
    ensures sound { IfOk result (λ kept. IsSoundPart kept) }
{
    let corners = hull(alloc, part.corners.as_slice())?;
    Ok(Part {
        name: part.name,
        corners: Items::from_vec(corners),
        lo: part.lo,
        hi: part.hi,
    })
}

// The tip and the listed parts behind it, with the corners of their hulls.
fn read_parts(alloc: Global, sizes: &Sizes, listed: &[Value]) -> Result<Vec<Part>, Prn>
    requires sizes { AreSizes sizes.now }
    requires few { length listed.now ≤ MOST_LISTED_PARTS }
    ensures ok { IfOk result (λ parts. ArePartsOf sizes.now (items_view listed.now) parts.items) }
    ensures err { IfErr result (λ e. (e ≡ Prn.NoMemory)
        ⊎ (parts_behind 1 sizes.now (tip ∷ []) (items_view listed.now) ≡ Err e)) }
{
    let Ok(mut parts) = tip_alone(alloc) else {
        return Err(Prn::NoMemory);
    };
    for (index, value) in listed.iter().enumerate() {
        let Some(table) = value.as_table() else {
            return Err(Prn::Kind(Key::Part, 0));
        };
        let part = read_part(alloc, index as u32 + 1, table, sizes)?;
        let Ok(kept) = kept_part(alloc, part) else {
            return Err(Prn::NoMemory);
        };
        if parts.push(kept).is_err() {
            return Err(Prn::NoMemory);
        }
    }
    Ok(parts)
}

fn printer_with(sizes: Sizes, parts: Items<Part>) -> Printer
    requires sizes { AreSizes sizes }
    requires parts { AreParts parts }
    ensures { description_of result result.parts ≡ description_with sizes parts }
{
    Printer {
        grain: sizes.grain,
        width: sizes.width,
        depth: sizes.depth,
        step: sizes.step,
        margin: sizes.margin,
        grid: sizes.grid,
        parts,
    }
}

// The sizes and the listed parts of a top table that has no other key.
#[tactic(auto, unfolding(crate::specs::Printers::top_in))]
fn top_alone<'a>(alloc: Global, table: &'a Table) -> Result<(Sizes, Option<&'a [Value]>), Prn>
    ensures ok { IfOk result (λ top. top_in (table_view table.now)
        ≡ Ok (said_top top.0 (option_map (λ values. items_view values.now) top.1))) }
    ensures ranged { IfOk result (λ top. AreSizes top.0) }
    ensures few { IfOk result (λ top. IfSome top.1 (λ values. length values.now ≤ MOST_LISTED_PARTS)) }
    ensures err { IfErr result (λ e. (e ≡ Prn.NoMemory) ⊎ (top_in (table_view table.now) ≡ Err e)) }
{
    let top = match read_top(table) {
        Ok(top) => top,
        Err(bad) => return Err(refusal(0, bad)),
    };
    let keys = [
        Key::Format,
        Key::Grain,
        Key::Plate,
        Key::Step,
        Key::Margin,
        Key::Grid,
        Key::Part,
    ];
    match first_other(table, &keys) {
        Some(text) => Err(unknown(alloc, text, 0)),
        None => Ok(top),
    }
}

// The printer of a table.
#[tactic(auto, unfolding(crate::specs::Printers::description_in))]
fn described(alloc: Global, table: &Table) -> Result<Printer, Prn>
    ensures ok { IfOk result (λ printer. (parts : List Part)
        × (description_in (table_view table.now) ≡ Ok (description_of printer parts))
        × AreKept parts printer.parts) }
    ensures err { IfErr result
        (λ e. (e ≡ Prn.NoMemory) ⊎ (description_in (table_view table.now) ≡ Err e)) }
{
    let (sizes, listed) = top_alone(alloc, table)?;
    let parts = read_parts(alloc, &sizes, listed.unwrap_or(&[]))?;
    Ok(printer_with(sizes, Items::from_vec(parts)))
}

/// The printer that the bytes describe. Its parts are the tip and the listed ones, each with the corners of its hull.
pub fn read_printer(alloc: Global, bytes: &[u8]) -> Result<Printer, Prn>
    ensures ok { IfOk result (λ printer. PrinterOf bytes.now printer) }
    ensures err { IfErr result (λ e. (e ≡ Prn.NoMemory) ⊎ IsRefusedPrinter bytes.now e) }
{
    match toml::table_from_slice(alloc, bytes) {
        Ok(table) => described(alloc, &table),
        Err(error) => {
            if error.is_memory() {
                Err(Prn::NoMemory)
            } else {
                Err(Prn::Toml)
            }
        }
    }
}

/// No bytes have two descriptions, or two causes, or a description and a cause.
pub fn one_description()
    ensures description { (bytes : List ℕ) (d e : Description) → DescribedBy bytes d
        → DescribedBy bytes e → d ≡ e }
    ensures refusal { (bytes : List ℕ) (why other : Prn) → IsRefusedPrinter bytes why
        → IsRefusedPrinter bytes other → why ≡ other }
    ensures not_both { (bytes : List ℕ) (d : Description) (why : Prn) → DescribedBy bytes d
        → IsRefusedPrinter bytes why → ⊥ }
{}
