//! The value of a key: its kind, then a number that it spells, then its range, then its lattice.

ghost use Rattle.std.specs.Prelude.{◌≡◌, ◌≤ℤ◌, ◌<ℤ◌, ◌*ℤ◌, ◌⊎◌, pos, [], List, Some, None, Ok, Err, IfOk, IfErr, IsTrue, option_map, length, ◌≤◌};
ghost use Rattle.std.specs.Result.{result_map_both};
ghost use Rattle.std.specs.List.{list_all};
ghost use Rattle.seq_model.specs.Parts.{is_name_byte};
ghost use Rattle.seq_model.specs.declared.printer.Spot.{Spot};
ghost use Rattle.toml.specs.View.{view, items_view};
ghost use Rattle.printer_text.specs.Values.{within, on_lattice, millimetres, length_of, integer_in, length_in, grains_in, may_be_length, pair_of, pair_in, is_pair, are_pairs, are_tables, count, pairs_behind, corners_in, tables_in, is_name, name_in, axis_in, StopsAs};

use crate::Key;
use decimal_lengths::read_um;
use seq_model::Spot;
use std::alloc::Global;
use toml::Value;

/// Why a value is refused.
#[derive(Clone, Copy, Debug, PartialEq, Eq)]
pub enum Cause {
    Missing,
    Kind,
    FloatLength,
    Number,
    Range,
    OffGrain,
    /// An array has too many tables.
    TooMany,
}

/// A key that is refused.
#[derive(Clone, Copy, Debug, PartialEq, Eq)]
pub struct Bad {
    pub key: Key,
    pub cause: Cause,
}

/// Why an array isn't read.
#[derive(Clone, Copy, Debug)]
pub enum Stop {
    NoMemory,
    Cause(Cause),
}

fn within(low: i64, high: i64, n: i64) -> Result<i64, Cause>
    ensures value { result ≡ within low high n }
    ensures bounds { IfOk result (λ x. (x ≡ n) × (low ≤ℤ n) × (n ≤ℤ high)) }
{
    if low <= n && n <= high {
        Ok(n)
    } else {
        Err(Cause::Range)
    }
}

// How many units a length is.
fn on_lattice(unit: i64, um: i64) -> Result<i64, Cause>
    requires { pos 1 ≤ℤ unit }
    ensures value { result ≡ on_lattice unit um }
    ensures exact { IfOk result (λ count. unit *ℤ count ≡ um) }
{
    if um % unit == 0 {
        Ok(um / unit)
    } else {
        Err(Cause::OffGrain)
    }
}

// Whole millimetres in µm; out of range before anything is multiplied.
fn millimetres(n: i64) -> Result<i64, Cause>
    ensures { result ≡ millimetres n }
{
    let mm = within(-10_000, 10_000, n)?;
    Ok(mm * 1_000)
}

fn length_of(value: &Value) -> Result<i64, Cause>
    ensures { result ≡ length_of (view value.now) }
{
    if let Some(n) = value.as_integer() {
        return millimetres(n);
    }
    if let Some(text) = value.as_str() {
        return match read_um(text.as_bytes()) {
            Ok(um) => Ok(um),
            Err(_) => Err(Cause::Number),
        };
    }
    match value.as_float() {
        Some(_) => Err(Cause::FloatLength),
        None => Err(Cause::Kind),
    }
}

/// A whole number of a range.
pub fn integer_in(low: i64, high: i64, value: &Value) -> Result<i64, Cause>
    ensures value { result ≡ integer_in low high (view value.now) }
    ensures bounds { IfOk result (λ x. (low ≤ℤ x) × (x ≤ℤ high)) }
{
    match value.as_integer() {
        Some(n) => within(low, high, n),
        None => Err(Cause::Kind),
    }
}

/// A length of a range, all in µm.
pub fn length_in(low: i64, high: i64, value: &Value) -> Result<i64, Cause>
    ensures value { result ≡ length_in low high (view value.now) }
    ensures bounds { IfOk result (λ x. (low ≤ℤ x) × (x ≤ℤ high)) }
{
    let um = length_of(value)?;
    within(low, high, um)
}

/// A length of a range in µm, as a number of grains.
pub fn grains_in(grain: i64, low: i64, high: i64, value: &Value) -> Result<i64, Cause>
    requires { pos 1 ≤ℤ grain }
    ensures value { result ≡ grains_in grain low high (view value.now) }
    ensures bounds { IfOk result (λ count. (low ≤ℤ (grain *ℤ count)) × ((grain *ℤ count) ≤ℤ high)) }
{
    let um = length_in(low, high, value)?;
    on_lattice(grain, um)
}

fn may_be_length(value: &Value) -> bool
    ensures { result ≡ may_be_length (view value.now) }
{
    value.is_integer() || value.is_str() || value.is_float()
}

/// Two lengths of a range in µm, as numbers of grains.
pub fn pair_in(grain: i64, low: i64, high: i64, value: &Value) -> Result<Spot, Cause>
    requires { pos 1 ≤ℤ grain }
    ensures value { result ≡ pair_in grain low high (view value.now) }
    ensures x { IfOk result (λ pair. (low ≤ℤ (grain *ℤ pair.x)) × ((grain *ℤ pair.x) ≤ℤ high)) }
    ensures y { IfOk result (λ pair. (low ≤ℤ (grain *ℤ pair.y)) × ((grain *ℤ pair.y) ≤ℤ high)) }
{
    let Some(first) = value.get(0) else {
        return Err(Cause::Kind);
    };
    let Some(second) = value.get(1) else {
        return Err(Cause::Kind);
    };
    if value.get(2).is_some() {
        return Err(Cause::Kind);
    }
    if !may_be_length(first) || !may_be_length(second) {
        return Err(Cause::Kind);
    }
    let x = grains_in(grain, low, high, first)?;
    let y = grains_in(grain, low, high, second)?;
    Ok(Spot { x, y })
}

fn is_pair(value: &Value) -> bool
    ensures { result ≡ is_pair (pair_of (view value.now)) }
{
    let Some(first) = value.get(0) else {
        return false;
    };
    let Some(second) = value.get(1) else {
        return false;
    };
    value.get(2).is_none() && may_be_length(first) && may_be_length(second)
}

#[tactic(auto, using(crate::proofs::ItemLaws::items_more))]
fn are_pairs(values: &[Value]) -> bool
    ensures { result ≡ are_pairs (items_view values.now) }
{
    for value in values {
        if !is_pair(value) {
            return false;
        }
    }
    true
}

#[tactic(auto, using(crate::proofs::ItemLaws::items_more))]
fn are_tables(values: &[Value]) -> bool
    ensures { result ≡ are_tables (items_view values.now) }
{
    for value in values {
        if value.as_table().is_none() {
            return false;
        }
    }
    true
}

#[tactic(auto, using(crate::proofs::ItemLaws::items_more))]
fn pairs(
    alloc: Global,
    grain: i64,
    low: i64,
    high: i64,
    values: &[Value],
) -> Result<Vec<Spot>, Stop>
    requires { pos 1 ≤ℤ grain }
    ensures ok { IfOk result
        (λ spots. pairs_behind grain low high [] (items_view values.now) ≡ Ok spots.items) }
    ensures err { IfErr result (StopsAs (pairs_behind grain low high [] (items_view values.now))) }
{
    let mut spots = Vec::new(alloc);
    for value in values {
        let spot = match pair_in(grain, low, high, value) {
            Ok(spot) => spot,
            Err(cause) => return Err(Stop::Cause(cause)),
        };
        if spots.push(spot).is_err() {
            return Err(Stop::NoMemory);
        }
    }
    Ok(spots)
}

fn count(values: &[Value]) -> usize
    ensures value { result ≡ count (items_view values.now) }
    ensures len { result ≡ length values.now }
{
    values.len()
}

/// The spots of an array of `least` to `most` pairs of lengths.
#[tactic(auto, unfolding(crate::specs::Values::corners_in))]
pub fn corners_in(
    alloc: Global,
    least: usize,
    most: usize,
    grain: i64,
    low: i64,
    high: i64,
    value: &Value,
) -> Result<Vec<Spot>, Stop>
    requires { pos 1 ≤ℤ grain }
    ensures ok { IfOk result
        (λ spots. corners_in least most grain low high (view value.now) ≡ Ok spots.items) }
    ensures err { IfErr result (StopsAs (corners_in least most grain low high (view value.now))) }
{
    let Some(values) = value.as_array() else {
        return Err(Stop::Cause(Cause::Kind));
    };
    if !are_pairs(values) {
        return Err(Stop::Cause(Cause::Kind));
    }
    let count = count(values);
    if count < least {
        return Err(Stop::Cause(Cause::Range));
    }
    if most < count {
        return Err(Stop::Cause(Cause::Range));
    }
    pairs(alloc, grain, low, high, values)
}

/// The tables of an array of at most so many.
#[tactic(auto, unfolding(crate::specs::Values::tables_in))]
pub fn tables_in(most: usize, value: &Value) -> Result<&[Value], Cause>
    ensures value { result_map_both (λ values. items_view values.now) (λ e. e) result
        ≡ tables_in most (view value.now) }
    ensures few { IfOk result (λ values. length values.now ≤ most) }
{
    let Some(values) = value.as_array() else {
        return Err(Cause::Kind);
    };
    if !are_tables(values) {
        return Err(Cause::Kind);
    }
    if count(values) > most {
        return Err(Cause::TooMany);
    }
    Ok(values)
}

fn is_name_byte(byte: u8) -> bool
    ensures { result ≡ is_name_byte byte }
{
    byte.is_ascii_alphanumeric() || byte == b'_' || byte == b'-'
}

fn are_name_bytes(bytes: &[u8]) -> bool
    ensures { result ≡ list_all is_name_byte bytes.now }
{
    bytes.iter().all(|byte| is_name_byte(*byte))
}

fn is_name(least: usize, most: usize, text: &str) -> bool
    ensures { result ≡ is_name least most text.now }
{
    if text.len() < least {
        return false;
    }
    if most < text.len() {
        return false;
    }
    are_name_bytes(text.as_bytes())
}

/// A text of `least` to `most` bytes of a name.
#[tactic(auto, unfolding(crate::specs::Values::name_in))]
pub fn name_in(least: usize, most: usize, value: &Value) -> Result<&str, Cause>
    ensures value { result_map_both (λ text. text.now) (λ e. e) result
        ≡ name_in least most (view value.now) }
    ensures named { IfOk result (λ text. IsTrue (is_name least most text.now)) }
{
    let Some(text) = value.as_str() else {
        return Err(Cause::Kind);
    };
    if !is_name(least, most, text) {
        return Err(Cause::Range);
    }
    Ok(text)
}

/// Whether the text is `x`, where it is `x` or `y`.
pub fn axis_in(value: &Value) -> Result<bool, Cause>
    ensures { result ≡ axis_in (view value.now) }
{
    let Some(text) = value.as_str() else {
        return Err(Cause::Kind);
    };
    if text == "x" {
        return Ok(true);
    }
    if text == "y" {
        return Ok(false);
    }
    Err(Cause::Range)
}
