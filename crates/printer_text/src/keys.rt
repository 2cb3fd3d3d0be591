//! A key of a table: whether it is there, and its value.

ghost use Rattle.std.specs.Prelude.{◌≡◌, ◌≤◌, ◌≤ℤ◌, ◌*ℤ◌, ◌⊎◌, pos, Some, None, Ok, Err, IfOk, IfErr, IfSome, IsTrue, option_map, length};
ghost use Rattle.std.specs.Result.{result_map_both};
ghost use Rattle.std.specs.List.Sorted.{IsStrictlySortedBy};
ghost use Rattle.std.specs.Map.{keys_of};
ghost use Rattle.std.specs.String.{string_cmp};
ghost use Rattle.toml.specs.Data.{get_member};
ghost use Rattle.toml.specs.View.{view, table_view, items_view};
ghost use Rattle.printer_text.specs.Tables.{is_named, first_other, next_other};
ghost use Rattle.printer_text.specs.Outlines.{IsGrain, IsFewGrains};
ghost use Rattle.printer_text.specs.Values.{key_name, key_at, key_if, integer_in, length_in, grains_in, pair_in, corners_in, tables_in, is_name, name_in, axis_in, StopsKey};

use crate::values::{
    Bad, Cause, Stop, axis_in, corners_in, grains_in, integer_in, length_in, name_in, pair_in,
    tables_in,
};
use crate::{Key, key_text};
use seq_limits::MOST_CORNERS;
use seq_model::Spot;
use std::alloc::Global;
use toml::{Table, Value};

/// Why the key of an array isn't read.
#[derive(Clone, Copy, Debug)]
pub enum Unread {
    NoMemory,
    Bad(Bad),
}

fn value_if(table: &Table, key: Key) -> Option<&Value>
    ensures value { option_map (λ v. view v.now) result
        ≡ get_member (key_name key) (table_view table.now) }
{
    table.get(key_text(key))
}

fn value_at(table: &Table, key: Key) -> Result<&Value, Bad>
    ensures ok { IfOk result
        (λ v. get_member (key_name key) (table_view table.now) ≡ Some (view v.now)) }
    ensures err { IfErr result
        (λ e. (get_member (key_name key) (table_view table.now) ≡ None)
        × (e ≡ record { key = key; cause = Cause.Missing })) }
{
    match value_if(table, key) {
        Some(value) => Ok(value),
        None => Err(Bad {
            key,
            cause: Cause::Missing,
        }),
    }
}

/// A whole number at a key.
#[tactic(auto, unfolding(crate::specs::Values::key_at))]
pub fn integer_at(table: &Table, key: Key, low: i64, high: i64) -> Result<i64, Bad>
    ensures value { result ≡ key_at key (integer_in low high) (table_view table.now) }
    ensures bounds { IfOk result (λ x. (low ≤ℤ x) × (x ≤ℤ high)) }
{
    match integer_in(low, high, value_at(table, key)?) {
        Ok(n) => Ok(n),
        Err(cause) => Err(Bad { key, cause }),
    }
}

/// A length at a key, in µm.
#[tactic(auto, unfolding(crate::specs::Values::key_at))]
pub fn length_at(table: &Table, key: Key, low: i64, high: i64) -> Result<i64, Bad>
    ensures value { result ≡ key_at key (length_in low high) (table_view table.now) }
    ensures bounds { IfOk result (λ x. (low ≤ℤ x) × (x ≤ℤ high)) }
{
    match length_in(low, high, value_at(table, key)?) {
        Ok(um) => Ok(um),
        Err(cause) => Err(Bad { key, cause }),
    }
}

/// A length at a key that may be absent, in µm.
#[tactic(auto, unfolding(crate::specs::Values::key_if))]
pub fn length_if(table: &Table, key: Key, low: i64, high: i64) -> Result<Option<i64>, Bad>
    ensures value { result ≡ key_if key (length_in low high) (table_view table.now) }
    ensures bounds { IfOk result (λ o. IfSome o (λ x. (low ≤ℤ x) × (x ≤ℤ high))) }
{
    let Some(value) = value_if(table, key) else {
        return Ok(None);
    };
    match length_in(low, high, value) {
        Ok(um) => Ok(Some(um)),
        Err(cause) => Err(Bad { key, cause }),
    }
}

// So many grains, in µm.
fn grains(grain: i64, count: i64) -> i64
    requires grain { IsGrain grain }
    requires count { IsFewGrains count }
    ensures { result ≡ grain *ℤ count }
{
    grain * count
}

/// A length at a key, and its range, in grains.
#[tactic(auto, unfolding(crate::specs::Values::key_at))]
pub fn grains_at(table: &Table, key: Key, grain: i64, low: i64, high: i64) -> Result<i64, Bad>
    requires grain { IsGrain grain }
    requires low { IsFewGrains low }
    requires high { IsFewGrains high }
    ensures value { result
        ≡ key_at key (grains_in grain (grain *ℤ low) (grain *ℤ high)) (table_view table.now) }
    ensures bounds { IfOk result (λ n. (low ≤ℤ n) × (n ≤ℤ high)) }
{
    match grains_in(
        grain,
        grains(grain, low),
        grains(grain, high),
        value_at(table, key)?,
    ) {
        Ok(count) => Ok(count),
        Err(cause) => Err(Bad { key, cause }),
    }
}

/// Two lengths at a key, and their range, in grains.
#[tactic(auto, unfolding(crate::specs::Values::key_at))]
pub fn pair_at(table: &Table, key: Key, grain: i64, low: i64, high: i64) -> Result<Spot, Bad>
    requires grain { IsGrain grain }
    requires low { IsFewGrains low }
    requires high { IsFewGrains high }
    ensures value { result
        ≡ key_at key (pair_in grain (grain *ℤ low) (grain *ℤ high)) (table_view table.now) }
    ensures x { IfOk result (λ pair. (low ≤ℤ pair.x) × (pair.x ≤ℤ high)) }
    ensures y { IfOk result (λ pair. (low ≤ℤ pair.y) × (pair.y ≤ℤ high)) }
{
    match pair_in(
        grain,
        grains(grain, low),
        grains(grain, high),
        value_at(table, key)?,
    ) {
        Ok(pair) => Ok(pair),
        Err(cause) => Err(Bad { key, cause }),
    }
}

/// The corners at a key, 1 to 32 of them, and the range of their coordinates, in grains.
#[tactic(auto, unfolding(crate::specs::Values::key_at))]
pub fn corners_at(
    alloc: Global,
    table: &Table,
    key: Key,
    grain: i64,
    low: i64,
    high: i64,
) -> Result<Vec<Spot>, Unread>
    requires grain { IsGrain grain }
    requires low { IsFewGrains low }
    requires high { IsFewGrains high }
    ensures ok { IfOk result
        (λ spots. key_at key (corners_in 1 MOST_CORNERS grain (grain *ℤ low) (grain *ℤ high))
        (table_view table.now) ≡ Ok spots.items) }
    ensures err { IfErr result
        (StopsKey (key_at key (corners_in 1 MOST_CORNERS grain (grain *ℤ low) (grain *ℤ high))
        (table_view table.now))) }
{
    let value = match value_at(table, key) {
        Ok(value) => value,
        Err(bad) => return Err(Unread::Bad(bad)),
    };
    match corners_in(
        alloc,
        1,
        MOST_CORNERS,
        grain,
        grains(grain, low),
        grains(grain, high),
        value,
    ) {
        Ok(spots) => Ok(spots),
        Err(Stop::NoMemory) => Err(Unread::NoMemory),
        Err(Stop::Cause(cause)) => Err(Unread::Bad(Bad { key, cause })),
    }
}

/// The tables at a key that may be absent.
#[tactic(auto, unfolding(crate::specs::Values::key_if))]
pub fn tables_if(table: &Table, key: Key, most: usize) -> Result<Option<&[Value]>, Bad>
    ensures value { result_map_both (λ o. option_map (λ values. items_view values.now) o)
        (λ e. e) result ≡ key_if key (tables_in most) (table_view table.now) }
    ensures few { IfOk result (λ o. IfSome o (λ values. length values.now ≤ most)) }
{
    let Some(value) = value_if(table, key) else {
        return Ok(None);
    };
    match tables_in(most, value) {
        Ok(values) => Ok(Some(values)),
        Err(cause) => Err(Bad { key, cause }),
    }
}

/// A name at a key.
#[tactic(auto, unfolding(crate::specs::Values::key_at))]
pub fn name_at(table: &Table, key: Key, least: usize, most: usize) -> Result<&str, Bad>
    ensures value { result_map_both (λ text. text.now) (λ e. e) result
        ≡ key_at key (name_in least most) (table_view table.now) }
    ensures named { IfOk result (λ text. IsTrue (is_name least most text.now)) }
{
    match name_in(least, most, value_at(table, key)?) {
        Ok(text) => Ok(text),
        Err(cause) => Err(Bad { key, cause }),
    }
}

/// The axis at a key that may be absent: whether it is `x`.
#[tactic(auto, unfolding(crate::specs::Values::key_if))]
pub fn axis_if(table: &Table, key: Key) -> Result<Option<bool>, Bad>
    ensures { result ≡ key_if key axis_in (table_view table.now) }
{
    let Some(value) = value_if(table, key) else {
        return Ok(None);
    };
    match axis_in(value) {
        Ok(along_x) => Ok(Some(along_x)),
        Err(cause) => Err(Bad { key, cause }),
    }
}

#[tactic(auto, using(std::proofs::lemmas::List::drop_more))]
fn is_named(keys: &[Key], text: &str) -> bool
    ensures { result ≡ is_named keys.now text.now }
{
    for key in keys {
        if key_text(*key) == text {
            return true;
        }
    }
    false
}

// The first key that the table lists and that is none of these.
fn next_other<'a>(table: &'a Table, keys: &[Key]) -> Option<&'a str>
    ensures value { option_map (λ text. text.now) result
        ≡ next_other keys.now (table_view table.now) }
    ensures ascending { IsStrictlySortedBy string_cmp (keys_of table.now.entries) }
{
    for (text, _) in table.iter() {
        if !is_named(keys, text.as_str()) {
            return Some(text.as_str());
        }
    }
    None
}

/// The first key of the table, in byte order, that is none of these.
pub fn first_other<'a>(table: &'a Table, keys: &[Key]) -> Option<&'a str>
    ensures { option_map (λ text. text.now) result ≡ first_other keys.now (table_view table.now) }
{
    next_other(table, keys)
}
