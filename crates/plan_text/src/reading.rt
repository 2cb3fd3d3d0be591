ghost use Rattle.std.specs.Prelude.{codes, ◌≡◌, ◌≢◌, ◌≤◌, ◌<◌, ◌+◌, ◌^◌, ℕ, List, [], Result, Ok, Err, IfOk, length, unsigned_abs, pos, All};
ghost use Rattle.std.specs.Option.{ok_or};
ghost use Rattle.std.specs.Result.{result_map_both};
ghost use Rattle.plan_text.specs.declared.file.PlanFile.{PlanFile};
ghost use Rattle.text_lines.specs.Reading.{literal_at};
ghost use Rattle.text_lines.specs.Lines.{number_line_at};
ghost use Rattle.plan_text.specs.PlanText.{begins_place, IsPlace, IsPlanOf};
ghost use Rattle.plan_text.specs.Lines.{state_line_at, place_at};
ghost use Rattle.plan_text.specs.Reading.{refusal, bare, head_at, divisor_with, divisor_of, places_from, body_at, file_at, ended, plan_answer};

use crate::lines::{place_line, state_line};
use crate::{PlanFile, State};
use owned_lists::Items;
use seq_limits::{MOST_GRID, MOST_OBJECTS};
use seq_model::{Place, Plan, What};
use seq_num::gcd;
use std::alloc::Global;
use text_lines::{has_line_end, literal, number_line};
use thiserror::Error;

/// Why bytes are no plan file.
#[derive(Clone, Copy, Debug, PartialEq, Eq, Error)]
pub enum PlanRead {
    /// The line of this number, counted from 1, is ended and isn't of the due form.
    #[error("the plan file is refused")]
    Line(u64, What),
    /// The bytes end before a due line, within one, or within a line after the places where no tree block is due.
    #[error("the plan file is refused")]
    Missing,
    /// An ended line follows the places where no tree block is due.
    #[error("the plan file is refused")]
    Trailing,
    #[error("memory")]
    NoMemory,
}

// Why the due line at the front isn't read.
fn refusal(bytes: &[u8], number: u64, what: What) -> PlanRead
    ensures { result ≡ refusal number what bytes.now }
{
    if has_line_end(bytes) {
        PlanRead::Line(number, what)
    } else {
        PlanRead::Missing
    }
}

fn header(bytes: &[u8]) -> Result<&[u8], PlanRead>
    ensures { result_map_both (λ x. x.now) (λ e. e) result
        ≡ ok_or (literal_at (codes "seqplan 1\n") bytes.now) (refusal 1 What.Header bytes.now) }
{
    match literal(bytes, b"seqplan 1\n") {
        Some(rest) => Ok(rest),
        None => Err(refusal(bytes, 1, What::Header)),
    }
}

fn state(bytes: &[u8]) -> Result<(State, &[u8]), PlanRead>
    ensures { result_map_both (λ x. (x.0, x.1.now)) (λ e. e) result
        ≡ ok_or (state_line_at bytes.now) (refusal 2 What.State bytes.now) }
{
    match state_line(bytes) {
        Some(read) => Ok(read),
        None => Err(refusal(bytes, 2, What::State)),
    }
}

// The number of a due line, which is the line of this number in the file.
fn due<'a>(
    bytes: &'a [u8],
    keyword: &[u8],
    most: u64,
    number: u64,
    what: What,
) -> Result<(u64, &'a [u8]), PlanRead>
    ensures value { result_map_both (λ x. (x.0, x.1.now)) (λ e. e) result
        ≡ ok_or (number_line_at keyword.now most bytes.now) (refusal number what bytes.now) }
    ensures within { IfOk result (λ x. x.0 ≤ most) }
{
    match number_line(bytes, keyword, most) {
        Some(read) => Ok(read),
        None => Err(refusal(bytes, number, what)),
    }
}

// The state and the grid of the first three lines.
#[tactic(auto, unfolding(crate::specs::Reading::head_at))]
fn head(bytes: &[u8]) -> Result<(State, u32, &[u8]), PlanRead>
    ensures { result_map_both (λ x. (x.0, x.1, x.2.now)) (λ e. e) result ≡ head_at bytes.now }
{
    let rest = header(bytes)?;
    let (state, rest) = state(rest)?;
    let (grid, rest) = due(rest, b"grid ", u64::from(MOST_GRID), 3, What::Grid)?;
    Ok((state, grid as u32, rest))
}

fn begins_place(bytes: &[u8]) -> bool
    ensures { result ≡ begins_place bytes.now }
{
    literal(bytes, b"place ").is_some()
}

// The places of the place lines at the front, 16 at most.
fn places(alloc: Global, bytes: &[u8]) -> Result<(Vec<Place>, &[u8]), PlanRead>
    ensures answer { result ≢ Err PlanRead.NoMemory
        → result_map_both (λ x. (x.0.items, x.1.now)) (λ e. e) result
        ≡ places_from MOST_OBJECTS [] bytes.now }
    ensures small { IfOk result (λ x. All IsPlace x.0.items) }
{
    let mut found = Vec::new(alloc);
    let mut rest = bytes;
    while begins_place(rest) {
        let number = found.len() as u64 + 6;
        if found.len() == MOST_OBJECTS {
            return Err(refusal(rest, number, What::Place));
        }
        let Some((place, after)) = place_line(rest) else {
            return Err(refusal(rest, number, What::Place));
        };
        if found.push(place).is_err() {
            return Err(PlanRead::NoMemory);
        }
        rest = after;
    }
    Ok((found, rest))
}

// The greatest common divisor of a divisor so far and the numerators of a place.
fn divisor_with(divisor: i128, place: &Place) -> i128
    requires divisor { unsigned_abs divisor < 2 ^ 126 }
    requires place { IsPlace place.now }
    ensures value { unsigned_abs result ≡ divisor_with (unsigned_abs divisor) place.now }
    ensures size { unsigned_abs result < 2 ^ 126 }
{
    gcd(gcd(divisor, place.x), place.y)
}

// The size of the greatest common divisor of scale and numerators.
fn divisor_of(scale: u64, places: &[Place]) -> u128
    requires { All IsPlace places.now }
    ensures { result ≡ divisor_of scale places.now }
{
    let mut divisor = i128::from(scale);
    for place in places {
        divisor = divisor_with(divisor, place);
    }
    divisor.unsigned_abs()
}

// The file of this state and grid, from the extent on.
fn body(alloc: Global, state: State, grid: u32, bytes: &[u8]) -> Result<(PlanFile, &[u8]), PlanRead>
    ensures { result ≢ Err PlanRead.NoMemory
        → result_map_both (λ x. (x.0, x.1.now)) (λ e. e) result ≡ body_at state grid bytes.now }
{
    let (extent, rest) = due(bytes, b"extent ", u64::from(grid), 4, What::Extent)?;
    let (scale, rest) = due(rest, b"scale ", (1 << 62) - 1, 5, What::Scale)?;
    let (places, rest) = places(alloc, rest)?;
    if divisor_of(scale, &places) != 1 {
        return Err(PlanRead::Line(5, What::Scale));
    }
    let plan = Plan {
        scale: i128::from(scale),
        places: Items::from_vec(places),
    };
    let file = PlanFile {
        state,
        grid,
        extent: extent as u32,
        plan,
    };
    Ok((file, rest))
}

fn bare(alloc: Global, state: State, grid: u32) -> PlanFile
    ensures { result ≡ bare state grid }
{
    PlanFile {
        state,
        grid,
        extent: 0,
        plan: Plan {
            scale: 1,
            places: Items::new(alloc),
        },
    }
}

// The file of the plan's own lines, and the bytes after them.
#[tactic(auto, unfolding(crate::specs::Reading::file_at))]
fn file(alloc: Global, bytes: &[u8]) -> Result<(PlanFile, &[u8]), PlanRead>
    ensures { result ≢ Err PlanRead.NoMemory
        → result_map_both (λ x. (x.0, x.1.now)) (λ e. e) result ≡ file_at bytes.now }
{
    let (state, grid, rest) = head(bytes)?;
    if state.has_places() {
        return body(alloc, state, grid, rest);
    }
    Ok((bare(alloc, state, grid), rest))
}

// Whether the rest may stand behind the file's own lines.
#[tactic(auto, unfolding(crate::specs::Reading::ended))]
fn end(file: &PlanFile, rest: &[u8]) -> Result<(), PlanRead>
    ensures { result ≡ ended file.now rest.now }
{
    if file.is_block_due() || rest.is_empty() {
        return Ok(());
    }
    if has_line_end(rest) {
        Err(PlanRead::Trailing)
    } else {
        Err(PlanRead::Missing)
    }
}

/// The plan file at the front of the bytes, and the place where its own lines end: where its tree block begins, if one
/// is due. The block is neither read nor scanned.
pub fn read_plan(alloc: Global, bytes: &[u8]) -> Result<(PlanFile, usize), PlanRead>
    ensures answer { result ≢ Err PlanRead.NoMemory → result ≡ plan_answer bytes.now }
    ensures read { IfOk result (λ r. IsPlanOf bytes.now r.0 r.1) }
    ensures all { (file : PlanFile) (place : ℕ) → IsPlanOf bytes.now file place
        → result ≢ Err PlanRead.NoMemory → result ≡ Ok (file, place) }
{
    let (file, rest) = file(alloc, bytes)?;
    end(&file, rest)?;
    Ok((file, bytes.len() - rest.len()))
}
