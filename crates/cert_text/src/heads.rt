ghost use Rattle.std.specs.Prelude.{◌≡◌, ◌≢◌, ◌≤ℤ◌, ◌<◌, ◌^◌, pos, [], ◌∷◌, IfOk, IfErr, Ok, Err, OnOk, All, map, unsigned_abs, codes, length};
ghost use Rattle.std.specs.List.{list_any};
ghost use Rattle.std.specs.Option.{option_map};
ghost use Rattle.std.specs.Result.{result_map_both};
ghost use Rattle.cert_text.specs.Heads.{rising, is_due, wide_start_at, wide_at, refusal, is_wide_far, note_of, note_at, head_at};
ghost use Rattle.cert_text.specs.Lines.{is_far};
ghost use Rattle.cert_text.specs.Laws.Counts.{IsCount};
ghost use Rattle.cert_text.specs.Laws.Heads.{IsFittingWide};

use crate::lines::any_far;
use crate::numbers::{number, numbers};
use crate::{CertRead, Head, Kind};
use owned_lists::Items;
use seq_limits::MOST_GRID;
use seq_model::{What, WideNote};
use std::alloc::{AllocError, Global};
use text_lines::{has_line_end, literal, number_line, whole};

/// The numbers that a wide line begins with: a node, a row and the first of its basis.
#[derive(Clone, Copy, Debug, PartialEq, Eq)]
pub struct Wide {
    pub node: i128,
    pub row: i128,
    pub first: i128,
}

// Whether the numbers rise strictly from above the first one on.
fn is_rising(first: &i128, more: &[i128]) -> bool
    ensures { result ≡ rising first.now more.now }
{
    let mut last = *first;
    for n in more {
        if *n <= last {
            return false;
        }
        last = *n;
    }
    true
}

// Whether no number is below 0, and those of the basis rise.
fn is_due(wide: &Wide, more: &[i128]) -> bool
    ensures { result ≡ is_due wide.now more.now }
{
    wide.node > -1 && wide.row > -1 && wide.first > -1 && is_rising(&wide.first, more)
}

#[tactic(auto, unfolding(crate::specs::Heads::wide_start_at))]
fn wide_start(bytes: &[u8]) -> Option<(Wide, &[u8])>
    ensures { option_map (λ x. (x.0, x.1.now)) result ≡ wide_start_at bytes.now }
{
    let rest = literal(bytes, b"wide ")?;
    let (node, rest) = whole(rest)?;
    let (row, rest) = number(rest, b" ")?;
    let (first, rest) = number(rest, b" ")?;
    Some((Wide { node, row, first }, rest))
}

// A wide line, but for the numbers of its basis behind the first, which are found besides.
#[tactic(auto, unfolding(crate::specs::Heads::wide_at))]
fn wide_line<'a>(
    found: &mut Vec<i128>,
    bytes: &'a [u8],
) -> Result<Option<(Wide, &'a [u8])>, AllocError>
    requires { found.old.items ≡ [] }
    ensures { IfOk result
        (λ r. option_map (λ x. ((x.0, found.new.items), x.1.now)) r ≡ wide_at bytes.now) }
{
    let Some((wide, rest)) = wide_start(bytes) else {
        return Ok(None);
    };
    let Some(rest) = numbers(found, b",", rest.len(), rest)? else {
        return Ok(None);
    };
    if !is_due(&wide, found) {
        return Ok(None);
    }
    Ok(Some((wide, rest)))
}

// Whether one of the numbers is too great.
fn is_far(wide: &Wide, more: &[i128]) -> bool
    ensures { result ≡ is_wide_far wide.now more.now }
{
    wide.node > 4_611_686_018_427_387_903
        || wide.row > 4_294_967_295
        || wide.first > 4_294_967_295
        || any_far(more)
}

fn basis(alloc: Global, first: &i128, more: &[i128]) -> Result<Items<u32>, AllocError>
    requires first { IsCount first.now }
    requires more { All IsCount more.now }
    ensures { IfOk result (λ basis. basis ≡ map unsigned_abs (first.now ∷ more.now)) }
{
    let mut basis = Items::new(alloc);
    basis.push(*first as u32)?;
    for n in more {
        basis.push(*n as u32)?;
    }
    Ok(basis)
}

fn note(alloc: Global, wide: &Wide, more: &[i128]) -> Result<WideNote, AllocError>
    requires { IsFittingWide wide.now more.now }
    ensures { IfOk result (λ note. note ≡ note_of wide.now more.now) }
{
    Ok(WideNote {
        node: wide.node as u64,
        basis: basis(alloc, &wide.first, more)?,
        row: wide.row as u32,
    })
}

// Why the due line at the front isn't read.
fn refusal(bytes: &[u8], number: u64, what: What) -> CertRead
    ensures { result ≡ refusal number what bytes.now }
{
    if has_line_end(bytes) {
        CertRead::Line(number, what)
    } else {
        CertRead::Truncated
    }
}

#[tactic(auto, unfolding(crate::specs::Heads::note_at))]
fn note_line(alloc: Global, bytes: &[u8]) -> Result<(WideNote, &[u8]), CertRead>
    ensures read { IfOk result (λ r. note_at bytes.now ≡ Ok (r.0, r.1.now)) }
    ensures refused { IfErr result (λ e. e ≢ CertRead.NoMemory → note_at bytes.now ≡ Err e) }
{
    let mut found = Vec::new(alloc);
    let Ok(line) = wide_line(&mut found, bytes) else {
        return Err(CertRead::NoMemory);
    };
    let Some((wide, rest)) = line else {
        return Err(refusal(bytes, 3, What::Wide));
    };
    if is_far(&wide, &found) {
        return Err(CertRead::Line(3, What::Range));
    }
    match note(alloc, &wide, &found) {
        Ok(note) => Ok((note, rest)),
        Err(_) => Err(CertRead::NoMemory),
    }
}

/// The lines before the nodes, and the bytes after them.
#[tactic(auto, unfolding(crate::specs::Heads::head_at))]
pub(crate) fn read_head(alloc: Global, bytes: &[u8], kind: Kind) -> Result<(Head, &[u8]), CertRead>
    ensures read { IfOk result (λ r. head_at kind bytes.now ≡ Ok (r.0, r.1.now)) }
    ensures refused { IfErr result (λ e. e ≢ CertRead.NoMemory → head_at kind bytes.now ≡ Err e) }
{
    let Some(rest) = literal(bytes, kind.first_line()) else {
        return Err(refusal(bytes, 1, What::Header));
    };
    let Some((extent, after)) = number_line(rest, kind.extent_word(), u64::from(MOST_GRID)) else {
        return Err(refusal(rest, 2, What::Extent));
    };
    let extent = extent as u32;
    match kind {
        Kind::Certificate | Kind::OpenBudget => Ok((
            Head {
                kind,
                extent,
                wide: None,
            },
            after,
        )),
        Kind::OpenWide => {
            let (note, after) = note_line(alloc, after)?;
            Ok((
                Head {
                    kind,
                    extent,
                    wide: Some(note),
                },
                after,
            ))
        }
    }
}
