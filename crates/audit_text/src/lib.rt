//! The line that tells what an audit found.
//!
//! `audit_text` gives the line of a verdict on a plan: that it is good, or its first fault, by the numbers of its places, objects,
//! bands and parts, as `specs/AuditText.antt` spells it. It stands on the audit, and the top call prints by it.
#![tactic(auto)]

ghost use Rattle.std.specs.Prelude.{◌≡◌, ◌++◌, IfOk, OnOk};
ghost use Rattle.audit_text.specs.AuditText.{audit_text, bands_text, hit_line, name_of, object_of, off_line, off_text, pair_text, part_text};

use plan_audit::{Hit, Verdict};
use seq_model::{Part, Place};
use std::alloc::{AllocError, Global};
use text_lines::{put_line, put_number};

// The number of the object that stands at a place.
fn object_of(places: &[Place], number: u32) -> u32
    ensures { result ≡ object_of places.now number }
{
    match places.get(number as usize) {
        Some(place) => place.object,
        None => 0,
    }
}

fn name_of(parts: &[Part], number: u32) -> &str
    ensures { result.now ≡ name_of parts.now number }
{
    match parts.get(number as usize) {
        Some(part) => part.name.as_str(),
        None => "",
    }
}

#[tactic(auto, unfolding(crate::specs::AuditText::off_text))]
fn put_off_place(to: &mut Vec<u8>, place: u32) -> Result<(), AllocError>
    ensures { OnOk result (to.new.items ≡ to.old.items ++ off_text place) }
{
    put_number(to, b"audit offplate ", i128::from(place))
}

// Appends the line of a place off the plate.
fn put_off(to: &mut Vec<u8>, place: u32, object: u32) -> Result<(), AllocError>
    ensures { OnOk result (to.new.items ≡ to.old.items ++ off_line place object) }
{
    put_off_place(to, place)?;
    put_line(to, b" ", i128::from(object))
}

#[tactic(auto, unfolding(crate::specs::AuditText::pair_text))]
fn put_pair(to: &mut Vec<u8>, earlier: u32, later: u32) -> Result<(), AllocError>
    ensures { OnOk result (to.new.items ≡ to.old.items ++ pair_text earlier later) }
{
    put_number(to, b"audit collides ", i128::from(earlier))?;
    put_number(to, b" ", i128::from(later))
}

#[tactic(auto, unfolding(crate::specs::AuditText::bands_text))]
fn put_bands(to: &mut Vec<u8>, c: u32, b: u32) -> Result<(), AllocError>
    ensures { OnOk result (to.new.items ≡ to.old.items ++ bands_text c b) }
{
    put_number(to, b" bands ", i128::from(c))?;
    put_number(to, b" ", i128::from(b))
}

#[tactic(auto, unfolding(crate::specs::AuditText::part_text))]
fn put_part(to: &mut Vec<u8>, part: u32, name: &str) -> Result<(), AllocError>
    ensures { OnOk result (to.new.items ≡ to.old.items ++ part_text part name.now) }
{
    put_number(to, b" part ", i128::from(part))?;
    to.extend_from_slice(b" ")?;
    to.extend_from_slice(name.as_bytes())?;
    to.extend_from_slice(b"\n")
}

// Appends the line of a collision.
fn put_hit(to: &mut Vec<u8>, parts: &[Part], places: &[Place], hit: Hit) -> Result<(), AllocError>
    ensures { OnOk result (to.new.items ≡ to.old.items ++ hit_line
        (object_of places.now hit.earlier) (object_of places.now hit.later)
        hit.c hit.b hit.part (name_of parts.now hit.part)) }
{
    put_pair(
        to,
        object_of(places, hit.earlier),
        object_of(places, hit.later),
    )?;
    put_bands(to, hit.c, hit.b)?;
    put_part(to, hit.part, name_of(parts, hit.part))
}

/// The line of a verdict on a plan of these places, for a printer of these parts.
pub fn audit_text(
    alloc: Global,
    parts: &[Part],
    places: &[Place],
    verdict: Verdict,
) -> Result<Vec<u8>, AllocError>
    ensures { IfOk result (λ text. text.items ≡ audit_text parts.now places.now verdict) }
{
    let mut text = Vec::new(alloc);
    match verdict {
        Verdict::Good => text.extend_from_slice(b"audit good\n")?,
        Verdict::Stray(place) => put_line(&mut text, b"audit stray ", i128::from(place))?,
        Verdict::Absent(object) => put_line(&mut text, b"audit absent ", i128::from(object))?,
        Verdict::OffPlate(place) => put_off(&mut text, place, object_of(places, place))?,
        Verdict::Collides(hit) => put_hit(&mut text, parts, places, hit)?,
    }
    Ok(text)
}
