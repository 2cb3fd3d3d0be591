// Of the contacts of two objects some that cover them all: those whose zones and parts lie in those of another are left out.
ghost use Rattle.std.specs.Prelude.{◌≡◌, ◌≢◌, ◌<◌, ◌++◌, ◌∷◌, [], All, length, false, IfOk, OnOk, IsTrue, ◌↔◌};
ghost use Rattle.pair_constraints.specs.Laws.Nesting.{IsNested};
ghost use Rattle.pair_constraints.specs.Laws.Settling.{AtZone, AtZones, IsNamed, IsThe, LeavesOut, Settles};
ghost use Rattle.pair_constraints.specs.Maximal.{IsOf};
ghost use Rattle.search_laws.specs.Covering.{IsCovered};
ghost use Rattle.seq_model.specs.Contacts.{IsContact, ZonesMeet};
ghost use Rattle.seq_model.specs.Jobs.{part_at, zone_at, zones_of};
ghost use Rattle.seq_model.specs.declared.tree.Contact.{Contact};

use crate::nesting::Nested;
use printer_envelopes::zones_meet;
use seq_model::{Contact, Job};
use std::alloc::{AllocError, Global};

fn is_inside_one(kept: &[Contact], job: &Job, nested: &Nested, contact: &Contact) -> bool
    requires nested { IsNested job.now nested.now }
    requires contact { IsContact job.now contact.now }
    requires kept { All (IsOf job.now contact.now.i contact.now.j) kept.now }
    ensures { IsTrue result → IsCovered job.now kept.now contact.now }
{
    for other in kept {
        if nested.has_inside(job, contact, other) {
            return true;
        }
    }
    false
}

// Takes away those that lie inside a contact.
fn leave_inside(kept: &mut Vec<Contact>, job: &Job, nested: &Nested, contact: &Contact)
    requires nested { IsNested job.now nested.now }
    requires contact { IsContact job.now contact.now }
    requires kept { All (IsOf job.now contact.now.i contact.now.j) kept.old.items }
    ensures kept { All (IsOf job.now contact.now.i contact.now.j) kept.new.items }
    ensures leaves { LeavesOut job.now contact.now kept.old.items kept.new.items }
{
    let mut k = 0;
    while k < kept.len() {
        if nested.has_inside(job, &kept[k], contact) {
            kept.remove(k);
        } else {
            k += 1;
        }
    }
}

fn put(kept: &mut Vec<Contact>, contact: Contact) -> Result<(), AllocError>
    ensures { OnOk result (kept.new.items ≡ kept.old.items ++ contact ∷ []) }
{
    kept.push(contact)?;
    Ok(())
}

// Keeps a contact unless it lies inside one that is kept, and then those alone that don't lie inside it.
fn settle(
    kept: &mut Vec<Contact>,
    job: &Job,
    nested: &Nested,
    contact: Contact,
) -> Result<(), AllocError>
    requires nested { IsNested job.now nested.now }
    requires contact { IsContact job.now contact }
    requires kept { All (IsOf job.now contact.i contact.j) kept.old.items }
    ensures kept { OnOk result (All (IsOf job.now contact.i contact.j) kept.new.items) }
    ensures settles { OnOk result
        (Settles job.now (λ c. c ≡ contact) kept.old.items kept.new.items) }
{
    if is_inside_one(kept, job, nested, &contact) {
        return Ok(());
    }
    leave_inside(kept, job, nested, &contact);
    put(kept, contact)?;
    Ok(())
}

fn zones_of_contact_meet(job: &Job, contact: &Contact) -> bool
    requires { IsNamed job.now contact.now }
    ensures { IsTrue result ↔ ZonesMeet
        (zone_at job.now contact.now.i contact.now.zi) (part_at job.now contact.now.part)
        (zone_at job.now contact.now.j contact.now.zj) }
{
    let a = &job.objects.as_slice()[contact.i as usize].zones.as_slice()[contact.zi as usize];
    let b = &job.objects.as_slice()[contact.j as usize].zones.as_slice()[contact.zj as usize];
    let part = &job.printer.parts.as_slice()[contact.part as usize];
    zones_meet(part, b, a)
}

// Whether it is a contact: it names objects, zones and a part, and these zones meet.
fn is_contact(job: &Job, contact: &Contact) -> bool
    requires { IsNamed job.now contact.now }
    ensures contact { IsTrue result → IsContact job.now contact.now }
    ensures none { result ≡ false → IsContact job.now contact.now → ⊥ }
{
    zones_of_contact_meet(job, contact)
}

fn settle_if(
    kept: &mut Vec<Contact>,
    job: &Job,
    nested: &Nested,
    contact: Contact,
) -> Result<(), AllocError>
    requires nested { IsNested job.now nested.now }
    requires contact { IsNamed job.now contact }
    requires kept { All (IsOf job.now contact.i contact.j) kept.old.items }
    ensures kept { OnOk result (All (IsOf job.now contact.i contact.j) kept.new.items) }
    ensures settles { OnOk result
        (Settles job.now (IsThe job.now contact) kept.old.items kept.new.items) }
{
    if !is_contact(job, &contact) {
        return Ok(());
    }
    settle(kept, job, nested, contact)
}

fn zone_count(job: &Job, i: u32) -> u32
    requires { i < length job.now.objects }
    ensures { result ≡ length (zones_of job.now i) }
{
    job.objects.as_slice()[i as usize].zones.len() as u32
}

fn part_count(job: &Job) -> u32
    ensures { result ≡ length job.now.printer.parts }
{
    job.printer.parts.len() as u32
}

fn settle_parts(
    kept: &mut Vec<Contact>,
    job: &Job,
    nested: &Nested,
    i: u32,
    zi: u32,
    zj: u32,
    j: u32,
) -> Result<(), AllocError>
    requires nested { IsNested job.now nested.now }
    requires earlier { i < length job.now.objects }
    requires later { j < length job.now.objects }
    requires apart { i ≢ j }
    requires earlier_zone { zi < length (zones_of job.now i) }
    requires later_zone { zj < length (zones_of job.now j) }
    requires kept { All (IsOf job.now i j) kept.old.items }
    ensures kept { OnOk result (All (IsOf job.now i j) kept.new.items) }
    ensures settles { OnOk result
        (Settles job.now (AtZones job.now i zi zj j) kept.old.items kept.new.items) }
{
    for part in 0..part_count(job) {
        settle_if(kept, job, nested, Contact { i, zi, part, zj, j })?;
    }
    Ok(())
}

fn settle_zones(
    kept: &mut Vec<Contact>,
    job: &Job,
    nested: &Nested,
    i: u32,
    zj: u32,
    j: u32,
) -> Result<(), AllocError>
    requires nested { IsNested job.now nested.now }
    requires earlier { i < length job.now.objects }
    requires later { j < length job.now.objects }
    requires apart { i ≢ j }
    requires later_zone { zj < length (zones_of job.now j) }
    requires kept { All (IsOf job.now i j) kept.old.items }
    ensures kept { OnOk result (All (IsOf job.now i j) kept.new.items) }
    ensures settles { OnOk result
        (Settles job.now (AtZone job.now i zj j) kept.old.items kept.new.items) }
{
    for zi in 0..zone_count(job, i) {
        settle_parts(kept, job, nested, i, zi, zj, j)?;
    }
    Ok(())
}

/// Contacts of two objects that cover all of them: those that don't lie inside another by their zones and parts.
pub(crate) fn settled(
    alloc: Global,
    job: &Job,
    nested: &Nested,
    i: u32,
    j: u32,
) -> Result<Vec<Contact>, AllocError>
    requires nested { IsNested job.now nested.now }
    requires earlier { i < length job.now.objects }
    requires later { j < length job.now.objects }
    requires apart { i ≢ j }
    ensures each { IfOk result (λ kept. All (IsOf job.now i j) kept.items) }
    ensures enough { IfOk result
        (λ kept. (c : Contact) → IsOf job.now i j c → IsCovered job.now kept.items c) }
{
    let mut kept = Vec::new(alloc);
    for zj in 0..zone_count(job, j) {
        settle_zones(&mut kept, job, nested, i, zj, j)?;
    }
    Ok(kept)
}
