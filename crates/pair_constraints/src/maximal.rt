// The maximal ones of contacts of two objects.
ghost use Rattle.std.specs.Prelude.{◌≡◌, ◌≢◌, ◌<◌, ◌++◌, ◌∷◌, [], All, AllPairs, length, IfOk, OnOk, IsTrue, ◌↔◌, false};
ghost use Rattle.std.specs.List.{list_all};
ghost use Rattle.integer_laws.specs.Members.{In};
ghost use Rattle.pair_constraints.specs.Keeping.{IsKept};
ghost use Rattle.pair_constraints.specs.Limits.{IsFit};
ghost use Rattle.pair_constraints.specs.Laws.Covering.{is_short_of};
ghost use Rattle.pair_constraints.specs.Maximal.{AreApart, IsOf, IsPair, contacts_of};
ghost use Rattle.pair_constraints.specs.Laws.Nesting.{IsNested};
ghost use Rattle.pair_constraints.specs.Laws.Settling.{LeavesOut, Settles};
ghost use Rattle.pair_constraints.specs.Laws.Parting.{AreKeptOf, IsFree, IsShort};
ghost use Rattle.search_laws.specs.Covering.{Covers, IsCovered};
ghost use Rattle.seq_model.specs.Contacts.{IsContact, difference, points_of};
ghost use Rattle.seq_model.specs.Parts.{IsSoundPart};
ghost use Rattle.seq_model.specs.Soundness.{IsSoundZone};
ghost use Rattle.pair_constraints.specs.declared.kept.Kept.{Kept};

use crate::kept::{Kept, keep};
use crate::limits::{Limit, all_reach_no_farther};
use crate::nesting::Nested;
use crate::settling::settled;
use owned_lists::Items;
use seq_model::{Contact, Job, Part, Zone};
use seq_num::NoMemory;
use std::alloc::{AllocError, Global};

fn zones_reach_no_farther(limits: &[Limit], a: &Zone, b: &Zone, part: &Part) -> bool
    requires a { IsSoundZone a.now }
    requires b { IsSoundZone b.now }
    requires part { IsSoundPart part.now }
    requires fit { All IsFit limits.now }
    ensures { result ≡ list_all
        (is_short_of (difference a.now.corners b.now.corners part.now.corners)) limits.now }
{
    all_reach_no_farther(
        limits,
        a.corners.as_slice(),
        b.corners.as_slice(),
        part.corners.as_slice(),
    )
}

fn reaches_no_farther(limits: &[Limit], job: &Job, contact: &Contact) -> bool
    requires contact { IsContact job.now contact.now }
    requires fit { All IsFit limits.now }
    ensures { result ≡ list_all (is_short_of (points_of job.now contact.now)) limits.now }
{
    let a = &job.objects.as_slice()[contact.i as usize].zones.as_slice()[contact.zi as usize];
    let b = &job.objects.as_slice()[contact.j as usize].zones.as_slice()[contact.zj as usize];
    let part = &job.printer.parts.as_slice()[contact.part as usize];
    zones_reach_no_farther(limits, a, b, part)
}

fn limits_cover(kept: &Kept, job: &Job, contact: &Contact) -> bool
    requires contact { IsContact job.now contact.now }
    requires fit { All IsFit kept.now.limits }
    ensures { result ≡ list_all (is_short_of (points_of job.now contact.now)) kept.now.limits }
{
    reaches_no_farther(kept.limits.as_slice(), job, contact)
}

fn covers(job: &Job, kept: &Kept, contact: &Contact) -> bool
    requires kept { IsKept job.now kept.now }
    requires contact { IsContact job.now contact.now }
    ensures { IsTrue result
        ↔ Covers (points_of job.now kept.now.contact) (points_of job.now contact.now) }
{
    limits_cover(kept, job, contact)
}

fn is_covered(kept: &[Kept], job: &Job, contact: &Contact) -> bool
    requires contact { IsContact job.now contact.now }
    requires kept { All (AreKeptOf job.now contact.now.i contact.now.j) kept.now }
    ensures covered { IsTrue result → IsCovered job.now (contacts_of kept.now) contact.now }
    ensures none { result ≡ false → All (IsShort job.now contact.now) kept.now }
{
    for other in kept {
        if covers(job, other, contact) {
            return true;
        }
    }
    false
}

// Takes away those that a contact covers.
fn leave_covered(kept: &mut Vec<Kept>, job: &Job, by: &Kept)
    requires by { IsKept job.now by.now }
    requires kept { All (AreKeptOf job.now by.now.contact.i by.now.contact.j) kept.old.items }
    requires apart { AllPairs (AreApart job.now) kept.old.items }
    ensures kept { All (AreKeptOf job.now by.now.contact.i by.now.contact.j) kept.new.items }
    ensures apart { AllPairs (AreApart job.now) kept.new.items }
    ensures leaves { LeavesOut job.now by.now.contact
        (contacts_of kept.old.items) (contacts_of kept.new.items) }
    ensures only { (k : Kept) → In k kept.new.items → In k kept.old.items }
    ensures none { All (IsFree job.now by.now.contact) kept.new.items }
{
    let mut k = 0;
    while k < kept.len() {
        if covers(job, by, &kept[k].contact) {
            kept.remove(k);
        } else {
            k += 1;
        }
    }
}

fn put(kept: &mut Vec<Kept>, new: Kept) -> Result<(), AllocError>
    ensures { OnOk result (kept.new.items ≡ kept.old.items ++ new ∷ []) }
{
    kept.push(new)?;
    Ok(())
}

// Keeps a contact unless one that is kept covers it, and then those alone that it doesn't cover.
fn settle_kept(
    alloc: Global,
    kept: &mut Vec<Kept>,
    job: &Job,
    contact: &Contact,
) -> Result<(), NoMemory>
    requires contact { IsContact job.now contact.now }
    requires kept { All (AreKeptOf job.now contact.now.i contact.now.j) kept.old.items }
    requires apart { AllPairs (AreApart job.now) kept.old.items }
    ensures kept { OnOk result
        (All (AreKeptOf job.now contact.now.i contact.now.j) kept.new.items) }
    ensures apart { OnOk result (AllPairs (AreApart job.now) kept.new.items) }
    ensures settles { OnOk result (Settles job.now (λ c. c ≡ contact.now)
        (contacts_of kept.old.items) (contacts_of kept.new.items)) }
{
    if is_covered(kept, job, contact) {
        return Ok(());
    }
    let new = keep(alloc, job, contact)?;
    leave_covered(kept, job, &new);
    put(kept, new)?;
    Ok(())
}

fn settled_kept(
    alloc: Global,
    job: &Job,
    contacts: &[Contact],
    i: u32,
    j: u32,
) -> Result<Vec<Kept>, NoMemory>
    requires contacts { All (IsOf job.now i j) contacts.now }
    ensures kept { IfOk result (λ kept. All (AreKeptOf job.now i j) kept.items) }
    ensures apart { IfOk result (λ kept. AllPairs (AreApart job.now) kept.items) }
    ensures enough { IfOk result
        (λ kept. All (IsCovered job.now (contacts_of kept.items)) contacts.now) }
{
    let mut kept = Vec::new(alloc);
    for contact in contacts {
        settle_kept(alloc, &mut kept, job, contact)?;
    }
    Ok(kept)
}

fn maximal_of(
    alloc: Global,
    job: &Job,
    nested: &Nested,
    i: u32,
    j: u32,
) -> Result<Items<Kept>, NoMemory>
    requires nested { IsNested job.now nested.now }
    requires earlier { i < length job.now.objects }
    requires later { j < length job.now.objects }
    requires apart { i ≢ j }
    ensures { IfOk result (IsPair job.now i j) }
{
    let contacts = settled(alloc, job, nested, i, j)?;
    let kept = settled_kept(alloc, job, contacts.as_slice(), i, j)?;
    Ok(Items::from_vec(kept))
}

/// The maximal contacts of two objects in this order, none of an object with itself.
pub(crate) fn maximal(
    alloc: Global,
    job: &Job,
    nested: &Nested,
    i: u32,
    j: u32,
) -> Result<Items<Kept>, NoMemory>
    requires nested { IsNested job.now nested.now }
    requires earlier { i < length job.now.objects }
    requires later { j < length job.now.objects }
    ensures { IfOk result (IsPair job.now i j) }
{
    if i != j {
        return maximal_of(alloc, job, nested, i, j);
    }
    Ok(Items::new(alloc))
}
