// The sides of contacts, kept from their first use.
ghost use Rattle.std.specs.Prelude.{◌≡◌, List, None, Some, IfOk, IfSome, OnOk};
ghost use Rattle.std.specs.BTreeMap as tree;
ghost use Rattle.pair_constraints.specs.KeptSides.{AreKeptSides, contact_cmp, kept_sides};
ghost use Rattle.seq_model.specs.Contacts.{IsContact, difference, points_of};
ghost use Rattle.seq_model.specs.Parts.{IsSoundPart};
ghost use Rattle.seq_model.specs.Sides.{AreSides};
ghost use Rattle.seq_model.specs.Soundness.{IsSoundZone};
ghost use Rattle.seq_model.specs.declared.job.Job.{Job};
ghost use Rattle.seq_model.specs.declared.tree.Contact.{Contact};

use difference_polygon::sides_of;
use owned_lists::Items;
use seq_model::{Contact, Dir, Job, Part, Zone};
use seq_num::NoMemory;
use std::alloc::{AllocError, Global};
use std::collections::BTreeMap;

/// The contacts whose sides were asked for, each with its sides in order.
#[derive(Drop)]
pub struct KeptSides {
    pub known: BTreeMap<Contact, Items<Dir>>,
}

fn sides_of_zones(alloc: Global, a: &Zone, b: &Zone, part: &Part) -> Result<Items<Dir>, NoMemory>
    requires a { IsSoundZone a.now }
    requires b { IsSoundZone b.now }
    requires part { IsSoundPart part.now }
    ensures { IfOk result (AreSides (difference a.now.corners b.now.corners part.now.corners)) }
{
    let dirs = sides_of(
        alloc,
        a.corners.as_slice(),
        b.corners.as_slice(),
        part.corners.as_slice(),
    )?;
    Ok(Items::from_vec(dirs))
}

fn sides_at(alloc: Global, job: &Job, contact: &Contact) -> Result<Items<Dir>, NoMemory>
    requires contact { IsContact job.now contact.now }
    ensures { IfOk result (AreSides (points_of job.now contact.now)) }
{
    let a = &job.objects.as_slice()[contact.i as usize].zones.as_slice()[contact.zi as usize];
    let b = &job.objects.as_slice()[contact.j as usize].zones.as_slice()[contact.zj as usize];
    let part = &job.printer.parts.as_slice()[contact.part as usize];
    sides_of_zones(alloc, a, b, part)
}

impl KeptSides {
    /// None yet, and no memory taken.
    pub fn new(alloc: Global) -> KeptSides
        ensures { (job : Job) → AreKeptSides job result }
    {
        KeptSides {
            known: BTreeMap::new(alloc),
        }
    }

    fn keep(&mut self, job: &Job, contact: &Contact, sides: Items<Dir>) -> Result<(), AllocError>
        requires kept { AreKeptSides job.now self.old }
        requires sides { AreSides (points_of job.now contact.now) sides }
        requires new { tree.get contact_cmp self.old.known contact.now ≡ None }
        ensures kept { AreKeptSides job.now self.new }
        ensures keeps { OnOk result (kept_sides self.new contact.now ≡ Some sides) }
        ensures stay { (c : Contact)
            → IfSome (kept_sides self.old c) (λ sides. kept_sides self.new c ≡ Some sides) }
    {
        self.known.insert(*contact, sides)?;
        Ok(())
    }

    /// All sides of a contact, in order. They are kept from their first use, and looked up from then on.
    pub fn sides(
        &mut self,
        alloc: Global,
        job: &Job,
        contact: &Contact,
    ) -> Result<Items<Dir>, NoMemory>
        requires contact { IsContact job.now contact.now }
        requires kept { AreKeptSides job.now self.old }
        ensures kept { AreKeptSides job.now self.new }
        ensures sides { IfOk result (AreSides (points_of job.now contact.now)) }
        ensures keeps { IfOk result (λ sides. kept_sides self.new contact.now ≡ Some sides) }
        ensures stay { (c : Contact)
            → IfSome (kept_sides self.old c) (λ sides. kept_sides self.new c ≡ Some sides) }
    {
        if let Some(known) = self.known.get(contact) {
            return Ok(known.copy(alloc)?);
        }
        let sides = sides_at(alloc, job, contact)?;
        let answer = sides.copy(alloc)?;
        self.keep(job, contact, sides)?;
        Ok(answer)
    }
}
