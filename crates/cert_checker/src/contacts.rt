// Whether what a split names is there.
ghost use Rattle.std.specs.Prelude.{◌<◌, length, IsTrue, ◌↔◌};
ghost use Rattle.seq_model.specs.Contacts.{IsContact};

use printer_envelopes::zones_meet;
use seq_model::{Contact, Job};

/// Whether a contact exists in the job.
pub fn exists(job: &Job, contact: &Contact) -> bool
    ensures { IsTrue result ↔ IsContact job.now contact.now }
{
    let objects = job.objects.as_slice();
    let (i, j) = (contact.i as usize, contact.j as usize);
    if i >= objects.len() {
        return false;
    }
    if j >= objects.len() {
        return false;
    }
    if i == j {
        return false;
    }
    let earlier = objects[i].zones.as_slice();
    let later = objects[j].zones.as_slice();
    let parts = job.printer.parts.as_slice();
    let (zi, zj, part) = (
        contact.zi as usize,
        contact.zj as usize,
        contact.part as usize,
    );
    if zi >= earlier.len() {
        return false;
    }
    if zj >= later.len() {
        return false;
    }
    if part >= parts.len() {
        return false;
    }
    zones_meet(&parts[part], &later[zj], &earlier[zi])
}

/// Whether an order is of two objects of the job, the lesser first.
pub fn are_ordered(job: &Job, i: u32, j: u32) -> bool
    ensures { IsTrue result ↔ ((i < j) × (j < length job.now.objects)) }
{
    i < j && (j as usize) < job.objects.len()
}
