// The maximal contacts of all ordered pairs of a job's objects.
ghost use Rattle.std.specs.Prelude.{◌≡◌, ◌<◌, [], All, length, IfOk, slice_index_or};
ghost use Rattle.pair_constraints.specs.Maximal.{AreContacts, IsMaximal, kept_contacts, kept_of};
ghost use Rattle.pair_constraints.specs.Laws.Nesting.{IsNested};
ghost use Rattle.pair_constraints.specs.Laws.Rows.{IsRow, AreRows};
ghost use Rattle.search_laws.specs.Covering.{AreEnough};

use crate::kept::Kept;
use crate::maximal::maximal;
use crate::nesting::Nested;
use owned_lists::Items;
use seq_model::Job;
use seq_num::NoMemory;
use std::alloc::Global;

/// The maximal contacts of each ordered pair of objects: those whose difference lies in no other's of that pair. They stand by the
/// earlier object, and then by the later one.
#[derive(Debug, Drop)]
pub struct Contacts {
    pub rows: Items<Items<Items<Kept>>>,
}

fn object_count(job: &Job) -> u32
    ensures { result ≡ length job.now.objects }
{
    job.objects.len() as u32
}

fn row_of(alloc: Global, job: &Job, nested: &Nested, i: u32) -> Result<Items<Items<Kept>>, NoMemory>
    requires nested { IsNested job.now nested.now }
    requires earlier { i < length job.now.objects }
    ensures { IfOk result (IsRow job.now i) }
{
    let mut row = Items::new(alloc);
    for j in 0..object_count(job) {
        let pair = maximal(alloc, job, nested, i, j)?;
        row.push(pair)?;
    }
    Ok(row)
}

fn rows_of(alloc: Global, job: &Job, nested: &Nested) -> Result<Items<Items<Items<Kept>>>, NoMemory>
    requires { IsNested job.now nested.now }
    ensures { IfOk result (AreRows job.now) }
{
    let mut rows = Items::new(alloc);
    for i in 0..object_count(job) {
        let row = row_of(alloc, job, nested, i)?;
        rows.push(row)?;
    }
    Ok(rows)
}

impl Contacts {
    /// Those of a job: with their sides, made once for all that is asked of them.
    pub fn of(alloc: Global, job: &Job) -> Result<Contacts, NoMemory>
        ensures kept { IfOk result (AreContacts job.now) }
        ensures enough { IfOk result (λ contacts. AreEnough job.now (kept_contacts contacts)) }
        ensures maximal { IfOk result
            (λ contacts. All (IsMaximal job.now) (kept_contacts contacts)) }
    {
        let nested = Nested::of(alloc, job)?;
        let rows = rows_of(alloc, job, &nested)?;
        Ok(Contacts { rows })
    }

    /// Those of two objects, i the earlier one. Takes no memory.
    pub fn of_pair(&self, i: u32, j: u32) -> &[Kept]
        requires earlier { i < length self.now.rows }
        requires later { j < length (slice_index_or self.now.rows i []) }
        ensures { result.now ≡ kept_of self.now i j }
    {
        self.rows.as_slice()[i as usize].as_slice()[j as usize].as_slice()
    }
}
