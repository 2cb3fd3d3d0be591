ghost use Rattle.std.specs.Prelude.{IfOk, IfErr, OnOk};
ghost use Rattle.run_files.specs.Jobs.{IsLoaded};
ghost use Rattle.run_files.specs.Stops.{Explains, ReadUpTo, WantsMemory, last_of};
ghost use Rattle.run_files.specs.Words.{IsRequest};

use crate::files::load_printer;
use crate::meshes::{Found, load_meshes};
use crate::plans::load_plan;
use crate::{Asked, GivenPlan, Stop};
use owned_lists::Items;
use seq_io::Shelf;
use seq_model::Job;
use std::alloc::Global;

/// What the files of a run give: their job, the plan if one is named, and the notes of the meshes.
#[derive(Debug, Drop)]
pub struct Loaded {
    pub job: Job,
    pub plan: Option<GivenPlan>,
    pub notes: Items<u8>,
}

/// What the files that the words name give. Each is read in word order, and only where those before it can be used.
pub fn load<S: Shelf>(alloc: Global, asked: &Asked, shelf: &mut S) -> Result<Loaded, Stop>
    requires { IsRequest asked.now }
    ensures is { IfOk result (λ loaded. IsLoaded (S.shows shelf.old).files asked.now
        loaded.job loaded.plan loaded.notes) }
    ensures read { OnOk result (ReadUpTo asked.now (last_of asked.now)
        (S.shows shelf.old) (S.shows shelf.new)) }
    ensures reached { OnOk result (WantsMemory asked.now (S.shows shelf.old) (S.shows shelf.new)) }
    ensures why { IfErr result (Explains asked.now (S.shows shelf.old) (S.shows shelf.new)) }
{
    let printer = load_printer(alloc, asked, shelf)?;
    let plan = load_plan(alloc, asked, shelf)?;
    let found = load_meshes(alloc, asked, &printer, shelf)?;
    let Found { objects, notes } = found;
    let notes = Items::from_vec(notes);
    Ok(Loaded {
        job: Job { printer, objects },
        plan,
        notes,
    })
}
