ghost use Rattle.std.specs.Prelude.{◌≡◌, ◌+◌, ◌≤◌, ◌<◌, ◌^◌, pos, length, IfOk};
ghost use Rattle.mesh_slices.specs.Objects.{CanBeSliced};
ghost use Rattle.seq_trial.specs.Towers.{printer_text};
ghost use Rattle.stl_text.specs.Meshes.{MeshOf};
ghost use Rattle.trial_job.specs.Making.{IsUsableFile, AreUsableFiles, IsMadePrinter, IsMadeObject, AreMadeObjects};
ghost use Rattle.trial_job.specs.Trials.{IsTrial};

use mesh_slices::{Slice, object};
use owned_lists::Items;
use printer_text::{Prn, read_printer};
use seq_io::MemFile;
use seq_limits::{MOST_FACETS, MOST_OBJECTS};
use seq_model::{Job, Mesh, Object, Printer};
use seq_num::NoMemory;
use seq_trial::trial_files;
use std::alloc::Global;
use stl_text::{Stl, read_mesh};

/// The job of made files, and how many facets were read of their meshes.
#[derive(Debug, Drop)]
pub struct TrialJob {
    pub job: Job,
    pub facets: u64,
}

// The object of one made file, and how many facets were read of its mesh.
#[derive(Debug, Drop)]
struct Made {
    object: Object,
    facets: u64,
}

// The objects of made files, and how many facets were read of their meshes.
#[derive(Debug, Drop)]
struct MadeAll {
    objects: Items<Object>,
    facets: u64,
}

// The printer of the made description.
fn made_printer(alloc: Global, bytes: &[u8]) -> Result<Printer, NoMemory>
    requires { bytes.now ≡ printer_text }
    ensures { IfOk result IsMadePrinter }
{
    match read_printer(alloc, bytes) {
        Ok(printer) => Ok(printer),
        Err(why) => match why {
            Prn::NoMemory => Err(NoMemory),
            _ => unreachable!(),
        },
    }
}

// The mesh of a made file.
fn made_mesh(alloc: Global, file: &MemFile) -> Result<Mesh, NoMemory>
    requires { IsUsableFile file.now }
    ensures is { IfOk result (λ mesh. MeshOf file.now.bytes mesh.facets mesh.dropped) }
    ensures slices { IfOk result (λ mesh. CanBeSliced mesh.facets (pos 10_000)) }
{
    match read_mesh(alloc, file.bytes.as_slice()) {
        Ok(mesh) => Ok(mesh),
        Err(why) => match why {
            Stl::NoMemory => Err(NoMemory),
            _ => unreachable!(),
        },
    }
}

// How many facets were read of a mesh, those that were dropped among them.
fn facets_read(mesh: &Mesh) -> u64
    ensures count { result ≡ length mesh.now.facets + mesh.now.dropped }
    ensures few { result ≤ MOST_FACETS }
{
    mesh.facets.len() as u64 + u64::from(mesh.dropped)
}

// The object of a made file: the bands of the made printer are 10 mm high, by which every made mesh can be sliced.
fn made_object(alloc: Global, file: &MemFile, printer: &Printer) -> Result<Made, NoMemory>
    requires file { IsUsableFile file.now }
    requires step { printer.now.step ≡ pos 10_000 }
    ensures is { IfOk result (λ made. IsMadeObject printer.now file.now made.object made.facets) }
    ensures few { IfOk result (λ made. made.facets ≤ MOST_FACETS) }
{
    let mesh = made_mesh(alloc, file)?;
    match object(alloc, file.name.as_str(), &mesh, printer) {
        Ok(object) => Ok(Made {
            object,
            facets: facets_read(&mesh),
        }),
        Err(Slice::NoMemory) => Err(NoMemory),
        Err(_) => unreachable!(),
    }
}

// The objects of made files, in their order.
fn made_objects(alloc: Global, files: &[MemFile], printer: &Printer) -> Result<MadeAll, NoMemory>
    requires files { AreUsableFiles files.now }
    requires few { length files.now ≤ MOST_OBJECTS }
    requires step { printer.now.step ≡ pos 10_000 }
    ensures { IfOk result (λ all. AreMadeObjects printer.now files.now all.objects all.facets) }
{
    let mut objects = Items::new(alloc);
    let mut facets = 0;
    for file in files {
        let made = made_object(alloc, file, printer)?;
        objects.push(made.object)?;
        facets += made.facets;
    }
    Ok(MadeAll { objects, facets })
}

/// The job of the files that are made of so many objects from a seed. Want of memory is the only refusal.
pub fn trial_job(alloc: Global, objects: u32, seed: u64) -> Result<TrialJob, NoMemory>
    requires some { 1 ≤ objects }
    requires few { objects ≤ MOST_OBJECTS }
    requires seed { seed < 2 ^ 32 }
    ensures { IfOk result (λ trial. IsTrial objects seed trial.job trial.facets) }
{
    let files = trial_files(alloc, objects, seed)?;
    let printer = made_printer(alloc, files.printer.as_slice())?;
    let all = made_objects(alloc, files.meshes.as_slice(), &printer)?;
    Ok(TrialJob {
        job: Job {
            printer,
            objects: all.objects,
        },
        facets: all.facets,
    })
}
