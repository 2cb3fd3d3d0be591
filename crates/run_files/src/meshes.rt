ghost use Rattle.std.specs.Prelude.{◌≡◌, ◌<◌, ◌+◌, ◌++◌, ◌∷◌, [], ℕ, List, Option, length, IfOk, IfErr, OnOk};
ghost use Rattle.mesh_checks.specs.Edges.{open_edges};
ghost use Rattle.mesh_checks.specs.Volumes.{six_volume};
ghost use Rattle.mesh_slices.specs.Objects.{CanBeSliced, IsObjectOf};
ghost use Rattle.seq_io.specs.Views.{ShelfView};
ghost use Rattle.seq_model.specs.declared.job.Object.{Object};
ghost use Rattle.run_files.specs.Causes.{IsUnfit, IsUnlooked, IsUnsliced};
ghost use Rattle.run_files.specs.Files.{PassesStrict, mesh_of, name_in};
ghost use Rattle.run_files.specs.Loading.{IsFitted, Loading};
ghost use Rattle.run_files.specs.Notes.{IsNoteFor};
ghost use Rattle.run_files.specs.Stops.{Explains, NextRead};
ghost use Rattle.run_files.specs.Words.{is_strict};
ghost use Rattle.run_files.specs.declared.plans.GivenPlan.{GivenPlan};
ghost use Rattle.run_files.specs.declared.stop.NamedFile.{NamedFile};

use crate::files::load_mesh;
use crate::stop::stop_at;
use crate::words::name_in;
use crate::{Asked, Cause, NamedFile, Stop, Task, Unfit};
use mesh_checks::{Notes, look};
use mesh_notes::note_of;
use mesh_slices::{Slice, object};
use owned_lists::Items;
use seq_io::Shelf;
use seq_model::{Mesh, Object, Printer};
use std::alloc::{AllocError, Global};

/// The objects of the meshes, and what is noted of these.
#[derive(Debug, Drop)]
pub struct Found {
    pub objects: Items<Object>,
    pub notes: Vec<u8>,
}

// What one mesh gives: its object, and its note.
#[derive(Debug, Drop)]
struct Fitted {
    object: Object,
    note: Items<u8>,
}

// What there is to say of a mesh; a strict run refuses one that isn't closed or doesn't look outward.
fn looked(alloc: Global, strict: bool, mesh: &Mesh) -> Result<Notes, Unfit>
    ensures open { IfOk result (λ looks. looks.open_edges ≡ open_edges mesh.now.facets) }
    ensures volume { IfOk result (λ looks. looks.six_volume ≡ six_volume mesh.now.facets) }
    ensures dropped { IfOk result (λ looks. looks.dropped ≡ mesh.now.dropped) }
    ensures passes { IfOk result (λ looks. PassesStrict strict mesh.now.facets) }
    ensures why { IfErr result (IsUnlooked strict mesh.now.facets) }
{
    let looks = look(alloc, mesh)?;
    if strict && !looks.is_closed_outward() {
        return Err(Unfit::Because(Cause::NotClosed {
            open_edges: looks.open_edges,
            six_volume: looks.six_volume,
        }));
    }
    Ok(looks)
}

// What is noted of a mesh of this name.
fn noted(alloc: Global, task: Task, name: &str, mesh: &Mesh) -> Result<Items<u8>, Unfit>
    ensures note { IfOk result (IsNoteFor task
        (mesh_of name.now mesh.now.facets mesh.now.dropped)) }
    ensures passes { IfOk result (λ note. PassesStrict (is_strict task) mesh.now.facets) }
    ensures why { IfErr result (IsUnlooked (is_strict task) mesh.now.facets) }
{
    match task {
        Task::Arrange { strict, budget: _ } | Task::Least { strict, budget: _ } => {
            let looks = looked(alloc, strict, mesh)?;
            Ok(note_of(alloc, name, &looks)?)
        }
        Task::Audit | Task::Check | Task::Slices => Ok(Items::new(alloc)),
    }
}

// The object of a mesh of this name.
fn sliced(alloc: Global, name: &str, mesh: &Mesh, printer: &Printer) -> Result<Object, Unfit>
    ensures object { IfOk result (IsObjectOf name.now mesh.now.facets printer.now) }
    ensures slices { IfOk result (λ object. CanBeSliced mesh.now.facets printer.now.step) }
    ensures why { IfErr result (IsUnsliced mesh.now.facets printer.now.step) }
{
    match object(alloc, name, mesh, printer) {
        Ok(object) => Ok(object),
        Err(Slice::Flat) => Err(Unfit::Because(Cause::Flat)),
        Err(Slice::TooTall(bands)) => Err(Unfit::Because(Cause::TooTall(bands))),
        Err(Slice::NoMemory) => Err(Unfit::NoMemory),
    }
}

// The object and the note of a mesh of this name. It is looked at before it is sliced.
fn fit(
    alloc: Global,
    task: Task,
    name: &str,
    mesh: &Mesh,
    printer: &Printer,
) -> Result<Fitted, Unfit>
    ensures note { IfOk result (λ fitted.
        IsNoteFor task (mesh_of name.now mesh.now.facets mesh.now.dropped) fitted.note) }
    ensures object { IfOk result (λ fitted. IsObjectOf name.now mesh.now.facets printer.now fitted.object) }
    ensures passes { IfOk result (λ fitted. PassesStrict (is_strict task) mesh.now.facets) }
    ensures slices { IfOk result (λ fitted. CanBeSliced mesh.now.facets printer.now.step) }
    ensures why { IfErr result (IsUnfit task mesh.now.facets printer.now.step) }
{
    let note = noted(alloc, task, name, mesh)?;
    let object = sliced(alloc, name, mesh, printer)?;
    Ok(Fitted { object, note })
}

// The object and the note of the mesh of this number, where it is the next file in word order.
fn fit_file<S: Shelf>(
    alloc: Global,
    asked: &Asked,
    number: usize,
    printer: &Printer,
    shelf: &mut S,
) -> Result<Fitted, Stop>
    requires { number < length asked.now.meshes }
    ensures is { IfOk result (λ fitted. IsFitted (S.shows shelf.old).files asked.now.task
        (name_in asked.now (NamedFile.Mesh number)) printer.now fitted.object fitted.note) }
    ensures read { OnOk result (NextRead (name_in asked.now (NamedFile.Mesh number))
        (S.shows shelf.old) (S.shows shelf.new)) }
    ensures files { (S.shows shelf.new).files ≡ (S.shows shelf.old).files }
    ensures why { (s : ShelfView) (plan : Option GivenPlan) (objects : List Object) (notes : List ℕ)
        → Loading asked.now printer.now plan number s (S.shows shelf.old) objects notes
        → IfErr result (Explains asked.now s (S.shows shelf.new)) }
{
    let mesh = load_mesh(alloc, asked, number, shelf)?;
    let name = name_in(asked, NamedFile::Mesh(number));
    match fit(alloc, asked.task, name, &mesh, printer) {
        Ok(fitted) => Ok(fitted),
        Err(why) => Err(stop_at(NamedFile::Mesh(number), why)),
    }
}

// Keeps what a mesh gives behind what the meshes before it gave.
fn keep(found: &mut Found, fitted: Fitted) -> Result<(), AllocError>
    ensures objects { OnOk result (found.new.objects ≡ found.old.objects ++ fitted.object ∷ []) }
    ensures notes { OnOk result (found.new.notes.items ≡ found.old.notes.items ++ fitted.note) }
{
    let Fitted { object, note } = fitted;
    found.notes.extend_from_slice(note.as_slice())?;
    found.objects.push(object)
}

// The next mesh in word order, its object and its note behind those of the meshes before it.
fn load_next<S: Shelf>(
    alloc: Global,
    asked: &Asked,
    number: usize,
    printer: &Printer,
    found: &mut Found,
    shelf: &mut S,
) -> Result<(), Stop>
    requires { number < length asked.now.meshes }
    ensures next { (s : ShelfView) (plan : Option GivenPlan)
        → Loading asked.now printer.now plan number s
        (S.shows shelf.old) found.old.objects found.old.notes.items
        → OnOk result (Loading asked.now printer.now plan (number + 1) s (S.shows shelf.new)
        found.new.objects found.new.notes.items) }
    ensures why { (s : ShelfView) (plan : Option GivenPlan)
        → Loading asked.now printer.now plan number s
        (S.shows shelf.old) found.old.objects found.old.notes.items
        → IfErr result (Explains asked.now s (S.shows shelf.new)) }
{
    let fitted = fit_file(alloc, asked, number, printer, shelf)?;
    match keep(found, fitted) {
        Ok(()) => Ok(()),
        Err(_) => Err(Stop::Memory),
    }
}

/// The objects of the meshes that the words name, each read in word order, and what is noted of the meshes.
pub fn load_meshes<S: Shelf>(
    alloc: Global,
    asked: &Asked,
    printer: &Printer,
    shelf: &mut S,
) -> Result<Found, Stop>
    ensures all { (s : ShelfView) (plan : Option GivenPlan)
        → Loading asked.now printer.now plan 0 s (S.shows shelf.old) [] []
        → IfOk result (λ found. Loading asked.now printer.now plan (length asked.now.meshes)
        s (S.shows shelf.new) found.objects found.notes.items) }
    ensures why { (s : ShelfView) (plan : Option GivenPlan)
        → Loading asked.now printer.now plan 0 s (S.shows shelf.old) [] []
        → IfErr result (Explains asked.now s (S.shows shelf.new)) }
{
    let mut found = Found {
        objects: Items::new(alloc),
        notes: Vec::new(alloc),
    };
    for number in 0..asked.meshes.len() {
        load_next(alloc, asked, number, printer, &mut found, shelf)?;
    }
    Ok(found)
}
