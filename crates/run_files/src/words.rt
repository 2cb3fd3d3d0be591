ghost use Rattle.std.specs.Prelude.{◌≡◌, ◌⊎◌, ◌≤◌, ℕ, Some, None, Ok, Err, length, slice_get, IfOk, IfErr, OnErr};
ghost use Rattle.seq_words.specs.declared.command.Command.{Command};
ghost use Rattle.seq_words.specs.Usages.{texts};
ghost use Rattle.seq_words.specs.declared.command.Words.{Words};
ghost use Rattle.run_files.specs.Files.{name_in, name_or};
ghost use Rattle.run_files.specs.Words.{IsSoundRequest, arranging, request_by, request_of, requested};

use crate::NamedFile;
use owned_lists::{Items, Text};
use seq_words::{Command, Words, read};
use std::alloc::Global;

/// What is to be done with the files.
#[derive(Clone, Copy, PartialEq, Eq, Debug)]
pub enum Task {
    /// A strict run refuses a mesh that isn't closed or doesn't look outward. A search has at most the budget of nodes, but for its last
    /// split's children.
    Arrange { strict: bool, budget: u64 },
    /// The same for the least extent, where the budget holds for each extent that is tried.
    Least { strict: bool, budget: u64 },
    Audit,
    Check,
    Slices,
}

/// What the words ask for, and the files that they name, in word order.
#[derive(Debug, Drop)]
pub struct Asked {
    pub task: Task,
    pub printer: Text,
    /// An audit and a check are of a plan.
    pub plan: Option<Text>,
    /// 1 to 16.
    pub meshes: Items<Text>,
}

/// What the words ask for.
#[derive(Debug, Drop)]
pub enum Request {
    OfFiles(Asked),
    /// So many objects, 1 to 16, are made from a seed below 2^32, and arranged. No file is named.
    Trial { objects: u32, seed: u64 },
}

// A task with its files. clap finds at least one mesh.
fn request_by(
    task: Task,
    printer: Text,
    plan: Option<Text>,
    meshes: Items<Text>,
) -> Result<Request, Words>
    ensures asked { result ≡ request_by task printer plan meshes }
{
    if meshes.is_empty() {
        Err(Words::Usage)
    } else {
        Ok(Request::OfFiles(Asked {
            task,
            printer,
            plan,
            meshes,
        }))
    }
}

// What `slices` asks for.
fn request_to_slice(alloc: Global, printer: Text, mesh: Text) -> Result<Request, Words>
    ensures asked { IfOk result (λ r. request_of (Command.Slices printer mesh) ≡ Ok r) }
    ensures refused { IfErr result (λ why. why ≡ Words.NoMemory) }
{
    let mut meshes = Items::new(alloc);
    if meshes.push(mesh).is_err() {
        return Err(Words::NoMemory);
    }
    Ok(Request::OfFiles(Asked {
        task: Task::Slices,
        printer,
        plan: None,
        meshes,
    }))
}

fn arranging(least: bool, strict: bool, budget: u64) -> Task
    ensures { result ≡ arranging least strict budget }
{
    if least {
        Task::Least { strict, budget }
    } else {
        Task::Arrange { strict, budget }
    }
}

// What a command asks for.
fn request_of(alloc: Global, command: Command) -> Result<Request, Words>
    ensures asked { IfOk result (λ r. request_of command ≡ Ok r) }
    ensures refused { IfErr result (λ why.
        (why ≡ Words.NoMemory) ⊎ (request_of command ≡ Err why)) }
{
    match command {
        Command::Arrange {
            least,
            strict,
            budget,
            printer,
            meshes,
        } => request_by(arranging(least, strict, budget), printer, None, meshes),
        Command::Check {
            printer,
            plan,
            meshes,
        } => request_by(Task::Check, printer, Some(plan), meshes),
        Command::Audit {
            printer,
            plan,
            meshes,
        } => request_by(Task::Audit, printer, Some(plan), meshes),
        Command::Slices { printer, mesh } => request_to_slice(alloc, printer, mesh),
        Command::Trial { objects, seed } => Ok(Request::Trial { objects, seed }),
    }
}

/// What the words ask for.
pub fn read_request(alloc: Global, words: &[String]) -> Result<Request, Words>
    ensures asked { IfOk result (λ r. requested (texts words.now) ≡ Ok r) }
    ensures is { IfOk result IsSoundRequest }
    ensures refused { IfErr result (λ why.
        (why ≡ Words.NoMemory) ⊎ (requested (texts words.now) ≡ Err why)) }
{
    match read(alloc, words) {
        Ok(command) => request_of(alloc, command),
        Err(refusal) => Err(refusal),
    }
}

/// The word that names a file; nothing where no word does.
pub fn name_in(asked: &Asked, file: NamedFile) -> &str
    ensures { result.now ≡ name_in asked.now file }
{
    match file {
        NamedFile::Printer => asked.printer.as_str(),
        NamedFile::Plan => plan_name(asked),
        NamedFile::Mesh(number) => mesh_name(asked, number),
    }
}

fn plan_name(asked: &Asked) -> &str
    ensures { result.now ≡ name_or asked.now.plan }
{
    match &asked.plan {
        Some(name) => name.as_str(),
        None => "",
    }
}

fn mesh_name(asked: &Asked, number: usize) -> &str
    ensures { result.now ≡ name_or (slice_get asked.now.meshes number) }
{
    match asked.meshes.as_slice().get(number) {
        Some(name) => name.as_str(),
        None => "",
    }
}
