ghost use Rattle.std.specs.Prelude.{◌≡◌, ◌+◌, ◌++◌, ◌≤◌, ◌<◌, ◌^◌, codes, IfOk, OnOk};
ghost use Rattle.seq_trial.specs.Draws.{later};
ghost use Rattle.seq_trial.specs.Towers.{mesh_text, mesh_file, meshes_from, name_of, printer_text, tower_at, trial_files};

use crate::draws::Draws;
use crate::tower::{draw_tower, put_tower};
use owned_lists::{Items, Text};
use seq_io::MemFile;
use seq_limits::MOST_OBJECTS;
use seq_num::NoMemory;
use std::alloc::{AllocError, Global};
use text_lines::put_number;

// A plate of 200 by 200 mm, with a nozzle and a gantry.
static PRINTER: &[u8] =
    b"format = 1\ngrain = 1\nplate = [200, 200]\nstep = 10\nmargin = 1\ngrid = 100\n\n[[part]]\nname = \"nozzle\"\nfrom = 0\ncorners = [[-2, -2], [2, -2], [2, 2], [-2, 2]]\n\n[[part]]\nname = \"gantry\"\nfrom = 20\nbar = \"x\"\nlow = -10\nhigh = 10\n";

/// A description of a printer, and the mesh files of some objects.
#[derive(Debug, Drop)]
pub struct TrialFiles {
    pub printer: Items<u8>,
    pub meshes: Items<MemFile>,
}

#[tactic(auto, unfolding(crate::specs::Towers::name_of))]
fn put_name(to: &mut Vec<u8>, object: u32) -> Result<(), AllocError>
    ensures { OnOk result (to.new.items ≡ to.old.items ++ name_of object) }
{
    put_number(to, b"o", i128::from(object))
}

#[tactic(auto, unfolding(crate::specs::Towers::name_of))]
fn file_name(alloc: Global, object: u32) -> Result<Text, AllocError>
    ensures { IfOk result (λ name. name ≡ name_of object ++ codes ".stl") }
{
    Ok(Text::from_string(format!(in alloc; "o{object}.stl")?))
}

// The text of the next object's mesh.
fn draw_mesh(alloc: Global, object: u32, draws: &mut Draws) -> Result<Vec<u8>, AllocError>
    requires state { draws.old.state < 2 ^ 32 }
    ensures text { IfOk result (λ text. text.items ≡ mesh_text object draws.old.state) }
    ensures state { OnOk result (draws.new.state
        ≡ later (3 + (tower_at draws.old.state).higher) draws.old.state) }
    ensures small { draws.new.state < 2 ^ 32 }
{
    let mut text = Vec::new(alloc);
    text.extend_from_slice(b"solid ")?;
    put_name(&mut text, object)?;
    text.extend_from_slice(b"\n")?;
    let tower = draw_tower(draws);
    put_tower(&mut text, tower, draws)?;
    text.extend_from_slice(b"endsolid ")?;
    put_name(&mut text, object)?;
    text.extend_from_slice(b"\n")?;
    Ok(text)
}

fn draw_file(alloc: Global, object: u32, draws: &mut Draws) -> Result<MemFile, AllocError>
    requires state { draws.old.state < 2 ^ 32 }
    ensures file { IfOk result (λ file. file ≡ mesh_file object draws.old.state) }
    ensures state { OnOk result (draws.new.state
        ≡ later (3 + (tower_at draws.old.state).higher) draws.old.state) }
    ensures small { draws.new.state < 2 ^ 32 }
{
    let bytes = Items::from_vec(draw_mesh(alloc, object, draws)?);
    Ok(MemFile {
        name: file_name(alloc, object)?,
        bytes,
    })
}

fn draw_files(alloc: Global, objects: u32, seed: u64) -> Result<Items<MemFile>, AllocError>
    requires seed { seed < 2 ^ 32 }
    ensures { IfOk result (λ files. files ≡ meshes_from objects 0 seed) }
{
    let mut draws = Draws { state: seed };
    let mut files = Items::new(alloc);
    for object in 0..objects {
        files.push(draw_file(alloc, object, &mut draws)?)?;
    }
    Ok(files)
}

/// The files of so many objects, made from a seed.
pub fn trial_files(alloc: Global, objects: u32, seed: u64) -> Result<TrialFiles, NoMemory>
    requires some { 1 ≤ objects }
    requires few { objects ≤ MOST_OBJECTS }
    requires seed { seed < 2 ^ 32 }
    ensures { IfOk result (λ files. files ≡ trial_files objects seed) }
{
    let printer = Items::from_vec(Vec::from_slice(alloc, PRINTER)?);
    let meshes = draw_files(alloc, objects, seed)?;
    Ok(TrialFiles { printer, meshes })
}
