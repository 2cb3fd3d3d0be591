//! The text of what is odd about a mesh: its open edges, its volume, its dropped facets.
//!
//! `note_of` gives the line that a run writes of a mesh, exactly where one is due, and `put_looks` the part of it that also says
//! why a strict run refuses one. It stands on the checks of a mesh, and below the reading of files and the lines of refused ones.
#![tactic(auto)]

ghost use Rattle.std.specs.Prelude.{◌≡◌, ◌++◌, IfOk, OnOk};
ghost use Rattle.mesh_notes.specs.Notes.{IsNoteOf, dropped_text, looks_text, note_line, volume_text};

use mesh_checks::Notes;
use owned_lists::Items;
use std::alloc::{AllocError, Global};
use text_lines::{put_line, put_number};

// Appends six times the volume.
#[tactic(auto, unfolding(crate::specs::Notes::volume_text))]
fn put_volume(to: &mut Vec<u8>, six_volume: i128) -> Result<(), AllocError>
    ensures { OnOk result (to.new.items ≡ to.old.items ++ volume_text six_volume) }
{
    put_number(to, b", six volume ", six_volume)
}

/// Appends open edges and six times the volume.
#[tactic(auto, unfolding(crate::specs::Notes::looks_text))]
pub fn put_looks(to: &mut Vec<u8>, open_edges: u64, six_volume: i128) -> Result<(), AllocError>
    ensures { OnOk result (to.new.items ≡ to.old.items ++ looks_text open_edges six_volume) }
{
    put_number(to, b"open edges ", i128::from(open_edges))?;
    put_volume(to, six_volume)
}

// Appends the number of dropped facets, and ends the line.
#[tactic(auto, unfolding(crate::specs::Notes::dropped_text))]
fn put_dropped(to: &mut Vec<u8>, dropped: u32) -> Result<(), AllocError>
    ensures { OnOk result (to.new.items ≡ to.old.items ++ dropped_text dropped) }
{
    put_line(to, b", dropped ", i128::from(dropped))
}

fn note_line(alloc: Global, name: &str, looks: &Notes) -> Result<Vec<u8>, AllocError>
    ensures { IfOk result (λ line. line.items
        ≡ note_line name.now looks.now.open_edges looks.now.six_volume looks.now.dropped) }
{
    let mut line = Vec::from_slice(alloc, b"note: ")?;
    line.extend_from_slice(name.as_bytes())?;
    line.extend_from_slice(b": ")?;
    put_looks(&mut line, looks.open_edges, looks.six_volume)?;
    put_dropped(&mut line, looks.dropped)?;
    Ok(line)
}

/// What is noted of a mesh of this name; nothing where no note is due.
pub fn note_of(alloc: Global, name: &str, looks: &Notes) -> Result<Items<u8>, AllocError>
    ensures { IfOk result
        (IsNoteOf name.now looks.now.open_edges looks.now.six_volume looks.now.dropped) }
{
    if !looks.is_due() {
        return Ok(Items::new(alloc));
    }
    Ok(Items::from_vec(note_line(alloc, name, looks)?))
}
