//! That the files of a trial can be used.
//!
//! The files that `seq_trial` makes are stated to the byte. Here they are read, by the grammar of meshes and by the tables of
//! keys: whatever the number that they are made from, no reader refuses one.
//!
//! Each law is the contract of a call that does nothing. It stands on the made files and on the definitions of both readers;
//! the job of a trial stands on it.
#![tactic(auto)]

ghost use Rattle.std.specs.Prelude.{ℕ, ◌≤◌};
ghost use Rattle.printer_text.specs.Printers.{DescribedBy};
ghost use Rattle.seq_trial.specs.Towers.{mesh_text, printer_text};
ghost use Rattle.trial_laws.specs.Made.{IsMadeMesh, facets_at, made_description};

/// The made description states the made printer.
pub fn the_made_printer_is_described()
    ensures { DescribedBy printer_text made_description }
{}

/// A made mesh is read as twelve facets for each layer of its tower, and it can be sliced. The number of the object stands in the
/// name of the mesh, and the laws of spelled numbers go up to 10,000, far above the 16 objects of a trial.
pub fn a_made_mesh_can_be_used()
    ensures { (object state : ℕ) → object ≤ 10_000
        → IsMadeMesh (mesh_text object state) (facets_at state) }
{}
