// The sides of a difference.
ghost use Rattle.std.specs.Prelude.{◌≡◌, List, All, IfOk, None};
ghost use Rattle.seq_model.specs.declared.printer.Spot.{Spot};
ghost use Rattle.seq_model.specs.declared.tree.Dir.{Dir};
ghost use Rattle.seq_model.specs.Contacts.{difference};
ghost use Rattle.seq_model.specs.Sides.{AreSides};
ghost use Rattle.outline_laws.specs.Directions.{AllReduced, first_after, IsGoodAfter, IsNext, IsReduced, IsShort, IsShortOption};
ghost use Rattle.outline_laws.specs.Edges.{all_edges};
ghost use Rattle.outline_laws.specs.Outlines.{AreOutlines};

use outline_edges::{first_edge_after, push_edges, reduced_by_angle, shortest};
use seq_model::{Dir, Spot};
use seq_num::NoMemory;
use std::alloc::{AllocError, Global};

// Of the edges of the earlier outline, and of the later one and the part turned round, the first after a direction.
fn first_edge(a: &[Spot], b: &[Spot], f: &[Spot], after: &Option<Dir>) -> Option<Dir>
    requires { AreOutlines a.now b.now f.now }
    ensures value { result ≡ first_after after.now None (all_edges a.now b.now f.now) }
    ensures short { IsShortOption result }
{
    let of_a = first_edge_after(a, false, after, None);
    let of_b = first_edge_after(b, true, after, of_a);
    first_edge_after(f, true, after, of_b)
}

fn reduced(long: &Option<Dir>) -> Option<Dir>
    requires short { IsShortOption long.now }
    requires good { IsGoodAfter long.now }
    ensures value { IsReduced long.now result }
    ensures short { IsShortOption result }
{
    match long {
        None => None,
        Some(dir) => Some(shortest(dir)),
    }
}

fn next_after(a: &[Spot], b: &[Spot], f: &[Spot], after: &Option<Dir>) -> Option<Dir>
    requires outlines { AreOutlines a.now b.now f.now }
    requires after { IsGoodAfter after.now }
    ensures next { IsNext (difference a.now b.now f.now) after.now result }
    ensures short { IsShortOption result }
{
    reduced(&first_edge(a, b, f, after))
}

/// The first side, or the first whose angle is greater than that of `after`; None exactly where there is none. Takes no memory, and
/// one walk over the corners.
pub fn next_side(a: &[Spot], b: &[Spot], f: &[Spot], after: Option<Dir>) -> Option<Dir>
    requires outlines { AreOutlines a.now b.now f.now }
    requires after { IsGoodAfter after }
    ensures next { IsNext (difference a.now b.now f.now) after result }
    ensures short { IsShortOption result }
{
    next_after(a, b, f, &after)
}

fn reduced_edges(alloc: Global, a: &[Spot], b: &[Spot], f: &[Spot]) -> Result<Vec<Dir>, AllocError>
    requires { AreOutlines a.now b.now f.now }
    ensures reduced { IfOk result (λ dirs. AllReduced (all_edges a.now b.now f.now) dirs.items) }
    ensures short { IfOk result (λ dirs. All IsShort dirs.items) }
{
    let mut edges = Vec::with_capacity(alloc, a.len() + b.len() + f.len())?;
    push_edges(&mut edges, a, false)?;
    push_edges(&mut edges, b, true)?;
    push_edges(&mut edges, f, true)?;
    reduced_by_angle(alloc, edges)
}

/// All sides, by angle from (1, 0): the outward directions of the edges of the three, the last two turned round, each once.
pub fn sides_of(alloc: Global, a: &[Spot], b: &[Spot], f: &[Spot]) -> Result<Vec<Dir>, NoMemory>
    requires { AreOutlines a.now b.now f.now }
    ensures sides { IfOk result (λ dirs. AreSides (difference a.now b.now f.now) dirs.items) }
    ensures short { IfOk result (λ dirs. All IsShort dirs.items) }
{
    Ok(reduced_edges(alloc, a, b, f)?)
}
