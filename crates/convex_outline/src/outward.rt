// The sides of an outline.
ghost use Rattle.std.specs.Prelude.{IfOk, List, All};
ghost use Rattle.seq_model.specs.declared.printer.Spot.{Spot};
ghost use Rattle.seq_model.specs.declared.tree.Dir.{Dir};
ghost use Rattle.seq_model.specs.Sides.{AreSides};
ghost use Rattle.outline_laws.specs.Corners.{AreCorners, IsNarrow};
ghost use Rattle.outline_laws.specs.Directions.{AllReduced, IsShort};
ghost use Rattle.outline_laws.specs.Edges.{edges_of};

use outline_edges::{push_edges, reduced_by_angle};
use seq_model::{Dir, Spot};
use seq_num::NoMemory;
use std::alloc::{AllocError, Global};

fn reduced_edges(alloc: Global, corners: &[Spot]) -> Result<Vec<Dir>, AllocError>
    requires { All IsNarrow corners.now }
    ensures reduced { IfOk result (λ dirs. AllReduced (edges_of corners.now) dirs.items) }
    ensures short { IfOk result (λ dirs. All IsShort dirs.items) }
{
    let mut edges = Vec::with_capacity(alloc, corners.len())?;
    push_edges(&mut edges, corners, false)?;
    reduced_by_angle(alloc, edges)
}

/// The primitive outer directions of the sides, by angle from (1, 0). A segment has two, a point none.
pub fn sides(alloc: Global, corners: &[Spot]) -> Result<Vec<Dir>, NoMemory>
    requires near { All IsNarrow corners.now }
    requires corners { AreCorners corners.now }
    ensures sides { IfOk result (λ dirs. AreSides corners.now dirs.items) }
    ensures short { IfOk result (λ dirs. All IsShort dirs.items) }
{
    Ok(reduced_edges(alloc, corners)?)
}
