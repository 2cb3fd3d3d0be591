//! Checks of a mesh: how many of its edges are open, and whether its signed volume is positive.
//!
//! `look` counts the open edges of a mesh and sums six times its volume. Its three clauses are the two sums of
//! `specs/Edges.antt` and `specs/Volumes.antt`, over the whole list of facets, and the mesh's own count of dropped facets.
//!
//! The crate is for the notes that a run writes on its meshes, and for strict runs, which refuse a mesh that isn't closed and
//! outward. Whatever the numbers say, the mesh itself stays as it is. They are of the mesh as a whole and not of each of its
//! shells: a large cube that looks outward, beside a small one that is turned inside out, passes.
#![tactic(auto)]

ghost use Rattle.std.specs.Prelude.{◌≡◌, ◌↔◌, IfOk, IsTrue, List};
ghost use Rattle.seq_model.specs.declared.mesh.Facet.{Facet};
ghost use Rattle.mesh_checks.specs.Edges.{edges, each_once, open_edges, HasEachOpen, IsSumOverPairs};
ghost use Rattle.mesh_checks.specs.Volumes.{six_volume};
ghost use Rattle.mesh_checks.specs.Verdicts.{IsClosedOutward, IsDue};

mod half_edges;
mod volume;

use seq_model::Mesh;
use seq_num::NoMemory;
use std::alloc::Global;

/// What there is to say of a mesh. `open_edges` is the sum, over ordered pairs of different points, of how often the edge from
/// one to the other stands in the facets more often than the edge back. `six_volume` is the sum of
/// a · (b × c) over the facets in µm³: of a closed mesh it is six times the volume that it encloses, negative where it is turned
/// inside out; of an open one it depends on where the mesh lies. `dropped` counts the facets that were dropped for two equal
/// corners.
#[derive(Clone, Copy, Debug, PartialEq, Eq)]
pub struct Notes {
    pub open_edges: u64,
    pub six_volume: i128,
    pub dropped: u32,
}

impl Notes {
    /// Whether each edge stands as often as its reverse, and the signed volume of the whole is positive.
    pub fn is_closed_outward(&self) -> bool
        ensures { IsTrue result ↔ IsClosedOutward self.now.open_edges self.now.six_volume }
    {
        self.open_edges == 0 && self.six_volume > 0
    }

    /// Whether there is something to note: open edges, a volume that isn't positive, or dropped facets.
    pub fn is_due(&self) -> bool
        ensures { IsTrue result ↔ IsDue self.now.open_edges self.now.six_volume self.now.dropped }
    {
        self.open_edges > 0 || self.six_volume <= 0 || self.dropped > 0
    }
}

/// The notes of a mesh. The only error is want of memory.
pub fn look(alloc: Global, mesh: &Mesh) -> Result<Notes, NoMemory>
    ensures open { IfOk result (λ notes. notes.open_edges ≡ open_edges mesh.now.facets) }
    ensures volume { IfOk result (λ notes. notes.six_volume ≡ six_volume mesh.now.facets) }
    ensures dropped { IfOk result (λ notes. notes.dropped ≡ mesh.now.dropped) }
{
    let facets = mesh.facets.as_slice();
    Ok(Notes {
        open_edges: half_edges::count_open(alloc, facets)?,
        six_volume: volume::sum_six_volumes(facets),
        dropped: mesh.dropped,
    })
}

/// A law, proved because `open` above names the sum; nobody calls it. The number of open edges doesn't depend on the list of
/// pairs that is summed over, where no pair of different points with an excess is missing and none stands twice; and there is
/// such a list.
pub fn open_edges_are_a_sum_over_pairs()
    ensures every { (facets : List Facet) → IsSumOverPairs facets }
    ensures some { (facets : List Facet) → HasEachOpen facets (each_once (edges facets)) }
{}
