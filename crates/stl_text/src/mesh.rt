//! Reads a mesh.

ghost use Rattle.std.specs.Prelude.{◌≡◌, ◌≤◌, ◌<◌, ◌+◌, ◌↔◌, ◌⊎◌, length, IfOk, IfErr, IsTrue, Ok, Err, All, List, ℕ};
ghost use Rattle.seq_model.specs.Bounds.{IsNearFacet};
ghost use Rattle.seq_model.specs.declared.mesh.Facet.{Facet};
ghost use Rattle.stl_text.specs.declared.Stl.{Stl};
ghost use Rattle.stl_text.specs.Meshes.{IsBinary, MeshOf, IsRefused, body, nothing, count};
ghost use Rattle.stl_text.specs.Reading.{ReadsOnly};

use crate::Stl;
use crate::found::Found;
use crate::parts::{Part, next_part, opening};
use seq_limits::MOST_FACETS;
use seq_model::Mesh;
use std::alloc::Global;

// Whether the bytes are as long as a binary mesh of as many facets as the number at byte 80 says.
fn is_binary(bytes: &[u8]) -> bool
    ensures { IsTrue result ↔ IsBinary bytes.now }
{
    if bytes.len() < 84 {
        return false;
    }
    let low = bytes[80] as usize + 256 * bytes[81] as usize;
    let high = bytes[82] as usize + 256 * bytes[83] as usize;
    bytes.len() == 84 + 50 * (low + 65_536 * high)
}

// What stands in a file from the first line of its first solid on.
fn body(alloc: Global, bytes: &[u8], first: usize) -> Result<Found, Stl>
    requires { first ≤ length bytes.now }
    ensures found { IfOk result (λ found. ReadsOnly (body bytes.now first nothing) (Ok found)) }
    ensures few { IfOk result (λ found. count found ≤ MOST_FACETS) }
    ensures near { IfOk result (λ found. All IsNearFacet found.facets) }
    ensures refused { IfErr result
        (λ e. (e ≡ Stl.NoMemory) ⊎ ReadsOnly (body bytes.now first nothing) (Err e)) }
{
    let mut found = Found::nothing(alloc);
    let mut at = first;
    loop {
        match next_part(bytes, at, found.count())? {
            Part::Facet(triangle, to) => {
                if found.add(triangle).is_err() {
                    return Err(Stl::NoMemory);
                }
                at = to;
            }
            Part::Ending(Some(to)) => at = to,
            Part::Ending(None) => return Ok(found),
        }
    }
}

/// The mesh of an ASCII STL file, its lengths rounded to whole µm: all its solids together, without the facets that have
/// two equal corners, which are counted.
pub fn read_mesh(alloc: Global, bytes: &[u8]) -> Result<Mesh, Stl>
    ensures mesh { IfOk result (λ mesh. MeshOf bytes.now mesh.facets mesh.dropped) }
    ensures refused { IfErr result (λ e. (e ≡ Stl.NoMemory) ⊎ IsRefused bytes.now e) }
{
    if is_binary(bytes) {
        return Err(Stl::Binary);
    }
    let first = opening(bytes, 0)?;
    let found = body(alloc, bytes, first)?;
    if found.count() == 0 {
        return Err(Stl::NoFacet);
    }
    Ok(Mesh {
        facets: found.facets,
        dropped: found.dropped,
    })
}

/// No bytes are two meshes, or refused for two causes, or a mesh and refused.
pub fn one_answer()
    ensures mesh { (bytes : List ℕ) (fs gs : List Facet) (d e : ℕ)
        → MeshOf bytes fs d → MeshOf bytes gs e → (fs ≡ gs) × (d ≡ e) }
    ensures refusal { (bytes : List ℕ) (why other : Stl)
        → IsRefused bytes why → IsRefused bytes other → why ≡ other }
    ensures not_both { (bytes : List ℕ) (why : Stl) (fs : List Facet) (d : ℕ)
        → IsRefused bytes why → MeshOf bytes fs d → ⊥ }
{}
