ghost use Rattle.std.specs.Prelude.{All, IfOk};
ghost use Rattle.seq_model.specs.Bounds.{IsNear, IsNearFacet};

use mesh_checks::{Notes, look};
use owned_lists::Items;
use seq_model::{Facet, Mesh, Point3};
use std::alloc::{AllocError, Global};

// Corners in millimetres.
type Triangle = [(i8, i8, i8); 3];

static CUBE: [Triangle; 12] = [
    [(0, 0, 0), (20, 20, 0), (20, 0, 0)],
    [(0, 0, 0), (0, 20, 0), (20, 20, 0)],
    [(0, 0, 20), (20, 0, 20), (20, 20, 20)],
    [(0, 0, 20), (20, 20, 20), (0, 20, 20)],
    [(0, 0, 0), (20, 0, 0), (20, 0, 20)],
    [(0, 0, 0), (20, 0, 20), (0, 0, 20)],
    [(20, 0, 0), (20, 20, 0), (20, 20, 20)],
    [(20, 0, 0), (20, 20, 20), (20, 0, 20)],
    [(20, 20, 0), (0, 20, 0), (0, 20, 20)],
    [(20, 20, 0), (0, 20, 20), (20, 20, 20)],
    [(0, 20, 0), (0, 0, 0), (0, 0, 20)],
    [(0, 20, 0), (0, 0, 20), (0, 20, 20)],
];

// So many facets of the cube, and whether they are turned inside out; their open edges and six volumes.
// The last facet lies in a plane through the origin.
static CUBES: [(usize, bool, u64, i128); 3] = [
    (12, false, 0, 48_000_000_000_000),
    (11, false, 3, 48_000_000_000_000),
    (12, true, 0, -48_000_000_000_000),
];

// Some facets; their open edges and six volumes.
static MESHES: [(&[Triangle], u64, i128); 7] = [
    (&[], 0, 0),
    // a facet alone, and given twice
    (&[[(0, 0, 1), (1, 0, 1), (0, 1, 1)]], 3, 1_000_000_000),
    (
        &[
            [(0, 0, 1), (1, 0, 1), (0, 1, 1)],
            [(0, 0, 1), (1, 0, 1), (0, 1, 1)],
        ],
        6,
        2_000_000_000,
    ),
    // a facet and the same turned
    (
        &[
            [(0, 0, 1), (1, 0, 1), (0, 1, 1)],
            [(0, 0, 1), (0, 1, 1), (1, 0, 1)],
        ],
        0,
        0,
    ),
    // two corners in one place
    (&[[(0, 0, 0), (0, 0, 0), (1, 0, 0)]], 0, 0),
    // an edge that two facets go one way, and a third one back
    (
        &[
            [(0, 0, 0), (1, 0, 0), (0, 1, 0)],
            [(0, 0, 0), (1, 0, 0), (0, 0, 1)],
            [(1, 0, 0), (0, 0, 0), (0, -1, 0)],
        ],
        7,
        0,
    ),
    // a corner of a cube
    (
        &[
            [(0, 0, 0), (0, 1, 0), (1, 0, 0)],
            [(0, 0, 0), (1, 0, 0), (0, 0, 1)],
            [(0, 0, 0), (0, 0, 1), (0, 1, 0)],
            [(1, 0, 0), (0, 1, 0), (0, 0, 1)],
        ],
        0,
        1_000_000_000,
    ),
];

fn point(mm: &(i8, i8, i8)) -> Point3
    ensures { IsNear result }
{
    Point3 {
        x: i64::from(mm.0) * 1_000,
        y: i64::from(mm.1) * 1_000,
        z: i64::from(mm.2) * 1_000,
    }
}

fn facet(corners: &Triangle, inside_out: bool) -> Facet
    ensures { IsNearFacet result }
{
    let a = point(&corners[0]);
    let b = point(&corners[1]);
    let c = point(&corners[2]);
    if inside_out {
        Facet { a, b: c, c: b }
    } else {
        Facet { a, b, c }
    }
}

fn facets(alloc: Global, list: &[Triangle], inside_out: bool) -> Result<Vec<Facet>, AllocError>
    ensures { IfOk result (λ facets. All IsNearFacet facets.items) }
{
    let mut facets = Vec::new(alloc);
    for corners in list {
        facets.push(facet(corners, inside_out))?;
    }
    Ok(facets)
}

// What is said of a mesh; none where it has too many facets or memory is wanting.
fn looked_at(alloc: Global, list: &[Triangle], inside_out: bool, dropped: u32) -> Option<Notes> {
    let Ok(facets) = facets(alloc, list, inside_out) else {
        return None;
    };
    // a mesh has a bound on both counts together, and `facets` doesn't promise how many it makes
    if facets.len() > 1_000 || dropped > 1_000 {
        return None;
    }
    let mesh = Mesh {
        facets: Items::from_vec(facets),
        dropped,
    };
    look(alloc, &mesh).ok()
}

fn are_notes(notes: Option<Notes>, open_edges: u64, six_volume: i128, dropped: u32) -> bool {
    notes
        == Some(Notes {
            open_edges,
            six_volume,
            dropped,
        })
}

#[test]
fn looks_at_ten_meshes(rt: HostRuntime) {
    for (count, inside_out, open_edges, six_volume) in &CUBES {
        let notes = looked_at(rt.alloc(), &CUBE[..(*count).min(12)], *inside_out, 0);
        assert!(rt; are_notes(notes, *open_edges, *six_volume, 0));
    }
    for (list, open_edges, six_volume) in &MESHES {
        let notes = looked_at(rt.alloc(), list, false, 5);
        assert!(rt; are_notes(notes, *open_edges, *six_volume, 5));
    }
}
