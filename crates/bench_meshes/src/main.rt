//! Looks at a mesh of 200,000 facets with scattered corners, and prints its open edges and six volumes.
//! `bench/run meshes` times it. Nothing is promised here but that `look` may be called.
#![tactic(auto)]

ghost use Rattle.std.specs.Prelude.{◌≡◌, ◌≤◌, length, IfOk, All};
ghost use Rattle.seq_model.specs.Bounds.{IsNear, IsNearFacet};

use mesh_checks::look;
use owned_lists::Items;
use seq_model::{Facet, Mesh, Point3};
use std::alloc::{AllocError, Global};
use std::process::ExitCode;

fn next(state: u32) -> u32 {
    state.wrapping_mul(1_664_525).wrapping_add(1_013_904_223)
}

// One of 11 x 11 x 11 points, so that many facets share edges.
fn point(state: u32) -> Point3
    ensures { IsNear result }
{
    Point3 {
        x: i64::from((state >> 8) % 11) * 10_000,
        y: i64::from((state >> 16) % 11) * 10_000,
        z: i64::from((state >> 24) % 11) * 10_000,
    }
}

fn facet(state: u32) -> Facet
    ensures { IsNearFacet result }
{
    let second = next(state);
    Facet {
        a: point(state),
        b: point(second),
        c: point(next(second)),
    }
}

fn scattered(alloc: Global, count: u32) -> Result<Vec<Facet>, AllocError>
    ensures near { IfOk result (λ facets. All IsNearFacet facets.items) }
    ensures few { IfOk result (λ facets. length facets.items ≤ count) }
{
    let mut facets = Vec::new(alloc);
    let mut state = 12_345;
    for _ in 0..count {
        state = next(state);
        facets.push(facet(state))?;
    }
    Ok(facets)
}

fn main(rt: HostRuntime) -> ExitCode {
    let alloc = rt.alloc();
    let Ok(facets) = scattered(alloc, 200_000) else {
        return ExitCode::from(9);
    };
    let mesh = Mesh {
        facets: Items::from_vec(facets),
        dropped: 0,
    };
    let Ok(notes) = look(alloc, &mesh) else {
        return ExitCode::from(9);
    };
    match println!(rt;
        "{} open edges, six volume {}",
        notes.open_edges, notes.six_volume
    ) {
        Ok(()) => ExitCode::from(0),
        Err(_) => ExitCode::from(8),
    }
}
