//! Slices a mesh of scattered facets into 200 bands, and prints the numbers of its bands, zones and corners: 200,000 facets that
//! each span 20 bands with the word `tall`, 200,000 that each lie in one or two with the word `small`, and else 3,000 that each
//! span 20. `bench/run slices WORD` times it. With 3,000 most bands have more than 4,000 spots, so that spots
//! are folded. Nothing is promised here but that `object` may be called.
#![tactic(auto)]

ghost use Rattle.std.specs.Prelude.{◌≡◌, ◌≤◌, ◌<◌, IfOk, All, length, unsigned_abs};
ghost use Rattle.seq_model.specs.Bounds.{IsNear, IsNearFacet};

use mesh_slices::object;
use owned_lists::{Items, Text};
use seq_model::{Facet, Mesh, Part, Point3, Printer, Spot, Zone};
use std::alloc::{AllocError, Global};
use std::env;
use std::process::ExitCode;

fn next(state: u32) -> u32 {
    state.wrapping_mul(1_664_525).wrapping_add(1_013_904_223)
}

// A coordinate of up to 524 mm.
fn scattered(state: u32) -> i64
    ensures { unsigned_abs result ≤ 524_288 }
{
    i64::from(state >> 12) - 524_288
}

fn point(state: u32, z: i64) -> Point3
    requires { unsigned_abs z ≤ 10_000_000 }
    ensures { IsNear result }
{
    let other = next(state);
    Point3 {
        x: scattered(state),
        y: scattered(other),
        z,
    }
}

// A facet that begins in one of the bands of 10 mm, and rises by so many µm.
fn facet(state: u32, rise: u32) -> Facet
    requires { rise < 1_000_000 }
    ensures { IsNearFacet result }
{
    let low = i64::from(state >> 8) % (2_000_000 - i64::from(rise));
    let high = low + i64::from(rise);
    let a = next(state);
    let b = next(next(a));
    let c = next(next(b));
    Facet {
        a: point(a, low),
        b: point(b, low),
        c: point(c, high),
    }
}

fn facets(alloc: Global, count: u32, rise: u32) -> Result<Vec<Facet>, AllocError>
    requires count { count ≤ 200_000 }
    requires rise { rise < 1_000_000 }
    ensures near { IfOk result (λ facets. All IsNearFacet facets.items) }
    ensures few { IfOk result (λ facets. length facets.items ≤ 200_000) }
{
    let mut facets = Vec::new(alloc);
    let mut state = 12_345;
    for _ in 0..count {
        state = next(state);
        facets.push(facet(state, rise))?;
    }
    Ok(facets)
}

fn printer(alloc: Global) -> Result<Printer, AllocError> {
    let mut corners = Items::new(alloc);
    corners.push(Spot { x: 0, y: 0 })?;
    let mut parts = Items::new(alloc);
    parts.push(Part {
        name: Text::from_str(alloc, "tip")?,
        corners,
        lo: 0,
        hi: Some(0),
    })?;
    Ok(Printer {
        grain: 100,
        width: 10_000,
        depth: 10_000,
        step: 10_000,
        margin: 1,
        grid: 100,
        parts,
    })
}

// How many corners the zones have together.
fn corners_of(zones: &[Zone]) -> usize {
    let mut count: usize = 0;
    for zone in zones {
        count = count.saturating_add(zone.corners.len());
    }
    count
}

// The numbers of bands, zones and corners of the mesh.
fn sliced(alloc: Global, count: u32, rise: u32) -> Option<(u32, usize, usize)>
    requires count { count ≤ 200_000 }
    requires rise { rise < 1_000_000 }
{
    let printer = printer(alloc).ok()?;
    let Ok(facets) = facets(alloc, count, rise) else {
        return None;
    };
    let mesh = Mesh {
        facets: Items::from_vec(facets),
        dropped: 0,
    };
    let object = object(alloc, "scattered", &mesh, &printer).ok()?;
    let corners = corners_of(object.zones.as_slice());
    Some((object.bands, object.zones.len(), corners))
}

// The number of facets, and how far each rises.
fn sizes_of(word: Option<String>) -> (u32, u32)
    ensures count { result.0 ≤ 200_000 }
    ensures rise { result.1 < 1_000_000 }
{
    match word {
        Some(word) if word.as_str() == "tall" => (200_000, 195_000),
        Some(word) if word.as_str() == "small" => (200_000, 5_000),
        _ => (3_000, 195_000),
    }
}

fn main(rt: HostRuntime) -> ExitCode {
    let alloc = rt.alloc();
    let Ok(mut args) = env::args(&rt) else {
        return ExitCode::from(2);
    };
    let (count, rise) = sizes_of(args.nth(1));
    let Some((bands, zones, corners)) = sliced(alloc, count, rise) else {
        return ExitCode::from(9);
    };
    match println!(rt; "{bands} bands, {zones} zones, {corners} corners") {
        Ok(()) => ExitCode::from(0),
        Err(_) => ExitCode::from(8),
    }
}
