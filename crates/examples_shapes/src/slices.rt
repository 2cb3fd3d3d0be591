ghost use Rattle.std.specs.Prelude.{OnOk, All};
ghost use Rattle.seq_model.specs.Bounds.{IsNear, IsNearFacet};

use mesh_slices::{Slice, object};
use owned_lists::{Items, Text};
use seq_model::{Facet, Mesh, Object, Part, Point3, Printer, Spot, Zone};
use std::alloc::{AllocError, Global};

// A prism over a base in centimetres, counterclockwise, from one height to another; or a cone with its top at the second height,
// above a place of its own.
type Solid = (&'static [(u8, u8)], u8, u8, Option<(u8, u8)>);

// The first and the last band of a zone, and its corners in grains.
type Run = (u32, u32, &'static [(i64, i64)]);

// The least and the greatest spot coordinates.
type Span = ((i64, i64), (i64, i64));

const SQUARE: &[(u8, u8)] = &[(0, 0), (2, 0), (2, 2), (0, 2)];

const WIDE: &[(i64, i64)] = &[(-1, -1), (21, -1), (21, 21), (-1, 21)];

// Solids, and their height in µm, the number of their bands, their span and their zones. The printer has a grain of 1 mm, a margin of
// 1 mm and bands of 10 mm.
type Sliced = (&'static [Solid], i64, u32, Span, &'static [Run]);

static SLICED: [Sliced; 7] = [
    // a cube, and a taller one whose middle band holds no vertex
    (
        &[(SQUARE, 0, 2, None)],
        20_000,
        2,
        ((-1, -1), (21, 21)),
        &[(0, 1, WIDE)],
    ),
    (
        &[(SQUARE, 0, 3, None)],
        30_000,
        3,
        ((-1, -1), (21, 21)),
        &[(0, 2, WIDE)],
    ),
    // a pyramid: the outline of its upper band is that of the crossings with the lower height
    (
        &[(SQUARE, 0, 2, Some((1, 1)))],
        20_000,
        2,
        ((-1, -1), (21, 21)),
        &[(0, 0, WIDE), (1, 1, &[(4, 4), (16, 4), (16, 16), (4, 16)])],
    ),
    // a wedge
    (
        &[(&[(0, 0), (2, 0), (0, 2)], 0, 2, None)],
        20_000,
        2,
        ((-1, -1), (21, 21)),
        &[(0, 1, &[(-1, -1), (21, -1), (21, 1), (1, 21), (-1, 21)])],
    ),
    // two cubes with an empty band between them
    (
        &[(SQUARE, 0, 2, None), (SQUARE, 5, 7, None)],
        70_000,
        7,
        ((-1, -1), (21, 21)),
        &[(0, 2, WIDE), (4, 6, WIDE)],
    ),
    // a cube beside a smaller one that stands on its height
    (
        &[
            (SQUARE, 0, 1, None),
            (&[(4, 4), (5, 4), (5, 5), (4, 5)], 1, 3, None),
        ],
        30_000,
        3,
        ((-1, -1), (51, 51)),
        &[
            (
                0,
                1,
                &[(-1, -1), (21, -1), (51, 39), (51, 51), (39, 51), (-1, 21)],
            ),
            (2, 2, &[(39, 39), (51, 39), (51, 51), (39, 51)]),
        ],
    ),
    // the greatest number of bands
    (
        &[(SQUARE, 0, 200, None)],
        2_000_000,
        200,
        ((-1, -1), (21, 21)),
        &[(0, 199, WIDE)],
    ),
];

// Solids whose mesh isn't sliced, and why.
static REFUSED: [(&[Solid], Slice); 2] = [
    (&[], Slice::Flat),
    (&[(SQUARE, 0, 201, None)], Slice::TooTall(201)),
];

fn point(place: (u8, u8), z: u8) -> Point3
    ensures { IsNear result }
{
    Point3 {
        x: i64::from(place.0) * 10_000,
        y: i64::from(place.1) * 10_000,
        z: i64::from(z) * 10_000,
    }
}

fn add(facets: &mut Vec<Facet>, a: Point3, b: Point3, c: Point3) -> Result<(), AllocError>
    requires a { IsNear a }
    requires b { IsNear b }
    requires c { IsNear c }
    requires facets { All IsNearFacet facets.old.items }
    ensures { OnOk result (All IsNearFacet facets.new.items) }
{
    facets.push(Facet { a, b, c })?;
    Ok(())
}

// The facets of a base at a height, seen from below.
fn add_base(facets: &mut Vec<Facet>, base: &[(u8, u8)], z: u8) -> Result<(), AllocError>
    requires { All IsNearFacet facets.old.items }
    ensures { OnOk result (All IsNearFacet facets.new.items) }
{
    let Some(first) = base.first() else {
        return Ok(());
    };
    for (place, next) in base.iter().skip(1).zip(base.iter().skip(2)) {
        add(facets, point(*first, z), point(*next, z), point(*place, z))?;
    }
    Ok(())
}

// The facets of a base at a height, seen from above.
fn add_cover(facets: &mut Vec<Facet>, base: &[(u8, u8)], z: u8) -> Result<(), AllocError>
    requires { All IsNearFacet facets.old.items }
    ensures { OnOk result (All IsNearFacet facets.new.items) }
{
    let Some(first) = base.first() else {
        return Ok(());
    };
    for (place, next) in base.iter().skip(1).zip(base.iter().skip(2)) {
        add(facets, point(*first, z), point(*place, z), point(*next, z))?;
    }
    Ok(())
}

// The facets of a prism, without its base.
fn add_prism(
    facets: &mut Vec<Facet>,
    base: &[(u8, u8)],
    low: u8,
    high: u8,
) -> Result<(), AllocError>
    requires { All IsNearFacet facets.old.items }
    ensures { OnOk result (All IsNearFacet facets.new.items) }
{
    add_cover(facets, base, high)?;
    for (k, place) in base.iter().enumerate() {
        let next = base.get(k + 1).unwrap_or(&base[0]);
        let beyond = point(*next, high);
        add(facets, point(*place, low), point(*next, low), beyond)?;
        add(facets, point(*place, low), beyond, point(*place, high))?;
    }
    Ok(())
}

// The facets of a cone, without its base.
fn add_cone(
    facets: &mut Vec<Facet>,
    base: &[(u8, u8)],
    low: u8,
    top: Point3,
) -> Result<(), AllocError>
    requires top { IsNear top }
    requires facets { All IsNearFacet facets.old.items }
    ensures { OnOk result (All IsNearFacet facets.new.items) }
{
    for (k, place) in base.iter().enumerate() {
        let next = base.get(k + 1).unwrap_or(&base[0]);
        add(facets, point(*place, low), point(*next, low), top)?;
    }
    Ok(())
}

fn add_solid(facets: &mut Vec<Facet>, solid: &Solid) -> Result<(), AllocError>
    requires { All IsNearFacet facets.old.items }
    ensures { OnOk result (All IsNearFacet facets.new.items) }
{
    let (base, low, high, top) = *solid;
    add_base(facets, base, low)?;
    match top {
        Some(top) => add_cone(facets, base, low, point(top, high)),
        None => add_prism(facets, base, low, high),
    }
}

fn mesh_of(alloc: Global, solids: &[Solid]) -> Result<Option<Mesh>, AllocError> {
    let mut facets = Vec::new(alloc);
    for solid in solids {
        add_solid(&mut facets, solid)?;
    }
    if facets.len() > 200_000 {
        return Ok(None);
    }
    Ok(Some(Mesh {
        facets: Items::from_vec(facets),
        dropped: 0,
    }))
}

fn printer_of(alloc: Global) -> Result<Printer, AllocError> {
    let mut corners = Items::new(alloc);
    corners.push(Spot { x: 0, y: 0 })?;
    let mut parts = Items::new(alloc);
    parts.push(Part {
        name: Text::from_str(alloc, "tip")?,
        corners,
        lo: 0,
        hi: Some(0),
    })?;
    Ok(Printer {
        grain: 1_000,
        width: 100,
        depth: 100,
        step: 10_000,
        margin: 1,
        grid: 100,
        parts,
    })
}

fn spot(place: (i64, i64)) -> Spot {
    Spot {
        x: place.0,
        y: place.1,
    }
}

fn is_run(zone: &Zone, run: &Run) -> bool {
    let (first, last, corners) = *run;
    let found = zone.corners.as_slice();
    if (zone.first, zone.last, found.len()) != (first, last, corners.len()) {
        return false;
    }
    for (corner, place) in found.iter().zip(corners) {
        if *corner != spot(*place) {
            return false;
        }
    }
    true
}

fn are_runs(zones: &[Zone], runs: &[Run]) -> bool {
    if zones.len() != runs.len() {
        return false;
    }
    for (zone, run) in zones.iter().zip(runs) {
        if !is_run(zone, run) {
            return false;
        }
    }
    true
}

fn sliced(alloc: Global, solids: &[Solid]) -> Result<Object, Slice> {
    let printer = printer_of(alloc)?;
    let Some(mesh) = mesh_of(alloc, solids)? else {
        return Err(Slice::NoMemory);
    };
    object(alloc, "solid", &mesh, &printer)
}

fn is_object(object: &Object, row: &Sliced) -> bool {
    let (_, height, bands, (low, high), runs) = *row;
    object.name.as_str() == "solid"
        && (object.height, object.bands) == (height, bands)
        && (object.low, object.high) == (spot(low), spot(high))
        && are_runs(object.zones.as_slice(), runs)
}

fn is_sliced(alloc: Global, row: &Sliced) -> bool {
    match sliced(alloc, row.0) {
        Ok(object) => is_object(&object, row),
        Err(_) => false,
    }
}

#[test]
fn meshes_are_sliced(rt: HostRuntime) {
    for row in &SLICED {
        assert!(rt; is_sliced(rt.alloc(), row));
    }
    for (solids, why) in &REFUSED {
        assert!(rt; sliced(rt.alloc(), solids).err() == Some(*why));
    }
}
