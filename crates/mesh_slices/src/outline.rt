ghost use Rattle.std.specs.Prelude.{◌≡◌, ◌++◌, ◌≤◌, ◌≤ℤ◌, ◌*ℤ◌, pos, All, IfOk, OnOk, unsigned_abs};
ghost use Rattle.std.specs.List.{flat_map};
ghost use Rattle.seq_model.specs.Bands.{facet_corners};
ghost use Rattle.seq_model.specs.Bounds.{IsNearFacet};
ghost use Rattle.seq_model.specs.Outlines.{four_spots, spots};
ghost use Rattle.outline_laws.specs.Corners.{IsNarrow};
ghost use Rattle.mesh_slices.specs.CornerPoints.{as_point};
ghost use Rattle.mesh_slices.specs.Folding.{StandsFor};
ghost use Rattle.mesh_slices.specs.Objects.{IsOutlineOf};

use crate::corner::{CornerPoint, Slab};
use crate::grains::{spot_above, spot_below};
use crate::points::{corner_points, misses};
use convex_outline::hull;
use seq_limits::GREATEST_GRAIN;
use seq_model::{Facet, Printer, Spot};
use seq_num::NoMemory;
use std::alloc::{AllocError, Global};

// Spots are few, and aren't folded into their hull, while half of them are no more than this.
const HALF: usize = 1_024;

// The denominator of a coordinate in grains.
fn grains_of(d: i64, grain: i64) -> i64
    requires low { pos 1 ≤ℤ d }
    requires high { d ≤ℤ pos 20_000_000 }
    requires grain_low { pos 1 ≤ℤ grain }
    requires grain_high { grain ≤ℤ GREATEST_GRAIN }
    ensures value { result ≡ d *ℤ grain }
    ensures low { pos 1 ≤ℤ result }
{
    d * grain
}

// The four spots round a corner point.
fn spots_round(point: &CornerPoint, printer: &Printer) -> [Spot; 4]
    ensures { result ≡ four_spots printer.now.grain printer.now.margin (as_point point.now) }
{
    let d = grains_of(point.d, printer.grain);
    let west = spot_below(point.x, d, printer.margin);
    let east = spot_above(point.x, d, printer.margin);
    let south = spot_below(point.y, d, printer.margin);
    let north = spot_above(point.y, d, printer.margin);
    [
        Spot { x: west, y: south },
        Spot { x: east, y: south },
        Spot { x: west, y: north },
        Spot { x: east, y: north },
    ]
}

// Adds the spots of a facet in a band.
fn add_facet(
    alloc: Global,
    found: &mut Vec<Spot>,
    f: &Facet,
    slab: &Slab,
    printer: &Printer,
) -> Result<(), AllocError>
    requires { IsNearFacet f.now }
    ensures { OnOk result (found.new.items
        ≡ found.old.items ++ spots printer.now.grain printer.now.margin
        (facet_corners slab.now.low slab.now.high f.now)) }
{
    if misses(f, slab) {
        return Ok(());
    }
    let points = corner_points(alloc, f, slab)?;
    for point in points.as_slice() {
        found.extend_from_slice(&spots_round(point, printer))?;
    }
    Ok(())
}

// Keeps of some spots only the corners of their hull.
fn fold(alloc: Global, found: &mut Vec<Spot>) -> Result<(), NoMemory>
    requires { All IsNarrow found.old.items }
    ensures stand { OnOk result (StandsFor found.old.items found.new.items) }
    ensures near { OnOk result (All IsNarrow found.new.items) }
{
    let corners = hull(alloc, found.as_slice())?;
    found.clear();
    found.extend_from_slice(corners.as_slice())?;
    Ok(())
}

// Folds the spots if they are 2,050 at least, and more than twice as many as were kept by the last fold. Answers how many are
// kept by it, and without a fold `kept` as it was, for the next time.
fn fold_if_full(alloc: Global, found: &mut Vec<Spot>, kept: usize) -> Result<usize, NoMemory>
    requires { All IsNarrow found.old.items }
    ensures stand { OnOk result (StandsFor found.old.items found.new.items) }
    ensures near { OnOk result (All IsNarrow found.new.items) }
{
    if found.len() / 2 <= kept.max(HALF) {
        return Ok(kept);
    }
    fold(alloc, found)?;
    Ok(found.len())
}

// Spots of a band with all others within them. However many facets cross the band, they are few.
fn standing_spots(
    alloc: Global,
    facets: &[Facet],
    slab: &Slab,
    printer: &Printer,
) -> Result<Vec<Spot>, NoMemory>
    requires { All IsNearFacet facets.now }
    ensures stand { IfOk result (λ found. StandsFor (spots printer.now.grain printer.now.margin
        (flat_map (facet_corners slab.now.low slab.now.high) facets.now)) found.items) }
    ensures near { IfOk result (λ found. All IsNarrow found.items) }
{
    let mut found = Vec::new(alloc);
    let mut kept = 0;
    for f in facets {
        add_facet(alloc, &mut found, f, slab, printer)?;
        kept = fold_if_full(alloc, &mut found, kept)?;
    }
    Ok(found)
}

/// The corners of a band's outline.
pub fn outline_of(
    alloc: Global,
    facets: &[Facet],
    slab: &Slab,
    printer: &Printer,
) -> Result<Vec<Spot>, NoMemory>
    requires { All IsNearFacet facets.now }
    ensures { IfOk result (λ corners. IsOutlineOf (spots printer.now.grain printer.now.margin
        (flat_map (facet_corners slab.now.low slab.now.high) facets.now)) corners.items) }
{
    let found = standing_spots(alloc, facets, slab, printer)?;
    Ok(hull(alloc, found.as_slice())?)
}
