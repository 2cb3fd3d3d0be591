ghost use Rattle.std.specs.Prelude.{◌≡◌, ◌≢◌, ◌↔◌, ◌+◌, ◌<◌, ◌≤◌, ◌++◌, ◌∷◌, [], ℕ, List, pos, ◌+ℤ◌, ◌*ℤ◌, ◌≤ℤ◌, All, IsTrue, IfSome, IfNone, IfOk, OnOk, unsigned_abs};
ghost use Rattle.seq_model.specs.Bands.{least_z};
ghost use Rattle.seq_model.specs.Bounds.{IsNearFacet};
ghost use Rattle.mesh_slices.specs.Objects.{IsOutlineOf, spots_in};
ghost use Rattle.mesh_slices.specs.Runs.{AreRunsOf};

use crate::corner::Slab;
use crate::outline::outline_of;
use owned_lists::Items;
use seq_limits::{FARTHEST, GREATEST_STEP, MOST_BANDS};
use seq_model::{Facet, Printer, Spot, Zone};
use seq_num::NoMemory;
use std::alloc::{AllocError, Global};

// The zone of one band.
fn zone_at(corners: Vec<Spot>, band: u32) -> Zone
    ensures { result ≡ record { corners = corners.items; first = band; last = band } }
{
    Zone {
        corners: Items::from_vec(corners),
        first: band,
        last: band,
    }
}

fn same_corners(a: &[Spot], b: &[Spot]) -> bool
    ensures { IsTrue result ↔ (a.now ≡ b.now) }
{
    a == b
}

// Whether a zone ends just below a band.
fn ends_below(zone: &Zone, band: u32) -> bool
    ensures { IsTrue result ↔ (band ≡ zone.now.last + 1) }
{
    band > 0 && band - 1 == zone.last
}

// Whether a zone ends just below a band and has its outline.
fn goes_on(zone: &Zone, corners: &[Spot], band: u32) -> bool
    ensures { IsTrue result ↔ ((band ≡ zone.now.last + 1) × (corners.now ≡ zone.now.corners)) }
{
    ends_below(zone, band) && same_corners(corners, zone.corners.as_slice())
}

// Adds a band above the last zone: the zone grows if it ends there and has the same outline.
fn add_above(
    zones: &mut Vec<Zone>,
    below: Zone,
    corners: Vec<Spot>,
    band: u32,
) -> Result<(), AllocError>
    requires { corners.items ≢ [] }
    ensures { OnOk result ((S : ℕ → List Spot) → AreRunsOf S band (zones.old.items ++ below ∷ [])
        → IsOutlineOf (S band) corners.items → AreRunsOf S (band + 1) zones.new.items) }
{
    if goes_on(&below, corners.as_slice(), band) {
        zones.push(Zone {
            corners: below.corners,
            first: below.first,
            last: band,
        })?;
        return Ok(());
    }
    zones.push(below)?;
    zones.push(zone_at(corners, band))?;
    Ok(())
}

fn are_none(corners: &[Spot]) -> bool
    ensures { IsTrue result ↔ (corners.now ≡ []) }
{
    corners.is_empty()
}

// Takes the last zone off.
fn take_last(zones: &mut Vec<Zone>) -> Option<Zone>
    ensures some { IfSome result (λ last. zones.old.items ≡ zones.new.items ++ last ∷ []) }
    ensures none { IfNone result (zones.old.items ≡ []) }
    ensures empty { IfNone result (zones.new.items ≡ []) }
{
    zones.pop()
}

// Adds a band to the zones of the bands below it. A band without outline lies in none.
fn add_band(zones: &mut Vec<Zone>, corners: Vec<Spot>, band: u32) -> Result<(), AllocError>
    ensures { OnOk result ((S : ℕ → List Spot) → AreRunsOf S band zones.old.items
        → IsOutlineOf (S band) corners.items → AreRunsOf S (band + 1) zones.new.items) }
{
    if are_none(corners.as_slice()) {
        return Ok(());
    }
    let Some(below) = take_last(zones) else {
        zones.push(zone_at(corners, band))?;
        return Ok(());
    };
    add_above(zones, below, corners, band)?;
    Ok(())
}

// How far a band lies above the bottom.
fn lift_of(step: i64, band: u32) -> i64
    requires low { pos 1 ≤ℤ step }
    requires high { step ≤ℤ GREATEST_STEP }
    requires band { band < MOST_BANDS }
    ensures value { result ≡ step *ℤ pos band }
    ensures size { unsigned_abs result ≤ 20_000_000 }
{
    step * i64::from(band)
}

// The heights of a band of a mesh with this least z.
fn slab_of(bottom: i64, step: i64, band: u32) -> Slab
    requires bottom { unsigned_abs bottom ≤ FARTHEST }
    requires low { pos 1 ≤ℤ step }
    requires high { step ≤ℤ GREATEST_STEP }
    requires band { band < MOST_BANDS }
    ensures low { result.low ≡ bottom +ℤ step *ℤ pos band }
    ensures high { result.high ≡ (bottom +ℤ step *ℤ pos band) +ℤ step }
{
    let low = bottom + lift_of(step, band);
    Slab {
        low,
        high: low + step,
    }
}

// The corners of a band's outline.
fn outline_at(
    alloc: Global,
    facets: &[Facet],
    printer: &Printer,
    bottom: i64,
    band: u32,
) -> Result<Vec<Spot>, NoMemory>
    requires near { All IsNearFacet facets.now }
    requires bottom { bottom ≡ least_z facets.now }
    requires bottom_near { unsigned_abs bottom ≤ FARTHEST }
    requires band { band < MOST_BANDS }
    ensures { IfOk result (λ corners. IsOutlineOf (spots_in printer.now facets.now band) corners.items) }
{
    let slab = slab_of(bottom, printer.step, band);
    Ok(outline_of(alloc, facets, &slab, printer)?)
}

/// The zones of a mesh with this least z, lowest first.
pub fn zones_of(
    alloc: Global,
    facets: &[Facet],
    printer: &Printer,
    bottom: i64,
    bands: u32,
) -> Result<Vec<Zone>, NoMemory>
    requires near { All IsNearFacet facets.now }
    requires bottom { bottom ≡ least_z facets.now }
    requires bottom_near { unsigned_abs bottom ≤ FARTHEST }
    requires bands { bands ≤ MOST_BANDS }
    ensures { IfOk result (λ zones. AreRunsOf (spots_in printer.now facets.now) bands zones.items) }
{
    let mut zones = Vec::new(alloc);
    for band in 0..bands {
        let corners = outline_at(alloc, facets, printer, bottom, band)?;
        add_band(&mut zones, corners, band)?;
    }
    Ok(zones)
}
