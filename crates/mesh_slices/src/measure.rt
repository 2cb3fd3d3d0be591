ghost use Rattle.std.specs.Prelude.{◌≡◌, ◌<◌, ◌≤◌, pos, ◌-ℤ◌, ◌≤ℤ◌, length, All, unsigned_abs, max};
ghost use Rattle.integer_laws.specs.Quotients.{ceil};
ghost use Rattle.seq_model.specs.Bands.{band_count, height_of, least_z};
ghost use Rattle.seq_model.specs.Bounds.{IsNear, IsNearFacet};
ghost use Rattle.seq_model.specs.Outlines.{below, above};
ghost use Rattle.seq_model.specs.Scenes.{Spans};
ghost use Rattle.mesh_slices.specs.Objects.{spots_in};

use crate::extremes::extremes_of;
use crate::grains::{ceil_of, spot_above, spot_below};
use crate::points::rise_of;
use seq_limits::FARTHEST;
use seq_model::{Facet, Point3, Printer, Spot};

/// What a mesh measures: the least and the greatest spot coordinates over all bands, in grains; its least z and its height,
/// in µm; and the number of its bands.
#[derive(Clone, Copy)]
pub struct Measure {
    pub low: Spot,
    pub high: Spot,
    pub bottom: i64,
    pub height: i64,
    pub bands: u64,
}

// The spot below a corner in x and in y.
fn low_spot(corner: &Point3, printer: &Printer) -> Spot
    requires near { IsNear corner.now }
    ensures x { result.x ≡ below printer.now.margin corner.now.x printer.now.grain }
    ensures y { result.y ≡ below printer.now.margin corner.now.y printer.now.grain }
{
    let x = spot_below(corner.x, printer.grain, printer.margin);
    let y = spot_below(corner.y, printer.grain, printer.margin);
    Spot { x, y }
}

// The spot above a corner in x and in y.
fn high_spot(corner: &Point3, printer: &Printer) -> Spot
    requires near { IsNear corner.now }
    ensures x { result.x ≡ above printer.now.margin corner.now.x printer.now.grain }
    ensures y { result.y ≡ above printer.now.margin corner.now.y printer.now.grain }
{
    let x = spot_above(corner.x, printer.grain, printer.margin);
    let y = spot_above(corner.y, printer.grain, printer.margin);
    Spot { x, y }
}

// The number of bands of a height.
fn bands_of(height: i64, step: i64) -> u64
    requires height { unsigned_abs height ≤ 20_000_000 }
    requires step { pos 1 ≤ℤ step }
    ensures { result ≡ max 1 (unsigned_abs (ceil height step)) }
{
    ceil_of(height, step).unsigned_abs().max(1)
}

/// The measure of a mesh.
pub fn measure_of(printer: &Printer, facets: &[Facet]) -> Measure
    requires near { All IsNearFacet facets.now }
    requires some { 0 < length facets.now }
    ensures spans { Spans
        (band_count facets.now printer.now.step)
        (spots_in printer.now facets.now)
        result.low result.high }
    ensures bottom { result.bottom ≡ least_z facets.now }
    ensures bottom_near { unsigned_abs result.bottom ≤ FARTHEST }
    ensures height { result.height ≡ height_of facets.now }
    ensures bands { result.bands ≡ band_count facets.now printer.now.step }
{
    let found = extremes_of(facets);
    let low = low_spot(&found.low, printer);
    let high = high_spot(&found.high, printer);
    let height = rise_of(found.low.z, found.high.z);
    let bands = bands_of(height, printer.step);
    Measure {
        low,
        high,
        bottom: found.low.z,
        height,
        bands,
    }
}
