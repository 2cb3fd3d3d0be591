ghost use Rattle.std.specs.Prelude.{◌≡◌, ◌≤◌, ◌↔◌, [], IsTrue, IfOk, IfErr};
ghost use Rattle.mesh_slices.specs.Cover.{ZonesCover};
ghost use Rattle.mesh_slices.specs.Objects.{IsObjectOf, CanBeSliced, IsRefusedAs};

use crate::Slice;
use crate::measure::measure_of;
use crate::zones::zones_of;
use owned_lists::{Items, Text};
use seq_limits::MOST_BANDS;
use seq_model::{Facet, Mesh, Object, Printer};
use std::alloc::Global;

// A number of bands as an object has it.
fn few_bands(bands: u64) -> u32
    requires { bands ≤ MOST_BANDS }
    ensures { result ≡ bands }
{
    bands as u32
}

fn has_no_facet(facets: &[Facet]) -> bool
    ensures { IsTrue result ↔ (facets.now ≡ []) }
{
    facets.is_empty()
}

/// The object of a mesh: its height in µm, its bands, and their zones with corners in grains.
///
/// `Flat` comes exactly where the mesh has no facet, and `TooTall`, with the number of bands, exactly where it has one and more
/// than 200 bands. Both come before any memory is asked for, so `NoMemory` speaks of a mesh that could be sliced.
pub fn object(alloc: Global, name: &str, mesh: &Mesh, printer: &Printer) -> Result<Object, Slice>
    ensures object { IfOk result (IsObjectOf name.now mesh.now.facets printer.now) }
    ensures covers { IfOk result (ZonesCover printer.now mesh.now.facets) }
    ensures sliced { IfOk result (λ _. CanBeSliced mesh.now.facets printer.now.step) }
    ensures refused { IfErr result (IsRefusedAs mesh.now.facets printer.now.step) }
{
    let facets = mesh.facets.as_slice();
    if has_no_facet(facets) {
        return Err(Slice::Flat);
    }
    let measure = measure_of(printer, facets);
    if measure.bands > u64::from(MOST_BANDS) {
        return Err(Slice::TooTall(measure.bands));
    }
    let bands = few_bands(measure.bands);
    let zones = zones_of(alloc, facets, printer, measure.bottom, bands)?;
    Ok(Object {
        name: Text::from_str(alloc, name)?,
        height: measure.height,
        bands,
        low: measure.low,
        high: measure.high,
        zones: Items::from_vec(zones),
    })
}
