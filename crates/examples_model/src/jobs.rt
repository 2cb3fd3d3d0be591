//! The job of two cubes, made by code, for examples of calls that take a job.

ghost use Rattle.std.specs.Prelude.{◌≡◌, ◌∷◌, [], IfOk};
ghost use Rattle.examples_model.specs.Cubes.{cube, object_of};
ghost use Rattle.examples_model.specs.Jobs.{gantry_part, nozzle_part, printer, two_cubes};
ghost use Rattle.seq_model.specs.Parts.{tip};

use owned_lists::{Items, Text};
use seq_model::{Job, Object, Part, Printer, Spot, Zone};
use std::alloc::{AllocError, Global};

fn rectangle(
    alloc: Global,
    west: i64,
    south: i64,
    east: i64,
    north: i64,
) -> Result<Items<Spot>, AllocError>
    ensures { IfOk result (λ spots. spots ≡ record { x = west; y = south } ∷ record { x = east; y = south }
        ∷ record { x = east; y = north } ∷ record { x = west; y = north } ∷ []) }
{
    let mut corners = Items::new(alloc);
    corners.push(Spot { x: west, y: south })?;
    corners.push(Spot { x: east, y: south })?;
    corners.push(Spot { x: east, y: north })?;
    corners.push(Spot { x: west, y: north })?;
    Ok(corners)
}

fn cube_object(alloc: Global) -> Result<Object, AllocError>
    ensures { IfOk result (λ object. object ≡ object_of cube) }
{
    let mut zones = Items::new(alloc);
    zones.push(Zone {
        corners: rectangle(alloc, -1, -1, 21, 21)?,
        first: 0,
        last: 1,
    })?;
    Ok(Object {
        name: Text::from_str(alloc, "")?,
        height: 20_000,
        bands: 2,
        low: Spot { x: -1, y: -1 },
        high: Spot { x: 21, y: 21 },
        zones,
    })
}

fn part(
    alloc: Global,
    name: &str,
    corners: Items<Spot>,
    lo: u32,
    hi: Option<u32>,
) -> Result<Part, AllocError>
    ensures { IfOk result (λ part. part ≡ record { name = name.now; corners = corners; lo = lo; hi = hi }) }
{
    Ok(Part {
        name: Text::from_str(alloc, name)?,
        corners,
        lo,
        hi,
    })
}

fn parts(alloc: Global) -> Result<Items<Part>, AllocError>
    ensures { IfOk result (λ parts. parts ≡ tip ∷ nozzle_part ∷ gantry_part ∷ []) }
{
    let mut origin = Items::new(alloc);
    origin.push(Spot { x: 0, y: 0 })?;
    let mut parts = Items::new(alloc);
    parts.push(part(alloc, "tip", origin, 0, Some(0))?)?;
    parts.push(part(alloc, "nozzle", rectangle(alloc, -2, -2, 2, 2)?, 0, None)?)?;
    parts.push(part(
        alloc,
        "gantry",
        rectangle(alloc, -101, -10, 101, 10)?,
        2,
        None,
    )?)?;
    Ok(parts)
}

fn printer(alloc: Global) -> Result<Printer, AllocError>
    ensures { IfOk result (λ made. made ≡ printer) }
{
    Ok(Printer {
        grain: 1_000,
        width: 100,
        depth: 100,
        step: 10_000,
        margin: 1,
        grid: 100,
        parts: parts(alloc)?,
    })
}

/// Two cubes under the printer of the examples.
pub fn two_cubes(alloc: Global) -> Result<Job, AllocError>
    ensures printer { IfOk result (λ job. job.printer ≡ printer) }
    ensures objects { IfOk result (λ job. job.objects ≡ two_cubes.objects) }
{
    let mut objects = Items::new(alloc);
    objects.push(cube_object(alloc)?)?;
    objects.push(cube_object(alloc)?)?;
    Ok(Job {
        printer: printer(alloc)?,
        objects,
    })
}
