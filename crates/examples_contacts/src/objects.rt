ghost use Rattle.std.specs.Prelude.{◌≡◌, ◌≤◌, All, IfOk, IfSome, length, IsTrue};
ghost use Rattle.seq_model.specs.Bounds.{IsNear, IsNearFacet};
ghost use Rattle.seq_model.specs.Contacts.{IsContact};
ghost use Rattle.seq_model.specs.Soundness.{IsSoundObject};

use mesh_slices::object;
use owned_lists::Items;
use printer_envelopes::zones_meet;
use printer_text::read_printer;
use seq_model::{Contact, Facet, Job, Mesh, Object, Point3, Printer};
use std::alloc::{AllocError, Global};

// The spots of the nozzle reach 2 grains each way; the gantry from two bands above 101 grains in x and 10 in y.
static PRINTER: &[u8] =
    b"format = 1\ngrain = 1\nplate = [100, 100]\nstep = 10\nmargin = 1\ngrid = 100\n\n[[part]]\nname = \"nozzle\"\nfrom = 0\ncorners = [[-2, -2], [2, -2], [2, 2], [-2, 2]]\n\n[[part]]\nname = \"gantry\"\nfrom = 20\nbar = \"x\"\nlow = -10\nhigh = 10\n";

// Three corners, each (x, y, z) in millimetres.
type Corner = (u8, u8, u8);

type Triangle = [Corner; 3];

// The prism over a square of 20 mm: its floor, its top, and two triangles for each wall. One zone: from -1 to 21 grains each way.
static CUBE: &[Triangle] = &[
    [(0, 0, 0), (20, 20, 0), (20, 0, 0)],
    [(0, 0, 0), (0, 20, 0), (20, 20, 0)],
    [(0, 0, 20), (20, 0, 20), (20, 20, 20)],
    [(0, 0, 20), (20, 20, 20), (0, 20, 20)],
    [(0, 0, 0), (20, 0, 0), (20, 0, 20)],
    [(0, 0, 0), (20, 0, 20), (0, 0, 20)],
    [(20, 0, 0), (20, 20, 0), (20, 20, 20)],
    [(20, 0, 0), (20, 20, 20), (20, 0, 20)],
    [(20, 20, 0), (0, 20, 0), (0, 20, 20)],
    [(20, 20, 0), (0, 20, 20), (20, 20, 20)],
    [(0, 20, 0), (0, 0, 0), (0, 0, 20)],
    [(0, 20, 0), (0, 0, 20), (0, 20, 20)],
];

// Two zones: from (4, -1) to (11, 21); and (4, 2), (16, 2), (16, 4), (6, 9), (4, 9). Each triangle keeps off the borders of its
// band, since a point there would be in two.
static TOWER: &[Triangle] = &[
    [(5, 0, 0), (10, 0, 0), (10, 20, 8)],
    [(5, 0, 0), (10, 20, 0), (5, 20, 8)],
    [(5, 0, 11), (10, 0, 11), (10, 20, 19)],
    [(5, 0, 11), (10, 20, 11), (5, 20, 19)],
    [(5, 3, 21), (15, 3, 21), (5, 8, 29)],
    [(5, 3, 31), (15, 3, 31), (5, 8, 39)],
    [(5, 3, 41), (15, 3, 41), (5, 8, 49)],
];

fn point(corner: Corner) -> Point3
    ensures { IsNear result }
{
    Point3 {
        x: i64::from(corner.0) * 1_000,
        y: i64::from(corner.1) * 1_000,
        z: i64::from(corner.2) * 1_000,
    }
}

fn facet(triangle: &Triangle) -> Facet
    ensures { IsNearFacet result }
{
    Facet {
        a: point(triangle[0]),
        b: point(triangle[1]),
        c: point(triangle[2]),
    }
}

fn facets(alloc: Global, triangles: &[Triangle]) -> Result<Vec<Facet>, AllocError>
    ensures near { IfOk result (λ facets. All IsNearFacet facets.items) }
    ensures few { IfOk result (λ facets. length facets.items ≤ length triangles.now) }
{
    let mut facets = Vec::new(alloc);
    for triangle in triangles {
        facets.push(facet(triangle))?;
    }
    Ok(facets)
}

fn object_of(alloc: Global, triangles: &[Triangle], printer: &Printer) -> Option<Object>
    ensures { IfSome result IsSoundObject }
{
    if triangles.len() > 200_000 {
        return None;
    }
    let Ok(facets) = facets(alloc, triangles) else {
        return None;
    };
    let mesh = Mesh {
        facets: Items::from_vec(facets),
        dropped: 0,
    };
    match object(alloc, "object", &mesh, printer) {
        Ok(object) => Some(object),
        Err(_) => None,
    }
}

fn two_objects(alloc: Global, first: Object, second: Object) -> Result<Items<Object>, AllocError>
    requires first { IsSoundObject first }
    requires second { IsSoundObject second }
    ensures many { IfOk result (λ objects. length objects ≡ 2) }
    ensures sound { IfOk result (All IsSoundObject) }
{
    let mut objects = Items::new(alloc);
    objects.push(first)?;
    objects.push(second)?;
    Ok(objects)
}

fn job_of(alloc: Global, first: &[Triangle], second: &[Triangle]) -> Option<Job> {
    let printer = read_printer(alloc, PRINTER).ok()?;
    let first = object_of(alloc, first, &printer)?;
    let second = object_of(alloc, second, &printer)?;
    let Ok(objects) = two_objects(alloc, first, second) else {
        return None;
    };
    Some(Job { printer, objects })
}

/// The cube and the tower.
pub fn job(alloc: Global) -> Option<Job> {
    job_of(alloc, CUBE, TOWER)
}

/// The cube twice.
pub fn two_cubes(alloc: Global) -> Option<Job> {
    job_of(alloc, CUBE, CUBE)
}

/// Whether this is a contact of the job.
pub fn is_contact(job: &Job, contact: &Contact) -> bool
    ensures { IsTrue result → IsContact job.now contact.now }
{
    let objects = job.objects.as_slice();
    let parts = job.printer.parts.as_slice();
    if contact.i == contact.j
        || contact.i as usize >= objects.len()
        || contact.j as usize >= objects.len()
        || contact.part as usize >= parts.len()
    {
        return false;
    }
    let earlier = objects[contact.i as usize].zones.as_slice();
    let later = objects[contact.j as usize].zones.as_slice();
    if contact.zi as usize >= earlier.len() || contact.zj as usize >= later.len() {
        return false;
    }
    zones_meet(
        &parts[contact.part as usize],
        &later[contact.zj as usize],
        &earlier[contact.zi as usize],
    )
}
