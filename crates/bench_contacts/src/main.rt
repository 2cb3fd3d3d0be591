//! Times what a search asks of contacts: all maximal contacts of 16 objects of 20 zones with 3 parts; the sides of contacts that are
//! kept; and whether a contact of 4 sides collides at a point of a system, where the point is narrow and where it is wide. It prints
//! what came of it, and on the error stream the least time of a call over many rounds; `bench/run contacts` runs it.
//!
//! Each object is a tower of octagons, smaller from band to band but for some. Nothing is promised here but that the calls may be
//! made.
#![tactic(auto)]

ghost use Rattle.std.specs.Prelude.{◌≡◌, ◌≤◌, ◌<◌, ◌+◌, IfOk, OnOk, IfSome, All, length, unsigned_abs, IsTrue};
ghost use Rattle.pair_constraints.specs.Keeping.{IsKept};
ghost use Rattle.pair_constraints.specs.KeptSides.{AreKeptSides};
ghost use Rattle.seq_model.specs.Bounds.{IsNear, IsNearFacet};
ghost use Rattle.seq_model.specs.Contacts.{IsContact};
ghost use Rattle.seq_model.specs.Soundness.{IsSoundObject};

use mesh_slices::object;
use owned_lists::Items;
use pair_constraints::{Contacts, Kept, KeptSides, SolvedPoint, keep};
use printer_envelopes::zones_meet;
use printer_text::read_printer;
use seq_model::{Contact, Facet, Job, Mesh, Object, Point3, Printer};
use std::alloc::{AllocError, Global};
use std::io;
use std::process::ExitCode;
use std::time::{Duration, Instant};

const PRINTER: &[u8] =
    b"format = 1\ngrain = 1\nplate = [200, 200]\nstep = 10\nmargin = 1\ngrid = 100\n\n[[part]]\nname = \"nozzle\"\nfrom = 0\ncorners = [[-2, -2], [2, -2], [2, 2], [-2, 2]]\n\n[[part]]\nname = \"gantry\"\nfrom = 20\nbar = \"x\"\nlow = -10\nhigh = 10\n";

type Corner = (i8, i8);

// Three facets of the eight corners of an octagon, and three of the four corners of a square.
static OCTAGON: [(Corner, Corner, Corner); 3] = [
    ((2, -1), (2, 1), (1, 2)),
    ((-1, 2), (-2, 1), (-2, -1)),
    ((-1, -2), (1, -2), (2, -1)),
];

static SQUARE: [(Corner, Corner, Corner); 3] = [
    ((1, -1), (1, 1), (-1, 1)),
    ((-1, 1), (-1, -1), (1, -1)),
    ((-1, -1), (1, -1), (1, 1)),
];

// The facets of a band, the number of bands, and the number of the object, by which its sizes differ.
#[derive(Clone, Copy)]
struct Tower {
    facets: &'static [(Corner, Corner, Corner); 3],
    bands: u16,
    number: u16,
}

// Some bands are wider than the one below them.
fn size(tower: &Tower, band: u16) -> u16
    requires { band < 20 }
{
    let wider = tower
        .number
        .wrapping_mul(7)
        .wrapping_add(band.wrapping_mul(3))
        % 5;
    20_000 - 500 * band + 400 * wider
}

fn times(a: i8, size: u16) -> i64
    ensures { unsigned_abs result ≤ 10_000_000 }
{
    i64::from(a) * i64::from(size)
}

fn point(corner: &Corner, size: u16, z: u32) -> Point3
    requires { z ≤ 1_000_000 }
    ensures { IsNear result }
{
    Point3 {
        x: times(corner.0, size),
        y: times(corner.1, size),
        z: i64::from(z),
    }
}

fn facet(corners: &(Corner, Corner, Corner), size: u16, low: u32) -> Facet
    requires { low ≤ 900_000 }
    ensures { IsNearFacet result }
{
    Facet {
        a: point(&corners.0, size, low),
        b: point(&corners.1, size, low + 8_000),
        c: point(&corners.2, size, low),
    }
}

// One of the three facets of each band of 10 mm.
fn nth_facet(tower: &Tower, k: u16) -> Facet
    requires { k < 60 }
    ensures { IsNearFacet result }
{
    let band = k / 3;
    facet(
        &tower.facets[(k % 3) as usize],
        size(tower, band),
        10_000 * u32::from(band) + 1_000 * u32::from(band.min(1)),
    )
}

fn facets(alloc: Global, tower: &Tower) -> Result<Vec<Facet>, AllocError>
    ensures near { IfOk result (λ facets. All IsNearFacet facets.items) }
    ensures few { IfOk result (λ facets. length facets.items ≤ 200_000) }
{
    let mut facets = Vec::new(alloc);
    for k in 0..tower.bands.min(20) * 3 {
        facets.push(nth_facet(tower, k))?;
    }
    Ok(facets)
}

fn tower_object(alloc: Global, tower: &Tower, printer: &Printer) -> Option<Object>
    ensures { IfSome result IsSoundObject }
{
    let Ok(facets) = facets(alloc, tower) else {
        return None;
    };
    let mesh = Mesh {
        facets: Items::from_vec(facets),
        dropped: 0,
    };
    match object(alloc, "tower", &mesh, printer) {
        Ok(object) => Some(object),
        Err(_) => None,
    }
}

fn add(objects: &mut Items<Object>, object: Object) -> Result<(), AllocError>
    requires sound { All IsSoundObject objects.old }
    requires object { IsSoundObject object }
    ensures many { OnOk result (length objects.new ≡ length objects.old + 1) }
    ensures sound { OnOk result (All IsSoundObject objects.new) }
{
    objects.push(object)?;
    Ok(())
}

fn objects(
    alloc: Global,
    count: u16,
    shape: Tower,
    printer: &Printer,
) -> Result<Option<Items<Object>>, AllocError>
    ensures many { IfOk result (λ o. IfSome o (λ objects. length objects ≡ count)) }
    ensures sound { IfOk result (λ o. IfSome o (All IsSoundObject)) }
{
    let mut objects = Items::new(alloc);
    for number in 0..count {
        let Some(object) = tower_object(alloc, &Tower { number, ..shape }, printer) else {
            return Ok(None);
        };
        add(&mut objects, object)?;
    }
    Ok(Some(objects))
}

fn job(alloc: Global, count: u16, shape: Tower) -> Option<Job>
    requires some { 1 ≤ count }
    requires few { count ≤ 16 }
{
    let printer = read_printer(alloc, PRINTER).ok()?;
    let objects = objects(alloc, count, shape, &printer).ok()??;
    Some(Job { printer, objects })
}

// Whether this is a contact of the job.
fn is_contact(job: &Job, contact: &Contact) -> bool
    ensures { IsTrue result → IsContact job.now contact.now }
{
    let objects = job.objects.as_slice();
    let parts = job.printer.parts.as_slice();
    if contact.i == contact.j
        || contact.i as usize >= objects.len()
        || contact.j as usize >= objects.len()
        || contact.part as usize >= parts.len()
    {
        return false;
    }
    let earlier = objects[contact.i as usize].zones.as_slice();
    let later = objects[contact.j as usize].zones.as_slice();
    if contact.zi as usize >= earlier.len() || contact.zj as usize >= later.len() {
        return false;
    }
    zones_meet(
        &parts[contact.part as usize],
        &later[contact.zj as usize],
        &earlier[contact.zi as usize],
    )
}

fn report(rt: &HostRuntime, what: &str, count: u64, calls: u128, least: Duration) -> io::Result<()>
    requires { 0 < calls }
{
    println!(rt; "{what}: {count}")?;
    eprintln!(rt; "{what}: {} ns a call", least.as_nanos() / calls)
}

fn count_of(contacts: &Contacts) -> u64 {
    let mut count = 0_u64;
    for row in contacts.rows.as_slice() {
        for pair in row.as_slice() {
            count = count.wrapping_add(pair.len() as u64);
        }
    }
    count
}

fn time_maximal(rt: &HostRuntime, alloc: Global, job: &Job) -> io::Result<()> {
    let mut least = Duration::MAX;
    let mut count = 0_u64;
    for _ in 0..10_u32 {
        let start = Instant::now(rt)?;
        if let Ok(contacts) = Contacts::of(alloc, job) {
            least = least.min(start.elapsed(rt)?);
            count = count_of(&contacts);
        }
    }
    report(
        rt,
        "maximal contacts of 16 objects of 20 zones",
        count,
        1,
        least,
    )
}

fn add_contact(job: &Job, contacts: &mut Vec<Contact>, contact: &Contact) -> Result<(), AllocError>
    requires { All (IsContact job.now) contacts.old.items }
    ensures { OnOk result (All (IsContact job.now) contacts.new.items) }
{
    if is_contact(job, contact) {
        contacts.push(*contact)?;
    }
    Ok(())
}

// The contacts of the first zones of all pairs by the nozzle.
fn first_contacts(alloc: Global, job: &Job) -> Result<Vec<Contact>, AllocError>
    ensures { IfOk result (λ contacts. All (IsContact job.now) contacts.items) }
{
    let mut contacts = Vec::new(alloc);
    for n in 0..256_u32 {
        let contact = Contact {
            i: n / 16,
            zi: 0,
            part: 1,
            zj: 0,
            j: n % 16,
        };
        add_contact(job, &mut contacts, &contact)?;
    }
    Ok(contacts)
}

// How many sides the contacts have, each asked for once.
fn sides_once(alloc: Global, job: &Job, contacts: &[Contact], kept: &mut KeptSides) -> u64
    requires contacts { All (IsContact job.now) contacts.now }
    requires kept { AreKeptSides job.now kept.old }
    ensures { AreKeptSides job.now kept.new }
{
    let mut count = 0_u64;
    for contact in contacts {
        if let Ok(sides) = kept.sides(alloc, job, contact) {
            count = count.wrapping_add(sides.len() as u64);
        }
    }
    count
}

fn time_sides(rt: &HostRuntime, alloc: Global, job: &Job) -> io::Result<()> {
    let Ok(contacts) = first_contacts(alloc, job) else {
        return println!(rt; "no contacts");
    };
    let mut kept = KeptSides::new(alloc);
    let mut least = Duration::MAX;
    let mut count = 0_u64;
    for _ in 0..200_u32 {
        let start = Instant::now(rt)?;
        count = sides_once(alloc, job, &contacts, &mut kept);
        least = least.min(start.elapsed(rt)?);
    }
    let calls = (contacts.len() as u128).max(1);
    report(rt, "sides of 240 kept contacts", count, calls, least)
}

// How often the contact collides at points of this denominator and this x.
fn tests_often(job: &Job, kept: &Kept, den: i64, x: i64) -> u64
    requires { IsKept job.now kept.now }
{
    let mut count = 0_u64;
    if den < 1 || den >= 1 << 62 || job.objects.len() != 2 {
        return 0;
    }
    for k in 0..1_000_u32 {
        let nums = [0, 0, x, i64::from(k)];
        if kept.collides_at(job, &SolvedPoint::new(den, &nums)) {
            count = count.wrapping_add(1);
        }
    }
    count
}

fn time_tests(
    rt: &HostRuntime,
    what: &str,
    job: &Job,
    kept: &Kept,
    den: i64,
    x: i64,
) -> io::Result<()>
    requires { IsKept job.now kept.now }
{
    let mut least = Duration::MAX;
    let mut count = 0_u64;
    for _ in 0..200_u32 {
        let start = Instant::now(rt)?;
        count = tests_often(job, kept, den, x);
        least = least.min(start.elapsed(rt)?);
    }
    report(rt, what, count, 1_000, least)
}

// Two squares, of which the later stands within the sides, or east of them.
fn squares(rt: &HostRuntime, alloc: Global) -> io::Result<()> {
    let shape = Tower {
        facets: &SQUARE,
        bands: 2,
        number: 0,
    };
    let Some(job) = job(alloc, 2, shape) else {
        return println!(rt; "no job");
    };
    let contact = Contact {
        i: 0,
        zi: 0,
        part: 1,
        zj: 0,
        j: 1,
    };
    if !is_contact(&job, &contact) {
        return println!(rt; "no contact");
    }
    let Ok(kept) = keep(alloc, &job, &contact) else {
        return println!(rt; "no memory");
    };
    println!(rt; "sides: {}", kept.limits.len())?;
    time_tests(rt, "within 4 sides, narrow", &job, &kept, 1_000, 0)?;
    time_tests(rt, "east of 4 sides, narrow", &job, &kept, 1_000, 90_000)?;
    time_tests(rt, "within 4 sides, wide", &job, &kept, 1 << 40, 0)
}

fn towers(rt: &HostRuntime, alloc: Global) -> io::Result<()> {
    let shape = Tower {
        facets: &OCTAGON,
        bands: 20,
        number: 0,
    };
    let Some(job) = job(alloc, 16, shape) else {
        return println!(rt; "no job");
    };
    println!(rt;
        "zones of the first: {}, parts: {}",
        zones_of_first(&job),
        job.printer.parts.len()
    )?;
    time_maximal(rt, alloc, &job)?;
    time_sides(rt, alloc, &job)
}

fn zones_of_first(job: &Job) -> usize {
    match job.objects.as_slice().first() {
        Some(object) => object.zones.len(),
        None => 0,
    }
}

fn timed(rt: &HostRuntime) -> io::Result<()> {
    let alloc = rt.alloc();
    squares(rt, alloc)?;
    towers(rt, alloc)
}

fn main(rt: HostRuntime) -> ExitCode {
    match timed(&rt) {
        Ok(()) => ExitCode::from(0),
        Err(_) => ExitCode::from(8),
    }
}
