//! Checks a certificate of 16 objects of 20 zones: splits of 8 sides, one below the other, behind the orders of all objects; 124,970 of
//! them, which are 1,000,001 nodes, with the word `splits`, and else 1,200. With the word `orders` it has 1,000,000 nested orders and as
//! many cycles. `bench/run certificates WORD` times it.
//! It prints what the check says, and on the error stream the milliseconds of reading and of checking. Each zone is an octagon of
//! its own size. Nothing is promised here but that `check` may be called.
#![tactic(auto)]

ghost use Rattle.std.specs.Prelude.{◌≡◌, ◌≤◌, ◌<◌, IfOk, IfSome, All, length, unsigned_abs};
ghost use Rattle.seq_model.specs.Bounds.{IsNear, IsNearFacet};
ghost use Rattle.seq_model.specs.Soundness.{IsSoundObject};

use cert_checker::check;
use cert_text::{Kind, read_tree};
use mesh_slices::object;
use owned_lists::Items;
use printer_text::read_printer;
use seq_model::{Facet, Job, Mesh, Object, Point3, Printer};
use std::alloc::{AllocError, Global};
use std::process::ExitCode;
use std::time::Instant;
use std::{env, io};
use text_lines::put_number;

const PRINTER: &[u8] =
    b"format = 1\ngrain = 1\nplate = [100, 100]\nstep = 10\nmargin = 1\ngrid = 100\n\n[[part]]\nname = \"nozzle\"\nfrom = 0\ncorners = [[-2, -2], [2, -2], [2, 2], [-2, 2]]\n";

// Three facets of the eight corners of an octagon.

static FACETS: [((i8, i8), (i8, i8), (i8, i8)); 3] = [
    ((2, -1), (2, 1), (1, 2)),
    ((-1, 2), (-2, 1), (-2, -1)),
    ((-1, -2), (1, -2), (2, -1)),
];

fn times(a: i8, size: u16) -> i64
    ensures { unsigned_abs result ≤ 10_000_000 }
{
    i64::from(a) * i64::from(size)
}

fn point(corner: &(i8, i8), size: u16, z: u32) -> Point3
    requires { z ≤ 1_000_000 }
    ensures { IsNear result }
{
    Point3 {
        x: times(corner.0, size),
        y: times(corner.1, size),
        z: i64::from(z),
    }
}

fn facet(corners: &((i8, i8), (i8, i8), (i8, i8)), size: u16, low: u32) -> Facet
    requires { low ≤ 900_000 }
    ensures { IsNearFacet result }
{
    Facet {
        a: point(&corners.0, size, low),
        b: point(&corners.1, size, low + 8_000),
        c: point(&corners.2, size, low),
    }
}

// One of three facets in each of 20 bands of 10 mm; each band is a millimetre smaller.
fn nth_facet(k: u16) -> Facet
    requires { k < 60 }
    ensures { IsNearFacet result }
{
    let band = k / 3;
    facet(
        &FACETS[(k % 3) as usize],
        30_000 - 1_000 * band,
        1_000 + 10_000 * u32::from(band),
    )
}

fn facets(alloc: Global) -> Result<Vec<Facet>, AllocError>
    ensures near { IfOk result (λ facets. All IsNearFacet facets.items) }
    ensures few { IfOk result (λ facets. length facets.items ≤ 200_000) }
{
    let mut facets = Vec::new(alloc);
    for k in 0..60u16 {
        facets.push(nth_facet(k))?;
    }
    Ok(facets)
}

// 16 objects of this mesh.
fn objects(
    alloc: Global,
    mesh: &Mesh,
    printer: &Printer,
) -> Result<Option<Items<Object>>, AllocError>
    ensures many { IfOk result (λ o. IfSome o (λ objects. length objects ≡ 16)) }
    ensures sound { IfOk result (λ o. IfSome o (All IsSoundObject)) }
{
    let mut objects = Items::new(alloc);
    for _ in 0..16u32 {
        let Ok(object) = object(alloc, "octagons", mesh, printer) else {
            return Ok(None);
        };
        objects.push(object)?;
    }
    Ok(Some(objects))
}

fn job(alloc: Global) -> Option<Job> {
    let printer = read_printer(alloc, PRINTER).ok()?;
    let Ok(facets) = facets(alloc) else {
        return None;
    };
    let mesh = Mesh {
        facets: Items::from_vec(facets),
        dropped: 0,
    };
    let objects = objects(alloc, &mesh, &printer).ok()??;
    Some(Job { printer, objects })
}

fn put_numbers(to: &mut Vec<u8>, numbers: &[u32]) -> Result<(), AllocError> {
    for number in numbers {
        put_number(to, b" ", i128::from(*number))?;
    }
    to.extend_from_slice(b"\n")
}

// A bound of the first row, which is below 0 by itself, and of three others.
fn put_bound(to: &mut Vec<u8>, row: u32) -> Result<(), AllocError> {
    to.extend_from_slice(b"bound 0:1 5:0 30:0")?;
    put_number(to, b" ", i128::from(row))?;
    to.extend_from_slice(b":0\n")
}

// The orders of all objects, then a split below the last side of the one before.
fn splits(alloc: Global, count: u32) -> Result<Vec<u8>, AllocError> {
    let mut text = Vec::from_slice(alloc, b"certificate 1\nexcludes 1\n")?;
    for i in 0..16u32 {
        for j in i + 1..16u32 {
            text.extend_from_slice(b"order")?;
            put_numbers(&mut text, &[i, j])?;
        }
    }
    for k in 0..count {
        let i = k % 15;
        let zone = k / 15 % 20;
        text.extend_from_slice(b"side")?;
        put_numbers(
            &mut text,
            &[i, zone, 1, k / 300 % (zone + 1), i + 1 + k % (15 - i), 8],
        )?;
        for _ in 0..7 {
            put_bound(&mut text, k.saturating_add(32))?;
        }
    }
    for _ in 0..121 {
        text.extend_from_slice(b"bound 0:1\n")?;
    }
    Ok(text)
}

// One order below the other, each again the first child's; the second children are cycles, but for the last.
fn orders(alloc: Global) -> Result<Vec<u8>, AllocError> {
    let mut text = Vec::from_slice(alloc, b"certificate 1\nexcludes 1\n")?;
    for _ in 0..1_000_000 {
        text.extend_from_slice(b"order 0 1\n")?;
    }
    text.extend_from_slice(b"bound 0:1\n")?;
    for _ in 0..999_999 {
        text.extend_from_slice(b"cycle 0 1\n")?;
    }
    text.extend_from_slice(b"bound 0:1\n")?;
    Ok(text)
}

fn report(rt: &HostRuntime, what: &str, start: Instant) -> io::Result<()> {
    let took = start.elapsed(rt)?;
    eprintln!(rt; "{what} {} ms", took.as_millis())
}

fn checked(rt: &HostRuntime, alloc: Global, text: &[u8]) -> io::Result<()> {
    let Some(job) = job(alloc) else {
        return println!(rt; "no job");
    };
    let start = Instant::now(rt)?;
    let Ok((head, tree)) = read_tree(alloc, text, Kind::Certificate) else {
        return println!(rt; "no tree");
    };
    report(rt, "read", start)?;
    if head.extent > job.printer.grid {
        return println!(rt; "no extent of the grid");
    }
    let start = Instant::now(rt)?;
    let said = check(alloc, &job, head.extent, &tree);
    report(rt, "checked", start)?;
    println!(rt; "{} nodes: {said:?}", tree.nodes.len())
}

// What is to be checked.
#[derive(Clone, Copy)]
enum Tree {
    Splits(u32),
    Orders,
}

fn tree_of(word: Option<String>) -> Tree {
    match word {
        Some(word) if word.as_str() == "splits" => Tree::Splits(124_970),
        Some(word) if word.as_str() == "orders" => Tree::Orders,
        _ => Tree::Splits(1_200),
    }
}

fn run(rt: &HostRuntime, alloc: Global, tree: Tree) -> io::Result<()> {
    let made = match tree {
        Tree::Splits(count) => splits(alloc, count),
        Tree::Orders => orders(alloc),
    };
    let Ok(text) = made else {
        return println!(rt; "no memory");
    };
    checked(rt, alloc, &text)
}

fn main(rt: HostRuntime) -> ExitCode {
    let alloc = rt.alloc();
    let Ok(mut args) = env::args(&rt) else {
        return ExitCode::from(2);
    };
    match run(&rt, alloc, tree_of(args.nth(1))) {
        Ok(()) => ExitCode::from(0),
        Err(_) => ExitCode::from(8),
    }
}
