ghost use Rattle.std.specs.Prelude.{◌<◌, length};

use run_files::{Loaded, Request, load, read_request};
use seq_io::{MemFile, MemShelf};
use seq_model::Job;
use std::alloc::{AllocError, Global};
use text_lines::put_number;

// Bands of 10 mm, a nozzle of 4 by 4 mm, and a gantry along x from 20 mm above.
const PRINTER: &[u8] =
    b"format = 1\ngrain = 1\nplate = [100, 100]\nstep = 10\nmargin = 1\ngrid = 100\n\n[[part]]\nname = \"nozzle\"\nfrom = 0\ncorners = [[-2, -2], [2, -2], [2, 2], [-2, 2]]\n\n[[part]]\nname = \"gantry\"\nfrom = 20\nbar = \"x\"\nlow = -10\nhigh = 10\n";

type Corner = (i64, i64);

static SQUARE: [Corner; 4] = [(0, 0), (20, 0), (20, 20), (0, 20)];

// Twenty points at a distance of 25 from the origin.
static ROUND: [Corner; 20] = [
    (25, 0),
    (24, 7),
    (20, 15),
    (15, 20),
    (7, 24),
    (0, 25),
    (-7, 24),
    (-15, 20),
    (-20, 15),
    (-24, 7),
    (-25, 0),
    (-24, -7),
    (-20, -15),
    (-15, -20),
    (-7, -24),
    (0, -25),
    (7, -24),
    (15, -20),
    (20, -15),
    (24, -7),
];

fn put_vertex(to: &mut Vec<u8>, corner: Corner, z: i64) -> Result<(), AllocError> {
    let (x, y) = corner;
    put_number(to, b"vertex ", i128::from(x))?;
    put_number(to, b" ", i128::from(y))?;
    put_number(to, b" ", i128::from(z))?;
    to.extend_from_slice(b"\n")
}

fn put_facet(
    to: &mut Vec<u8>,
    a: Corner,
    b: Corner,
    c: Corner,
    heights: [i64; 3],
) -> Result<(), AllocError> {
    to.extend_from_slice(b"facet normal 0 0 0\nouter loop\n")?;
    put_vertex(to, a, heights[0])?;
    put_vertex(to, b, heights[1])?;
    put_vertex(to, c, heights[2])?;
    to.extend_from_slice(b"endloop\nendfacet\n")
}

// Corner k of a ring, whose last one is followed by the first.
fn corner(ring: &[Corner], k: usize) -> Corner
    requires { 0 < length ring.now }
{
    if k < ring.len() { ring[k] } else { ring[0] }
}

// The ring as a face at this height.
fn put_face(to: &mut Vec<u8>, ring: &[Corner], z: i64) -> Result<(), AllocError>
    requires { 0 < length ring.now }
{
    for k in 1..ring.len() - 1 {
        put_facet(to, ring[0], ring[k], ring[k + 1], [z, z, z])?;
    }
    Ok(())
}

// From the ring at the bottom to that at the top: 20 mm.
fn put_block(to: &mut Vec<u8>, ring: &[Corner]) -> Result<(), AllocError>
    requires { 0 < length ring.now }
{
    put_face(to, ring, 0)?;
    put_face(to, ring, 20)?;
    for k in 0..ring.len() {
        let next = corner(ring, k + 1);
        put_facet(to, ring[k], next, next, [0, 0, 20])?;
        put_facet(to, ring[k], next, ring[k], [0, 20, 20])?;
    }
    Ok(())
}

// From the ring to a top 40 mm above the origin.
fn put_cone(to: &mut Vec<u8>, ring: &[Corner]) -> Result<(), AllocError>
    requires { 0 < length ring.now }
{
    put_face(to, ring, 0)?;
    for k in 0..ring.len() {
        put_facet(to, ring[k], corner(ring, k + 1), (0, 0), [0, 0, 40])?;
    }
    Ok(())
}

fn mesh_text(alloc: Global, is_cube: bool) -> Result<Vec<u8>, AllocError> {
    let mut text = Vec::from_slice(alloc, b"solid s\n")?;
    if is_cube {
        put_block(&mut text, &SQUARE)?;
    } else {
        put_cone(&mut text, &ROUND)?;
    }
    text.extend_from_slice(b"endsolid s\n")?;
    Ok(text)
}

fn put_file(
    files: &mut Vec<MemFile>,
    alloc: Global,
    name: &str,
    bytes: Vec<u8>,
) -> Result<(), AllocError> {
    files.push(MemFile::new(String::from_str(alloc, name)?, bytes))?;
    Ok(())
}

fn shelf(alloc: Global) -> Result<MemShelf, AllocError> {
    let mut files = Vec::new(alloc);
    put_file(
        &mut files,
        alloc,
        "p1.toml",
        Vec::from_slice(alloc, PRINTER)?,
    )?;
    put_file(&mut files, alloc, "cube.stl", mesh_text(alloc, true)?)?;
    put_file(&mut files, alloc, "cone.stl", mesh_text(alloc, false)?)?;
    Ok(MemShelf::new(files, 1 << 20, Vec::new(alloc)))
}

fn owned(alloc: Global, words: &[&str]) -> Result<Vec<String>, AllocError> {
    let mut all = Vec::new(alloc);
    for word in words {
        all.push(String::from_str(alloc, word)?)?;
    }
    Ok(all)
}

/// The job that the words ask for, if they ask for one.
pub(crate) fn job_of(alloc: Global, words: &[&str]) -> Result<Option<Job>, AllocError> {
    let words = owned(alloc, words)?;
    let Ok(Request::OfFiles(asked)) = read_request(alloc, &words) else {
        return Ok(None);
    };
    let mut shelf = shelf(alloc)?;
    match load(alloc, &asked, &mut shelf) {
        Ok(loaded) => {
            let Loaded {
                job,
                plan: _,
                notes: _,
            } = loaded;
            Ok(Some(job))
        }
        Err(_) => Ok(None),
    }
}
