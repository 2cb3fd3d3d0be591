use std::alloc::Global;
use std::test::Fail;

// z is 0 at the bottom and 1 at the top.
type Point = (i64, i64, i64);

/// A mesh, by what it is. Each but a text stands on the origin, on a square of 20 mm or a half of it.
#[derive(Clone, Copy)]
pub(crate) enum Mesh {
    /// A file as it is.
    Text(&'static [u8]),
    /// The head of a binary file, and room for its 12 facets.
    Binary,
    /// A block of this height, in millimetres.
    Block(i64),
    /// So many cubes in one place, of 12 facets each.
    Cubes(u32),
    /// So many wedges in one place, of 8 facets each.
    Wedges(u32),
    /// So many spaces, and no mesh.
    Spaces(usize),
    /// A cube, as an exporter writes it.
    Exported,
    /// A cube without its last facet.
    Open,
    /// A cube, and a facet of which two corners are equal.
    Dropped,
    Pyramid,
    Wedge,
}

// How the lines of a mesh are spelt.
#[derive(Clone, Copy, PartialEq, Eq)]
enum Style {
    // Lower case, whole numbers and line feeds.
    Plain,
    // Capitals, exponents, CR and LF, no name, and normals that are no numbers. For coordinates of 0 and 20 alone.
    Exported,
}

static CUBE: [[Point; 3]; 12] = [
    [(0, 0, 0), (0, 20, 0), (20, 20, 0)],
    [(0, 0, 0), (20, 20, 0), (20, 0, 0)],
    [(0, 0, 1), (20, 0, 1), (20, 20, 1)],
    [(0, 0, 1), (20, 20, 1), (0, 20, 1)],
    [(0, 0, 0), (20, 0, 0), (20, 0, 1)],
    [(0, 0, 0), (20, 0, 1), (0, 0, 1)],
    [(20, 0, 0), (20, 20, 0), (20, 20, 1)],
    [(20, 0, 0), (20, 20, 1), (20, 0, 1)],
    [(20, 20, 0), (0, 20, 0), (0, 20, 1)],
    [(20, 20, 0), (0, 20, 1), (20, 20, 1)],
    [(0, 20, 0), (0, 0, 0), (0, 0, 1)],
    [(0, 20, 0), (0, 0, 1), (0, 20, 1)],
];

static PYRAMID: [[Point; 3]; 6] = [
    [(0, 0, 0), (20, 20, 0), (20, 0, 0)],
    [(0, 0, 0), (0, 20, 0), (20, 20, 0)],
    [(0, 0, 0), (20, 0, 0), (10, 10, 1)],
    [(20, 0, 0), (20, 20, 0), (10, 10, 1)],
    [(20, 20, 0), (0, 20, 0), (10, 10, 1)],
    [(0, 20, 0), (0, 0, 0), (10, 10, 1)],
];

static WEDGE: [[Point; 3]; 8] = [
    [(0, 0, 0), (0, 20, 0), (20, 0, 0)],
    [(0, 0, 1), (20, 0, 1), (0, 20, 1)],
    [(0, 0, 0), (20, 0, 0), (20, 0, 1)],
    [(0, 0, 0), (20, 0, 1), (0, 0, 1)],
    [(20, 0, 0), (0, 20, 0), (0, 20, 1)],
    [(20, 0, 0), (0, 20, 1), (20, 0, 1)],
    [(0, 20, 0), (0, 0, 0), (0, 0, 1)],
    [(0, 20, 0), (0, 0, 1), (0, 20, 1)],
];

static NEEDLE: [[Point; 3]; 1] = [[(0, 0, 0), (0, 0, 0), (1, 1, 1)]];

fn length(alloc: Global, style: Style, n: i64) -> Result<String, Fail> {
    match style {
        Style::Plain => Ok(format!(in alloc; "{n}")?),
        Style::Exported if n == 0 => Ok(String::from_str(alloc, "0.000000e+00")?),
        Style::Exported => Ok(String::from_str(alloc, "2.000000e+01")?),
    }
}

fn vertex(alloc: Global, text: &mut Vec<u8>, style: Style, corner: [i64; 3]) -> Result<(), Fail> {
    let (opening, end) = match style {
        Style::Plain => (b"vertex".as_slice(), b"\n".as_slice()),
        Style::Exported => (b"   VERTEX".as_slice(), b"\r\n".as_slice()),
    };
    text.extend_from_slice(opening)?;
    for n in corner {
        text.extend_from_slice(b" ")?;
        text.extend_from_slice(length(alloc, style, n)?.as_bytes())?;
    }
    text.extend_from_slice(end)?;
    Ok(())
}

fn facet(
    alloc: Global,
    text: &mut Vec<u8>,
    style: Style,
    corners: &[Point; 3],
    height: i64,
) -> Result<(), Fail> {
    let (opening, closing) = match style {
        Style::Plain => (
            b"facet normal 0 0 0\nouter loop\n".as_slice(),
            b"endloop\nendfacet\n".as_slice(),
        ),
        Style::Exported => (
            b" FACET NORMAL nan nan nan\r\n  OUTER LOOP\r\n".as_slice(),
            b"  ENDLOOP\r\n ENDFACET\r\n".as_slice(),
        ),
    };
    text.extend_from_slice(opening)?;
    for (x, y, z) in corners {
        let z = if *z == 0 { 0 } else { height };
        vertex(alloc, text, style, [*x, *y, z])?;
    }
    text.extend_from_slice(closing)?;
    Ok(())
}

// Adds a solid of these facets, so many times.
fn solid(
    alloc: Global,
    text: &mut Vec<u8>,
    style: Style,
    facets: &[[Point; 3]],
    count: u32,
    height: i64,
) -> Result<(), Fail> {
    let (opening, closing) = match style {
        Style::Plain => (b"solid s\n".as_slice(), b"endsolid s\n".as_slice()),
        Style::Exported => (b"SOLID\r\n".as_slice(), b"ENDSOLID\r\n".as_slice()),
    };
    let mut once = Vec::new(alloc);
    for corners in facets {
        facet(alloc, &mut once, style, corners, height)?;
    }
    text.extend_from_slice(opening)?;
    for _ in 0..count {
        text.extend_from_slice(&once)?;
    }
    text.extend_from_slice(closing)?;
    Ok(())
}

// 84 + 50 * 12 bytes, with the number 12 at byte 80.
fn binary(text: &mut Vec<u8>) -> Result<(), Fail> {
    text.extend_from_slice(b"solid")?;
    text.resize(80, 0)?;
    text.push(12)?;
    text.resize(684, 0)?;
    Ok(())
}

fn put(alloc: Global, text: &mut Vec<u8>, mesh: &Mesh) -> Result<(), Fail> {
    match mesh {
        Mesh::Text(file) => Ok(text.extend_from_slice(file)?),
        Mesh::Binary => binary(text),
        Mesh::Block(height) => solid(alloc, text, Style::Plain, &CUBE, 1, *height),
        Mesh::Cubes(count) => solid(alloc, text, Style::Plain, &CUBE, *count, 20),
        Mesh::Wedges(count) => solid(alloc, text, Style::Plain, &WEDGE, *count, 20),
        Mesh::Spaces(count) => Ok(text.resize(*count, b' ')?),
        Mesh::Exported => solid(alloc, text, Style::Exported, &CUBE, 1, 20),
        Mesh::Open => solid(alloc, text, Style::Plain, &CUBE[..11], 1, 20),
        Mesh::Dropped => {
            solid(alloc, text, Style::Plain, &CUBE, 1, 20)?;
            solid(alloc, text, Style::Plain, &NEEDLE, 1, 1)
        }
        Mesh::Pyramid => solid(alloc, text, Style::Plain, &PYRAMID, 1, 20),
        Mesh::Wedge => solid(alloc, text, Style::Plain, &WEDGE, 1, 20),
    }
}

/// The file of a mesh.
pub(crate) fn file_of(alloc: Global, mesh: &Mesh) -> Result<Vec<u8>, Fail> {
    let mut text = Vec::new(alloc);
    put(alloc, &mut text, mesh)?;
    Ok(text)
}
