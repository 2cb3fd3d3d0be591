use crate::meshes::{Mesh, file_of};
use crate::runs::{ARRANGE, FINE, Failing, PLAN, PLATE, UNEVEN, see, see_with_failures};
use std::test::Fail;

const SMALL_PLATE: &[u8] =
    b"format = 1\ngrain = 1\nplate = [20, 20]\nstep = 10\nmargin = 1\ngrid = 100\n";

const FLAT_PLATE: &[u8] =
    b"format = 1\ngrain = 1\nplate = [100, 21]\nstep = 10\nmargin = 1\ngrid = 50\n";

const NONE: &[u8] = b"seqplan 1\nstate none\ngrid 100\ncertificate 1\nexcludes 100\nbound 0:1\n";

const FLAT_NONE: &[u8] = b"seqplan 1\nstate none\ngrid 50\ncertificate 1\nexcludes 50\nbound 1:1\n";

const FINE_PLAN: &[u8] = b"seqplan 1\nstate found\ngrid 100\nextent 100\nscale 1\nplace 0 2 2\n";

const UNEVEN_PLAN: &[u8] = b"seqplan 1\nstate found\ngrid 40\nextent 40\nscale 1\nplace 0 3 3\n";

// Printers and meshes, and the status and the text.
static ALONE: [(&[u8], Mesh, u8, &[u8]); 7] = [
    (PLATE, Mesh::Block(20), 0, PLAN),
    (PLATE, Mesh::Exported, 0, PLAN),
    // 200 bands
    (PLATE, Mesh::Block(2_000), 0, PLAN),
    (SMALL_PLATE, Mesh::Block(20), 1, NONE),
    // 22 grains are too deep for 21
    (FLAT_PLATE, Mesh::Block(20), 1, FLAT_NONE),
    (FINE, Mesh::Block(20), 0, FINE_PLAN),
    (UNEVEN, Mesh::Wedge, 0, UNEVEN_PLAN),
];

#[test]
fn one_mesh_has_a_plan_or_a_certificate(rt: HostRuntime) -> Result<(), Fail> {
    let words = ["arrange", "--budget=1", "p0.toml", "a.stl"];
    for (printer, mesh, status, text) in &ALONE {
        see(&rt, rt.alloc(), printer, mesh, &words, (*status, text, b""))?;
    }
    Ok(())
}

// A facet of 1.5 mm, 20 mm and 20 mm, that is seen from outside and from inside.
const OUTWARD: &[u8] =
    b"solid\nfacet normal 0 0 0 outer loop vertex 0 0 1.5 vertex 20 0 0 vertex 0 20 20 endloop endfacet endsolid";

const INWARD: &[u8] =
    b"solid\nfacet normal 0 0 0 outer loop vertex 0 0 1.5 vertex 0 20 20 vertex 20 0 0 endloop endfacet endsolid";

const OPEN: &[u8] = b"note: a.stl: open edges 3, six volume 48000000000000, dropped 0\n";

const DROPPED: &[u8] = b"note: a.stl: open edges 0, six volume 48000000000000, dropped 1\n";

const OUTWARD_OPEN: &[u8] = b"note: a.stl: open edges 3, six volume 600000000000, dropped 0\n";

// Printers and meshes, the status, the text and the note.
static NOTED: [(&[u8], Mesh, u8, &[u8], &[u8]); 4] = [
    (PLATE, Mesh::Open, 0, PLAN, OPEN),
    (SMALL_PLATE, Mesh::Open, 1, NONE, OPEN),
    (PLATE, Mesh::Dropped, 0, PLAN, DROPPED),
    (PLATE, Mesh::Text(OUTWARD), 0, PLAN, OUTWARD_OPEN),
];

#[test]
fn a_mesh_that_is_open_inverted_or_cleaned_is_noted(rt: HostRuntime) -> Result<(), Fail> {
    for (printer, mesh, status, text, line) in &NOTED {
        see(
            &rt,
            rt.alloc(),
            printer,
            mesh,
            ARRANGE,
            (*status, text, line),
        )?;
    }
    Ok(())
}

// Meshes, the status of a strict run, the text and the line on `err`.
static STRICT: [(Mesh, u8, &[u8], &[u8]); 4] = [
    (Mesh::Block(20), 0, PLAN, b""),
    (Mesh::Dropped, 0, PLAN, DROPPED),
    (
        Mesh::Open,
        4,
        b"",
        b"input: a.stl: not a closed outward mesh: open edges 3, six volume 48000000000000\n",
    ),
    (
        Mesh::Text(INWARD),
        4,
        b"",
        b"input: a.stl: not a closed outward mesh: open edges 3, six volume -600000000000\n",
    ),
];

#[test]
fn a_strict_run_refuses_what_is_open_or_inverted(rt: HostRuntime) -> Result<(), Fail> {
    let words = ["arrange", "p0.toml", "--strict", "a.stl"];
    for (mesh, status, text, line) in &STRICT {
        see(&rt, rt.alloc(), PLATE, mesh, &words, (*status, text, line))?;
    }
    Ok(())
}

// Meshes, and the line on `err`.
static UNUSABLE: [(Mesh, &[u8]); 8] = [
    (Mesh::Binary, b"input: a.stl: binary STL\n"),
    // a height of 2,010 mm in bands of 10 mm
    (
        Mesh::Block(2_010),
        b"input: a.stl: more than 200 bands: 201\n",
    ),
    (
        Mesh::Text(b"solid\nendsolid\n"),
        b"input: a.stl: no facet\n",
    ),
    (
        Mesh::Text(
            b"solid s facet\nfacet normal 0 0 0 outer loop vertex 0 0 0 vertex 0 0 0 vertex 1 1 1 endloop endfacet\nendsolid",
        ),
        b"input: a.stl: no facet is left\n",
    ),
    // cut within the third vertex, at byte 74
    (
        Mesh::Text(
            b"solid c\nfacet normal 0 0 1\nouter loop\nvertex 0 0 0\nvertex 1 0 0\nvertex 1 1",
        ),
        b"input: a.stl: number at 74: empty\n",
    ),
    (
        Mesh::Text(b"solid c\nfacet normal 0 0 1\nouter loop\nvertex 0 0 1,5\n"),
        b"input: a.stl: number at 49: bad byte at 1\n",
    ),
    (
        Mesh::Text(b"solid c\nfacet 0 0 1\n"),
        b"input: a.stl: expected normal at 14\n",
    ),
    (
        Mesh::Text(b"solid c\nvertex"),
        b"input: a.stl: expected facet or endsolid at 8\n",
    ),
];

#[test]
fn a_file_that_can_not_be_used_is_told_in_one_line(rt: HostRuntime) -> Result<(), Fail> {
    for (mesh, line) in &UNUSABLE {
        see(&rt, rt.alloc(), PLATE, mesh, ARRANGE, (4, b"", line))?;
    }
    Ok(())
}

// Large files are no want of memory: a mesh of more than 2 MiB, and a description of 1 MiB, which is its limit.
#[test]
fn large_files_are_read_or_too_long(rt: HostRuntime) -> Result<(), Fail> {
    let mut printer = Vec::from_slice(rt.alloc(), PLATE)?;
    printer.resize(1_048_576, b'#')?;
    let large = Mesh::Cubes(2_000);
    assert!(rt; file_of(rt.alloc(), &large)?.len() > 2_097_152);
    see(&rt, rt.alloc(), &printer, &large, ARRANGE, (0, PLAN, b""))?;
    // one byte more
    printer.push(b'#')?;
    let line = b"input: p0.toml: longer than 1048576 bytes\n";
    see(&rt, rt.alloc(), &printer, &large, ARRANGE, (4, b"", line))
}

#[test]
fn more_facets_than_the_limit_are_refused(rt: HostRuntime) -> Result<(), Fail> {
    let line = b"input: a.stl: more than 200000 facets\n";
    let mesh = Mesh::Wedges(25_001);
    see(&rt, rt.alloc(), PLATE, &mesh, ARRANGE, (4, b"", line))
}

// Spaces of 64 MiB, and one more.
static LONG: [(usize, &[u8]); 2] = [
    (67_108_864, b"input: a.stl: expected solid at 67108864\n"),
    (67_108_865, b"input: a.stl: longer than 67108864 bytes\n"),
];

#[test]
fn a_mesh_past_64_mib_is_too_long(rt: HostRuntime) -> Result<(), Fail> {
    for (count, line) in &LONG {
        let mesh = Mesh::Spaces(*count);
        see(&rt, rt.alloc(), PLATE, &mesh, ARRANGE, (4, b"", line))?;
    }
    Ok(())
}

const NO_MESH: &[&str] = &["arrange", "p0.toml"];

// Words, calls of the shelf that fail, the status and the line on `err`.
static RUNS: [(&[&str], &[u64], u8, &[u8]); 24] = [
    (&[], &[], 2, b"words: unknown command\n"),
    (
        &["arange", "p0.toml", "a.stl"],
        &[],
        2,
        b"words: unknown command\n",
    ),
    (NO_MESH, &[], 2, b"words: usage\n"),
    (
        &["arrange", "--help", "p0.toml", "a.stl"],
        &[],
        2,
        b"words: usage\n",
    ),
    (
        &["slices", "p0.toml", "a.stl", "a.stl"],
        &[],
        2,
        b"words: usage\n",
    ),
    (
        &["arrange", "--budget", "0", "p.toml", "a.stl"],
        &[],
        2,
        b"words: bad number for --budget\n",
    ),
    (&["trial", "17", "-"], &[], 2, b"words: bad number for K\n"),
    (
        &["trial", "1", "4294967296"],
        &[],
        2,
        b"words: bad number for N\n",
    ),
    (
        &[
            "arrange", "p", "1", "2", "3", "4", "5", "6", "7", "8", "9", "10", "11", "12", "13",
            "14", "15", "16", "17",
        ],
        &[],
        2,
        b"words: more than 16 meshes\n",
    ),
    (&["check", "p", "q", "r"], &[], 3, b"read: p\n"),
    (&["check", "p0.toml", "q", "r"], &[], 3, b"read: q\n"),
    (&["audit", "p", "q", "r"], &[], 3, b"read: p\n"),
    (&["audit", "p0.toml", "q", "r"], &[], 3, b"read: q\n"),
    (&["audit", "p0.toml", "q"], &[], 2, b"words: usage\n"),
    (&["slices", "p0.toml", "b.stl"], &[], 3, b"read: b.stl\n"),
    (&["trial", "1"], &[], 2, b"words: usage\n"),
    (&["arrange", "--least", "p", "q"], &[], 3, b"read: p\n"),
    (&["arrange", "p", "q", "q"], &[], 3, b"read: p\n"),
    (&["arrange", "p1.toml", "a.stl"], &[], 3, b"read: p1.toml\n"),
    (&["arrange", "p0.toml", "-"], &[], 3, b"read: -\n"),
    (ARRANGE, &[0], 3, b"read: p0.toml\n"),
    (ARRANGE, &[2], 3, b"read: p0.toml\n"),
    (ARRANGE, &[3], 3, b"read: a.stl\n"),
    // the read that finds the end of the mesh
    (ARRANGE, &[5], 3, b"read: a.stl\n"),
];

#[test]
fn words_and_failures_have_their_lines(rt: HostRuntime) -> Result<(), Fail> {
    for (words, reads, status, line) in &RUNS {
        let failing = Failing {
            reads,
            out: &[],
            err: &[],
        };
        let seen = (*status, b"".as_slice(), *line);
        see_with_failures(
            &rt,
            rt.alloc(),
            PLATE,
            &Mesh::Block(20),
            words,
            failing,
            seen,
        )?;
    }
    Ok(())
}

// A printer and words, the writes of `err` and of `out` that fail, and what each of the two took.
static BROKEN: [(&[u8], &[&str], &[u64], &[u64], &[u8], &[u8]); 9] = [
    (PLATE, NO_MESH, &[0], &[], b"", b""),
    (PLATE, NO_MESH, &[1], &[], b"words: usa", b""),
    (b"", ARRANGE, &[0], &[], b"", b""),
    (b"", ARRANGE, &[2], &[], b"input: p0.toml: miss", b""),
    // a note, and then a plan
    (PLATE, ARRANGE, &[0], &[], b"", b""),
    (PLATE, ARRANGE, &[1], &[], b"note: a.st", b""),
    (PLATE, ARRANGE, &[], &[0], OPEN, b""),
    (PLATE, ARRANGE, &[], &[1], OPEN, b"seqplan 1\n"),
    (
        PLATE,
        ARRANGE,
        &[],
        &[6],
        OPEN,
        b"seqplan 1\nstate found\ngrid 100\nextent 100\nscale 1\nplace 0 1 ",
    ),
];

#[test]
fn a_sink_that_fails_ends_the_run(rt: HostRuntime) -> Result<(), Fail> {
    for (printer, words, err, out, told, printed) in &BROKEN {
        let failing = Failing {
            reads: &[],
            out,
            err,
        };
        let seen = (8, *printed, *told);
        see_with_failures(&rt, rt.alloc(), printer, &Mesh::Open, words, failing, seen)?;
    }
    Ok(())
}
