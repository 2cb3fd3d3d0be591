use crate::meshes::{Mesh, file_of};
use crate::runs::{WITH_PARTS, outcome_of, see_plan};
use std::alloc::Global;
use std::process::Abort;
use std::test::Fail;

// The plate of 40 by 40 with the nozzle and the gantry.
pub(crate) const SMALL: &[u8] =
    b"format = 1\ngrain = 1\nplate = [40, 40]\nstep = 10\nmargin = 1\ngrid = 100\n\n[[part]]\nname = \"nozzle\"\nfrom = 0\ncorners = [[-2, -2], [2, -2], [2, 2], [-2, 2]]\n\n[[part]]\nname = \"gantry\"\nfrom = 20\nbar = \"x\"\nlow = -10\nhigh = 10\n";

const TWO: &[&str] = &["arrange", "p0.toml", "a.stl", "a.stl"];

const TWO_BY_ONE: &[&str] = &["arrange", "--budget", "1", "p0.toml", "a.stl", "a.stl"];

const THREE: &[&str] = &[
    "arrange",
    "--budget=200",
    "p0.toml",
    "a.stl",
    "a.stl",
    "a.stl",
];

const FOUND: &[u8] = b"seqplan 1\nstate found\ngrid 100\nextent 100\nscale ";

pub(crate) const NONE: &[u8] = b"seqplan 1\nstate none\ngrid 100\ncertificate 1\nexcludes 100\n";

// Both cubes stand in one place at the root, and collide both ways.
const SPENT: &[u8] =
    b"seqplan 1\nstate undecided budget\ngrid 100\nopentree 1\ntried 100\npending\n";

// Printers and words, the status, and how the text begins.
static DECIDED: [(&[u8], &[&str], u8, &[u8]); 4] = [
    (WITH_PARTS, TWO, 0, FOUND),
    (SMALL, TWO, 1, NONE),
    (WITH_PARTS, TWO_BY_ONE, 6, SPENT),
    (WITH_PARTS, THREE, 0, FOUND),
];

fn see_begin(
    rt: &impl Abort,
    alloc: Global,
    printer: &[u8],
    words: &[&str],
    status: u8,
    begin: &[u8],
) -> Result<(), Fail> {
    let mesh = file_of(alloc, &Mesh::Block(20))?;
    let done = outcome_of(alloc, printer, mesh, words)?;
    assert_eq!(rt;
        (done.status, done.out.taken().starts_with(begin)),
        (status, true)
    );
    Ok(())
}

#[test]
fn several_meshes_are_decided(rt: HostRuntime) -> Result<(), Fail> {
    for (printer, words, status, begin) in &DECIDED {
        see_begin(&rt, rt.alloc(), printer, words, *status, begin)?;
    }
    Ok(())
}

#[test]
fn a_plan_that_is_found_is_good(rt: HostRuntime) -> Result<(), Fail> {
    let mesh = file_of(rt.alloc(), &Mesh::Block(20))?;
    let done = outcome_of(rt.alloc(), WITH_PARTS, mesh, TWO)?;
    let plan = Vec::from_slice(rt.alloc(), done.out.taken())?;
    let words = ["audit", "p0.toml", "plan.txt", "a.stl", "a.stl"];
    let seen = (0, b"audit good\n".as_slice(), b"".as_slice());
    see_plan(
        &rt,
        rt.alloc(),
        WITH_PARTS,
        plan,
        &Mesh::Block(20),
        &words,
        seen,
    )
}
