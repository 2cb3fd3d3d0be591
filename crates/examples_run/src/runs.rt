use crate::meshes::{Mesh, file_of};
use seq_io::{MemFile, MemShelf, MemSink};
use seq_run::run;
use std::alloc::Global;
use std::process::Abort;
use std::test::Fail;

/// A plate of 100 by 100, bands of 10 mm, and no parts but the tip.
pub(crate) const PLATE: &[u8] =
    b"format = 1\ngrain = 1\nplate = [100, 100]\nstep = 10\nmargin = 1\ngrid = 100\n";

/// The same plate in grains of 0.5 mm; the margin of 1 mm is then two grains.
pub(crate) const FINE: &[u8] =
    b"format = 1\ngrain = \"0.5\"\nplate = [100, 100]\nstep = 10\nmargin = 1\ngrid = 100\n";

/// A plate that is wider than deep, in grains of 0.5 mm, with bands of 7.5 mm and a margin of three grains.
pub(crate) const UNEVEN: &[u8] =
    b"format = 1\ngrain = \"0.5\"\nplate = [100, 60]\nstep = \"7.5\"\nmargin = \"1.5\"\ngrid = 40\n";

/// The plan of a cube of 20 mm on the plate in grains of 1 mm.
pub(crate) const PLAN: &[u8] =
    b"seqplan 1\nstate found\ngrid 100\nextent 100\nscale 1\nplace 0 1 1\n";

/// The plate with a nozzle and a gantry.
pub(crate) const WITH_PARTS: &[u8] =
    b"format = 1\ngrain = 1\nplate = [100, 100]\nstep = 10\nmargin = 1\ngrid = 100\n\n[[part]]\nname = \"nozzle\"\nfrom = 0\ncorners = [[-2, -2], [2, -2], [2, 2], [-2, 2]]\n\n[[part]]\nname = \"gantry\"\nfrom = 20\nbar = \"x\"\nlow = -10\nhigh = 10\n";

pub(crate) const ARRANGE: &[&str] = &["arrange", "p0.toml", "a.stl"];

/// The numbers of the calls that fail: of the shelf, and of the writes of `out` and of `err`.
#[derive(Clone, Copy)]
pub(crate) struct Failing {
    pub(crate) reads: &'static [u64],
    pub(crate) out: &'static [u64],
    pub(crate) err: &'static [u64],
}

const NONE: Failing = Failing {
    reads: &[],
    out: &[],
    err: &[],
};

/// What comes of a run: its status, and what `out` and `err` took.
pub(crate) type Seen<'a> = (u8, &'a [u8], &'a [u8]);

#[derive(Drop)]
pub(crate) struct Outcome {
    pub(crate) status: u8,
    pub(crate) out: MemSink,
    pub(crate) err: MemSink,
}

fn file(alloc: Global, name: &str, bytes: Vec<u8>) -> Result<MemFile, Fail> {
    Ok(MemFile::new(String::from_str(alloc, name)?, bytes))
}

// A printer `p0.toml`, a plan `plan.txt`, a mesh `a.stl`, and a block of 30 mm in `tall.stl`.
fn shelf_of(
    alloc: Global,
    printer: &[u8],
    plan: Vec<u8>,
    mesh: Vec<u8>,
    failing: &[u64],
) -> Result<MemShelf, Fail> {
    let mut files = Vec::new(alloc);
    files.push(file(alloc, "p0.toml", Vec::from_slice(alloc, printer)?)?)?;
    files.push(file(alloc, "plan.txt", plan)?)?;
    files.push(file(alloc, "a.stl", mesh)?)?;
    files.push(file(alloc, "tall.stl", file_of(alloc, &Mesh::Block(30))?)?)?;
    Ok(MemShelf::new(files, 1 << 20, Vec::from_slice(alloc, failing)?))
}

// It takes ten bytes at a call.
fn sink(alloc: Global, failing: &[u64]) -> Result<MemSink, Fail> {
    Ok(MemSink::new(alloc, 1 << 20, 10, Vec::from_slice(alloc, failing)?)?)
}

fn owned(alloc: Global, words: &[&str]) -> Result<Vec<String>, Fail> {
    let mut own_words = Vec::new(alloc);
    for word in words {
        own_words.push(String::from_str(alloc, word)?)?;
    }
    Ok(own_words)
}

// Runs the words over these files in memory.
fn run_in_memory(
    alloc: Global,
    printer: &[u8],
    plan: Vec<u8>,
    mesh: Vec<u8>,
    words: &[&str],
    failing: Failing,
) -> Result<Outcome, Fail> {
    let mut shelf = shelf_of(alloc, printer, plan, mesh, failing.reads)?;
    let mut out = sink(alloc, failing.out)?;
    let mut err = sink(alloc, failing.err)?;
    let status = run(alloc, &owned(alloc, words)?, &mut shelf, &mut out, &mut err);
    Ok(Outcome { status, out, err })
}

/// What comes of the words over a printer and a mesh, where no call fails.
pub(crate) fn outcome_of(
    alloc: Global,
    printer: &[u8],
    mesh: Vec<u8>,
    words: &[&str],
) -> Result<Outcome, Fail> {
    run_in_memory(alloc, printer, Vec::new(alloc), mesh, words, NONE)
}

/// Sees that the words over a printer and a mesh, with calls that fail, come to this.
pub(crate) fn see_with_failures(
    rt: &impl Abort,
    alloc: Global,
    printer: &[u8],
    mesh: &Mesh,
    words: &[&str],
    failing: Failing,
    seen: Seen,
) -> Result<(), Fail> {
    let mesh = file_of(alloc, mesh)?;
    let done = run_in_memory(alloc, printer, Vec::new(alloc), mesh, words, failing)?;
    assert_eq!(rt; (done.status, done.out.taken(), done.err.taken()), seen);
    Ok(())
}

/// The same over a plan and a mesh, where no call fails.
pub(crate) fn see_plan(
    rt: &impl Abort,
    alloc: Global,
    printer: &[u8],
    plan: Vec<u8>,
    mesh: &Mesh,
    words: &[&str],
    seen: Seen,
) -> Result<(), Fail> {
    let mesh = file_of(alloc, mesh)?;
    let done = run_in_memory(alloc, printer, plan, mesh, words, NONE)?;
    assert_eq!(rt; (done.status, done.out.taken(), done.err.taken()), seen);
    Ok(())
}

/// The same where no call fails.
pub(crate) fn see(
    rt: &impl Abort,
    alloc: Global,
    printer: &[u8],
    mesh: &Mesh,
    words: &[&str],
    seen: Seen,
) -> Result<(), Fail> {
    see_with_failures(rt, alloc, printer, mesh, words, NONE, seen)
}
