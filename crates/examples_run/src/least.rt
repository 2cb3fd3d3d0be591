use crate::meshes::{Mesh, file_of};
use crate::runs::{WITH_PARTS, outcome_of, see, see_plan};
use crate::several::{NONE, SMALL};
use std::alloc::Global;
use std::process::Abort;
use std::test::Fail;

// One cube spans 22 grains with its margin; the corner of extent 22 is 39.
#[test]
fn one_cube_needs_22(rt: HostRuntime) -> Result<(), Fail> {
    let words = ["arrange", "--least", "p0.toml", "a.stl"];
    let text =
        b"seqplan 1\nstate least\ngrid 100\nextent 22\nscale 1\nplace 0 40 40\ncertificate 1\nexcludes 21\nbound 0:1\n";
    let seen = (0, text.as_slice(), b"".as_slice());
    see(&rt, rt.alloc(), WITH_PARTS, &Mesh::Block(20), &words, seen)
}

const TWO: &[&str] = &["arrange", "--least", "p0.toml", "a.stl", "a.stl"];

const CHECK_TWO: &[&str] = &["check", "p0.toml", "plan.txt", "a.stl", "a.stl"];

const WITH_TALL: &[&str] = &["arrange", "--least", "p0.toml", "a.stl", "tall.stl"];

const CHECK_TALL: &[&str] = &["check", "p0.toml", "plan.txt", "a.stl", "tall.stl"];

const THREE: &[&str] = &["arrange", "--least", "p0.toml", "a.stl", "a.stl", "a.stl"];

const CHECK_THREE: &[&str] = &["check", "p0.toml", "plan.txt", "a.stl", "a.stl", "a.stl"];

const WHOLE: &[&str] = &["arrange", "p0.toml", "a.stl", "a.stl"];

// A printer, a mesh and words, the status and how the text begins; and words that check that text, with what they answer.
static CLAIMED: [(&[u8], Mesh, &[&str], u8, &[u8], &[&str], &[u8]); 7] = [
    (
        WITH_PARTS,
        Mesh::Block(20),
        TWO,
        0,
        b"seqplan 1\nstate least\ngrid 100\nextent 46\n",
        CHECK_TWO,
        b"check passes 45\n",
    ),
    // the cube is printed first: behind the tall block the bar would need 54
    (
        WITH_PARTS,
        Mesh::Block(20),
        WITH_TALL,
        0,
        b"seqplan 1\nstate least\ngrid 100\nextent 46\n",
        CHECK_TALL,
        b"check passes 45\n",
    ),
    // two wedges face each other: 14 and 22 are enough, where boxes would need 46
    (
        WITH_PARTS,
        Mesh::Wedge,
        TWO,
        0,
        b"seqplan 1\nstate least\ngrid 100\nextent 36\n",
        CHECK_TWO,
        b"check passes 35\n",
    ),
    // the bar needs 32 in y
    (
        WITH_PARTS,
        Mesh::Block(30),
        TWO,
        0,
        b"seqplan 1\nstate least\ngrid 100\nextent 54\n",
        CHECK_TWO,
        b"check passes 53\n",
    ),
    (
        WITH_PARTS,
        Mesh::Block(20),
        THREE,
        0,
        b"seqplan 1\nstate least\ngrid 100\nextent 46\n",
        CHECK_THREE,
        b"check passes 45\n",
    ),
    (
        SMALL,
        Mesh::Block(20),
        TWO,
        1,
        NONE,
        CHECK_TWO,
        b"check passes 100\n",
    ),
    (
        SMALL,
        Mesh::Block(20),
        WHOLE,
        1,
        NONE,
        CHECK_TWO,
        b"check passes 100\n",
    ),
];

// Sees how the text of the words begins, and gives it.
fn text_of(
    rt: &impl Abort,
    alloc: Global,
    printer: &[u8],
    mesh: &Mesh,
    words: &[&str],
    begin: (u8, &[u8]),
) -> Result<Vec<u8>, Fail> {
    let done = outcome_of(alloc, printer, file_of(alloc, mesh)?, words)?;
    assert_eq!(rt;
        (done.status, done.out.taken().starts_with(begin.1)),
        (begin.0, true)
    );
    Ok(Vec::from_slice(alloc, done.out.taken())?)
}

#[test]
fn what_is_claimed_passes(rt: HostRuntime) -> Result<(), Fail> {
    for (printer, mesh, words, status, begin, check, line) in &CLAIMED {
        let plan = text_of(&rt, rt.alloc(), printer, mesh, words, (*status, *begin))?;
        let seen = (0, *line, b"".as_slice());
        see_plan(&rt, rt.alloc(), printer, plan, mesh, check, seen)?;
    }
    Ok(())
}
