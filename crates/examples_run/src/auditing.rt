use crate::meshes::Mesh;
use crate::runs::{PLATE, UNEVEN, WITH_PARTS, see_plan};
use std::test::Fail;

const TWO: &[&str] = &["audit", "p0.toml", "plan.txt", "a.stl", "a.stl"];

const ONE: &[&str] = &["audit", "p0.toml", "plan.txt", "a.stl"];

const SIXTEEN: &[&str] = &[
    "audit", "p0.toml", "plan.txt", "a.stl", "a.stl", "a.stl", "a.stl", "a.stl", "a.stl", "a.stl",
    "a.stl", "a.stl", "a.stl", "a.stl", "a.stl", "a.stl", "a.stl", "a.stl", "a.stl",
];

// A printer, a plan, a mesh and words, and the status, the text and the line on `err`.
static AUDITED: [(&[u8], &[u8], Mesh, &[&str], u8, &[u8], &[u8]); 18] = [
    // two cubes touch: each is 22 wide with its margin, and the nozzle reaches 2 further
    (
        WITH_PARTS,
        b"seqplan 1\nstate found\ngrid 100\nextent 100\nscale 1\nplace 0 1 1\nplace 1 25 1\n",
        Mesh::Block(20),
        TWO,
        0,
        b"audit good\n",
        b"",
    ),
    // half a grain less
    (
        WITH_PARTS,
        b"seqplan 1\nstate found\ngrid 100\nextent 100\nscale 2\nplace 0 2 2\nplace 1 49 2\n",
        Mesh::Block(20),
        TWO,
        7,
        b"audit collides 0 1 bands 0 0 part 1 nozzle\n",
        b"",
    ),
    // the tip alone needs no more than the outlines
    (
        PLATE,
        b"seqplan 1\nstate found\ngrid 100\nextent 100\nscale 2\nplace 0 2 2\nplace 1 49 2\n",
        Mesh::Block(20),
        TWO,
        0,
        b"audit good\n",
        b"",
    ),
    (
        PLATE,
        b"seqplan 1\nstate found\ngrid 100\nextent 100\nscale 1\nplace 1 1 1\nplace 0 22 22\n",
        Mesh::Block(20),
        TWO,
        7,
        b"audit collides 1 0 bands 0 0 part 0 tip\n",
        b"",
    ),
    (
        WITH_PARTS,
        b"seqplan 1\nstate found\ngrid 100\nextent 100\nscale 1\nplace 0 1 1\n",
        Mesh::Block(20),
        TWO,
        7,
        b"audit absent 1\n",
        b"",
    ),
    (
        WITH_PARTS,
        b"seqplan 1\nstate found\ngrid 100\nextent 100\nscale 1\nplace 0 0 1\nplace 1 40 1\n",
        Mesh::Block(20),
        TWO,
        7,
        b"audit offplate 0 0\n",
        b"",
    ),
    (
        WITH_PARTS,
        b"seqplan 1\nstate found\ngrid 100\nextent 100\nscale 1\nplace 0 1 1\nplace 0 25 1\n",
        Mesh::Block(20),
        TWO,
        7,
        b"audit stray 1\n",
        b"",
    ),
    // the gantry begins two bands above the tip
    (
        WITH_PARTS,
        b"seqplan 1\nstate found\ngrid 100\nextent 100\nscale 1\nplace 0 1 1\nplace 1 25 1\n",
        Mesh::Block(30),
        TWO,
        7,
        b"audit collides 0 1 bands 2 0 part 2 gantry\n",
        b"",
    ),
    (
        PLATE,
        b"seqplan 1\nstate found\ngrid 100\nextent 100\nscale 1\nplace 1 40 1\nplace 0 0 1\n",
        Mesh::Block(20),
        TWO,
        7,
        b"audit offplate 1 0\n",
        b"",
    ),
    // four rows of four cubes
    (
        PLATE,
        b"seqplan 1\nstate found\ngrid 100\nextent 100\nscale 1\nplace 15 1 1\nplace 14 25 1\nplace 13 49 1\nplace 12 73 1\nplace 11 1 25\nplace 10 25 25\nplace 9 49 25\nplace 8 73 25\nplace 7 1 49\nplace 6 25 49\nplace 5 49 49\nplace 4 73 49\nplace 3 1 73\nplace 2 25 73\nplace 1 49 73\nplace 0 73 73\n",
        Mesh::Block(20),
        SIXTEEN,
        0,
        b"audit good\n",
        b"",
    ),
    // a plan of another grid, which is audited on the whole plate; the block that is due behind it stays unread
    (
        WITH_PARTS,
        b"seqplan 1\nstate least\ngrid 7\nextent 3\nscale 1\nplace 0 1 1\nplace 1 25 1\n\xff no block",
        Mesh::Block(20),
        TWO,
        0,
        b"audit good\n",
        b"",
    ),
    // thirds of a grain
    (
        UNEVEN,
        b"seqplan 1\nstate open budget\ngrid 40\nextent 40\nscale 3\nplace 0 9 10\n",
        Mesh::Wedge,
        ONE,
        0,
        b"audit good\n",
        b"",
    ),
    // an open mesh isn't noted
    (
        PLATE,
        b"seqplan 1\nstate none\ngrid 100\n",
        Mesh::Open,
        ONE,
        7,
        b"audit absent 0\n",
        b"",
    ),
    (
        PLATE,
        b"seqplan 1\nstate found\ngrid 100\nextent 100\nscale 1\nplace 0 1 1",
        Mesh::Block(20),
        ONE,
        4,
        b"",
        b"input: plan.txt: plan ends early\n",
    ),
    (
        PLATE,
        b"seqplan 1\n",
        Mesh::Block(20),
        ONE,
        4,
        b"",
        b"input: plan.txt: plan ends early\n",
    ),
    (
        PLATE,
        b"seqplan 1\nstate found\ngrid 100\nextent 101\n",
        Mesh::Binary,
        ONE,
        4,
        b"",
        b"input: plan.txt: plan line 4: extent\n",
    ),
    (
        PLATE,
        b"seqplan 1\nstate found\ngrid 100\nextent 100\nscale 1\nplace 0 1 1\ncertificate 1\n",
        Mesh::Block(20),
        ONE,
        4,
        b"",
        b"input: plan.txt: bytes after the plan\n",
    ),
    (
        PLATE,
        b"seqplan 1\nstate found\ngrid 100\nextent 100\nscale 1\nplace 0 1 1\n",
        Mesh::Binary,
        ONE,
        4,
        b"",
        b"input: a.stl: binary STL\n",
    ),
];

#[test]
fn a_plan_is_good_or_its_first_fault_is_told(rt: HostRuntime) -> Result<(), Fail> {
    for (printer, plan, mesh, words, status, text, line) in &AUDITED {
        let plan = Vec::from_slice(rt.alloc(), plan)?;
        let seen = (*status, *text, *line);
        see_plan(&rt, rt.alloc(), printer, plan, mesh, words, seen)?;
    }
    Ok(())
}
