use crate::meshes::Mesh;
use crate::runs::{WITH_PARTS, see_plan};
use std::test::Fail;

const ONE: &[&str] = &["check", "p0.toml", "plan.txt", "a.stl"];

const TWO: &[&str] = &["check", "p0.toml", "plan.txt", "a.stl", "a.stl"];

// The mesh isn't there.
const NO_MESH: &[&str] = &["check", "p0.toml", "plan.txt", "b.stl"];

// A plate of 10 m, of which the least of 100 extents has 100 grains each way.
const WIDE_PLATE: &[u8] =
    b"format = 1\ngrain = 1\nplate = [10000, 10000]\nstep = 10\nmargin = 1\ngrid = 100\n";

// A printer, a plan and words, and the status, the text and the line on `err`. The mesh is a cube of 20 mm.
static CHECKED: [(&[u8], &[u8], &[&str], u8, &[u8], &[u8]); 14] = [
    // two cubes need 24 in x or in y, and 24 + 22 is 46
    (
        WITH_PARTS,
        b"seqplan 1\nstate least\ngrid 100\nextent 46\nscale 1\nplace 0 28 28\nplace 1 52 28\ncertificate 1\nexcludes 45\norder 0 1\nside 0 0 1 0 1 4\nbound 2:1 4:1\nbound 3:1 4:1\nbound 0:1 4:1\nbound 1:1 4:1\nside 1 0 1 0 0 4\nbound 0:1 4:1\nbound 1:1 4:1\nbound 2:1 4:1\nbound 3:1 4:1\n",
        TWO,
        0,
        b"check passes 45\n",
        b"",
    ),
    // the first bound without the row of its side
    (
        WITH_PARTS,
        b"seqplan 1\nstate least\ngrid 100\nextent 46\nscale 1\nplace 0 28 28\nplace 1 52 28\ncertificate 1\nexcludes 45\norder 0 1\nside 0 0 1 0 1 4\nbound 2:0 4:1\nbound 3:1 4:1\nbound 0:1 4:1\nbound 1:1 4:1\nside 1 0 1 0 0 4\nbound 0:1 4:1\nbound 1:1 4:1\nbound 2:1 4:1\nbound 3:1 4:1\n",
        TWO,
        7,
        b"check fails node 2 sum\n",
        b"",
    ),
    // a certificate for one extent less
    (
        WITH_PARTS,
        b"seqplan 1\nstate least\ngrid 100\nextent 46\nscale 1\nplace 0 28 28\nplace 1 52 28\ncertificate 1\nexcludes 44\norder 0 1\nside 0 0 1 0 1 4\nbound 2:1 4:1\nbound 3:1 4:1\nbound 0:1 4:1\nbound 1:1 4:1\nside 1 0 1 0 0 4\nbound 0:1 4:1\nbound 1:1 4:1\nbound 2:1 4:1\nbound 3:1 4:1\n",
        TWO,
        7,
        b"check fails excludes\n",
        b"",
    ),
    // half a grain too near, and a grid of another printer
    (
        WITH_PARTS,
        b"seqplan 1\nstate least\ngrid 100\nextent 46\nscale 2\nplace 0 56 56\nplace 1 103 56\ncertificate 1\nexcludes 45\npending\n",
        TWO,
        7,
        b"check fails plan\n",
        b"",
    ),
    (
        WITH_PARTS,
        b"seqplan 1\nstate least\ngrid 99\nextent 46\nscale 2\nplace 0 56 56\nplace 1 103 56\ncertificate 1\nexcludes 45\npending\n",
        TWO,
        7,
        b"check fails grid\n",
        b"",
    ),
    // what is only found, or left undecided, claims nothing: a block isn't read
    (
        WITH_PARTS,
        b"seqplan 1\nstate found\ngrid 100\nextent 100\nscale 1\nplace 0 1 1\n",
        ONE,
        7,
        b"check fails state\n",
        b"",
    ),
    (
        WITH_PARTS,
        b"seqplan 1\nstate undecided budget\ngrid 7\n\xff no block",
        ONE,
        7,
        b"check fails state\n",
        b"",
    ),
    // the whole plate has room for a cube
    (
        WITH_PARTS,
        b"seqplan 1\nstate none\ngrid 100\ncertificate 1\nexcludes 100\nbound 0:1\n",
        ONE,
        7,
        b"check fails node 0 constant\n",
        b"",
    ),
    // nothing is excluded below extent 1
    (
        WIDE_PLATE,
        b"seqplan 1\nstate least\ngrid 100\nextent 1\nscale 1\nplace 0 4951 4951\n",
        ONE,
        0,
        b"check passes 0\n",
        b"",
    ),
    // a block that can't be read is refused before a mesh is started
    (
        WITH_PARTS,
        b"seqplan 1\nstate none\ngrid 100\ncertificate 1\nexcludes 100\norder 0 1\n",
        NO_MESH,
        4,
        b"",
        b"input: plan.txt: tree ends early\n",
    ),
    (
        WITH_PARTS,
        b"seqplan 1\nstate none\ngrid 100\nopentree 1\ntried 100\npending\n",
        NO_MESH,
        4,
        b"",
        b"input: plan.txt: tree line 1: header\n",
    ),
    (
        WITH_PARTS,
        b"seqplan 1\nstate none\ngrid 100\ncertificate 1\nexcludes 100\nbound 0:4611686018427387904\n",
        NO_MESH,
        4,
        b"",
        b"input: plan.txt: tree line 3: big\n",
    ),
    (
        WITH_PARTS,
        b"seqplan 1\nstate none\ngrid 100\ncertificate 1\nexcludes 100\nbound 0:1\npending\n",
        NO_MESH,
        4,
        b"",
        b"input: plan.txt: tree line 4: after the end\n",
    ),
    // one that can be is read, and then the mesh is missed
    (
        WITH_PARTS,
        b"seqplan 1\nstate none\ngrid 100\ncertificate 1\nexcludes 100\nbound 0:1\n",
        NO_MESH,
        3,
        b"",
        b"read: b.stl\n",
    ),
];

#[test]
fn a_claim_passes_or_its_first_fault_is_told(rt: HostRuntime) -> Result<(), Fail> {
    for (printer, plan, words, status, text, line) in &CHECKED {
        let plan = Vec::from_slice(rt.alloc(), plan)?;
        let seen = (*status, *text, *line);
        see_plan(
            &rt,
            rt.alloc(),
            printer,
            plan,
            &Mesh::Block(20),
            words,
            seen,
        )?;
    }
    Ok(())
}
