use crate::meshes::Mesh;
use crate::runs::{ARRANGE, PLAN, see};
use std::test::Fail;

const SIZES: &str = "format = 1\ngrain = 1\nplate = [100, 100]\nmargin = 1\ngrid = 100\n";

// Lines beside the sizes, and the line on `err`.
static REFUSED: [(&str, &[u8]); 14] = [
    ("step = 10 mm\n", b"input: p0.toml: not TOML\n"),
    ("", b"input: p0.toml: missing step in top\n"),
    ("step = true\n", b"input: p0.toml: kind of step in top\n"),
    ("step = 0.2\n", b"input: p0.toml: float for step in top\n"),
    (
        "step = \"0,2\"\n",
        b"input: p0.toml: number of step in top\n",
    ),
    ("step = 101\n", b"input: p0.toml: range of step in top\n"),
    (
        "step = 10\nspeed = 60\ncolor = 1\n",
        b"input: p0.toml: unknown key color in top\n",
    ),
    (
        "step = 10\npart = 1\n",
        b"input: p0.toml: kind of part in top\n",
    ),
    (
        "step = 10\n[[part]]\nname = \"a\"\n",
        b"input: p0.toml: missing from in part 0\n",
    ),
    (
        "step = 10\n[[part]]\nname = \"a b\"\nfrom = 0\n",
        b"input: p0.toml: range of name in part 0\n",
    ),
    (
        "step = 10\n[[part]]\nname = \"a\"\nfrom = 5\nto = 4\n",
        b"input: p0.toml: range of to in part 0\n",
    ),
    (
        "step = 10\n[[part]]\nname = \"a\"\nfrom = 0\ncorners = [[0, 0]]\n[[part]]\nname = \"b\"\nfrom = 0\ncorners = [[0, \"0.5\"]]\n",
        b"input: p0.toml: off grain corners in part 1\n",
    ),
    (
        "step = 10\n[[part]]\nname = \"a\"\nfrom = 0\nbar = \"x\"\nlow = 0\nhigh = 1\ncorners = [[0, 0]]\n",
        b"input: p0.toml: unknown key corners in part 0\n",
    ),
    (
        "step = 10\npart = [{}, {}, {}, {}, {}, {}, {}, {}, {}, {}, {}, {}, {}]\n",
        b"input: p0.toml: more than 12 parts\n",
    ),
];

#[test]
fn a_description_is_refused_at_its_first_wrong_key(rt: HostRuntime) -> Result<(), Fail> {
    for (lines, line) in &REFUSED {
        let text = format!(in rt.alloc(); "{SIZES}{lines}")?;
        see(
            &rt,
            rt.alloc(),
            text.as_bytes(),
            &Mesh::Block(20),
            ARRANGE,
            (4, b"", line),
        )?;
    }
    Ok(())
}

// A nozzle and a gantry, and a step that only a string can say.
static ACCEPTED: [&str; 2] = [
    "step = 10\n\n[[part]]\nname = \"nozzle\"\nfrom = 0\ncorners = [[-2, -2], [2, -2], [2, 2], [-2, 2]]\n\n[[part]]\nname = \"gantry\"\nfrom = 20\nbar = \"x\"\nlow = -10\nhigh = 10\n",
    "step = \"0.2\" # mm\n",
];

#[test]
fn one_mesh_is_arranged_whatever_parts_there_are(rt: HostRuntime) -> Result<(), Fail> {
    for lines in &ACCEPTED {
        let text = format!(in rt.alloc(); "{SIZES}{lines}")?;
        see(
            &rt,
            rt.alloc(),
            text.as_bytes(),
            &Mesh::Block(20),
            ARRANGE,
            (0, PLAN, b""),
        )?;
    }
    Ok(())
}
