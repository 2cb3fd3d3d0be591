use crate::meshes::Mesh;
use crate::runs::{FINE, PLATE, UNEVEN, WITH_PARTS, see};
use std::test::Fail;

const CUBE: &[u8] =
    b"slices 1\nheight 20\nbands 2\nzone 0 1 4\ncorner -1 -1\ncorner 21 -1\ncorner 21 21\ncorner -1 21\n";

// Band 1 holds no vertex.
const TALL: &[u8] =
    b"slices 1\nheight 30\nbands 3\nzone 0 2 4\ncorner -1 -1\ncorner 21 -1\ncorner 21 21\ncorner -1 21\n";

const PYRAMID: &[u8] =
    b"slices 1\nheight 20\nbands 2\nzone 0 0 4\ncorner -1 -1\ncorner 21 -1\ncorner 21 21\ncorner -1 21\nzone 1 1 4\ncorner 4 4\ncorner 16 4\ncorner 16 16\ncorner 4 16\n";

const WEDGE: &[u8] =
    b"slices 1\nheight 20\nbands 2\nzone 0 1 5\ncorner -1 -1\ncorner 21 -1\ncorner 21 1\ncorner 1 21\ncorner -1 21\n";

const FINE_CUBE: &[u8] =
    b"slices 1\nheight 20\nbands 2\nzone 0 1 4\ncorner -2 -2\ncorner 42 -2\ncorner 42 42\ncorner -2 42\n";

const UNEVEN_WEDGE: &[u8] =
    b"slices 1\nheight 20\nbands 3\nzone 0 2 5\ncorner -3 -3\ncorner 43 -3\ncorner 43 3\ncorner 3 43\ncorner -3 43\n";

// Printers and meshes, and the text of their bands.
static SLICED: [(&[u8], Mesh, &[u8]); 12] = [
    (PLATE, Mesh::Block(20), CUBE),
    (PLATE, Mesh::Exported, CUBE),
    // an open mesh is sliced as it is, and not noted
    (PLATE, Mesh::Open, CUBE),
    (PLATE, Mesh::Block(30), TALL),
    (PLATE, Mesh::Pyramid, PYRAMID),
    (PLATE, Mesh::Wedge, WEDGE),
    (WITH_PARTS, Mesh::Block(20), CUBE),
    (WITH_PARTS, Mesh::Block(30), TALL),
    (WITH_PARTS, Mesh::Pyramid, PYRAMID),
    (WITH_PARTS, Mesh::Wedge, WEDGE),
    (FINE, Mesh::Block(20), FINE_CUBE),
    (UNEVEN, Mesh::Wedge, UNEVEN_WEDGE),
];

#[test]
fn outlines_of_bands_are_joined_to_zones(rt: HostRuntime) -> Result<(), Fail> {
    let words = ["slices", "p0.toml", "a.stl"];
    for (printer, mesh, text) in &SLICED {
        see(&rt, rt.alloc(), printer, mesh, &words, (0, text, b""))?;
    }
    Ok(())
}
