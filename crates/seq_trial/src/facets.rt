ghost use Rattle.std.specs.Prelude.{◌≡◌, ◌++◌, OnOk};
ghost use Rattle.seq_trial.specs.Towers.{facet_text, vertex_line, wall_text};

use std::alloc::AllocError;
use text_lines::put_number;

/// A corner of a facet, in mm.
#[derive(Clone, Copy, Debug)]
pub struct Vertex {
    pub x: u32,
    pub y: u32,
    pub z: u32,
}

fn put_vertex(to: &mut Vec<u8>, v: Vertex) -> Result<(), AllocError>
    ensures { OnOk result (to.new.items ≡ to.old.items ++ vertex_line v) }
{
    put_number(to, b"vertex ", i128::from(v.x))?;
    put_number(to, b" ", i128::from(v.y))?;
    put_number(to, b" ", i128::from(v.z))?;
    to.extend_from_slice(b"\n")
}

/// Appends the lines of a facet.
#[tactic(auto, unfolding(crate::specs::Towers::facet_text))]
pub fn put_facet(to: &mut Vec<u8>, a: Vertex, b: Vertex, c: Vertex) -> Result<(), AllocError>
    ensures { OnOk result (to.new.items ≡ to.old.items ++ facet_text a b c) }
{
    to.extend_from_slice(b"facet normal 0 0 0\nouter loop\n")?;
    put_vertex(to, a)?;
    put_vertex(to, b)?;
    put_vertex(to, c)?;
    to.extend_from_slice(b"endloop\nendfacet\n")
}

/// Appends the two facets of a wall between two corners, seen from outside.
#[tactic(auto, unfolding(crate::specs::Towers::wall_text))]
pub fn put_wall(
    to: &mut Vec<u8>,
    a: Vertex,
    b: Vertex,
    above_b: Vertex,
    above_a: Vertex,
) -> Result<(), AllocError>
    ensures { OnOk result (to.new.items ≡ to.old.items ++ wall_text a b above_b above_a) }
{
    put_facet(to, a, b, above_b)?;
    put_facet(to, a, above_b, above_a)
}
