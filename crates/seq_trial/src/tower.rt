ghost use Rattle.std.specs.Prelude.{◌≡◌, ◌+◌, ◌*◌, ◌++◌, ◌≤◌, ◌<◌, ◌^◌, IsTrue, OnOk};
ghost use Rattle.seq_trial.specs.Draws.{later};
ghost use Rattle.seq_trial.specs.Towers.{first, second, third, fourth, fits, narrowed, floor_text, roof_text, walls_text, layer_text, higher_text, tower_at, tower_text};

use crate::draws::Draws;
use crate::facets::{Vertex, put_facet, put_wall};
use std::alloc::AllocError;

/// How wide and how deep the lowest layer of a tower is, in mm.
#[derive(Clone, Copy, Debug)]
pub struct Size {
    pub width: u32,
    pub depth: u32,
}

/// A tower: how many layers stand on the lowest one, and its size.
#[derive(Clone, Copy, Debug)]
pub struct Tower {
    pub higher: u32,
    pub size: Size,
}

fn fits(size: Size, x: u32) -> bool
    requires { x < 2 ^ 16 }
    ensures { result ≡ fits size x }
{
    2 * x + 4 <= size.width && 2 * x + 4 <= size.depth
}

// How far the next layer is drawn in, after one that is by x.
fn narrowed(size: Size, x: u32, more: u32) -> u32
    requires size { (size.width ≤ 24) × (size.depth ≤ 24) }
    requires x { IsTrue (fits size x) }
    requires more { more < 2 }
    ensures value { result ≡ narrowed size x more }
    ensures fits { IsTrue (fits size result) }
{
    if fits(size, x + more) { x + more } else { x }
}

// The corners of a layer at a height, counterclockwise.
#[derive(Clone, Copy)]
struct Ring {
    first: Vertex,
    second: Vertex,
    third: Vertex,
    fourth: Vertex,
}

fn ring_at(size: Size, x: u32, z: u32) -> Ring
    requires { IsTrue (fits size x) }
    ensures first { result.first ≡ first size x z }
    ensures second { result.second ≡ second size x z }
    ensures third { result.third ≡ third size x z }
    ensures fourth { result.fourth ≡ fourth size x z }
{
    let (east, north) = (size.width - x, size.depth - x);
    Ring {
        first: Vertex { x, y: x, z },
        second: Vertex { x: east, y: x, z },
        third: Vertex {
            x: east,
            y: north,
            z,
        },
        fourth: Vertex { x, y: north, z },
    }
}

#[tactic(auto, unfolding(crate::specs::Towers::floor_text))]
fn put_floor(to: &mut Vec<u8>, size: Size, x: u32, z: u32) -> Result<(), AllocError>
    requires { IsTrue (fits size x) }
    ensures { OnOk result (to.new.items ≡ to.old.items ++ floor_text size x z) }
{
    let at = ring_at(size, x, z);
    put_facet(to, at.first, at.third, at.second)?;
    put_facet(to, at.first, at.fourth, at.third)
}

#[tactic(auto, unfolding(crate::specs::Towers::roof_text))]
fn put_roof(to: &mut Vec<u8>, size: Size, x: u32, z: u32) -> Result<(), AllocError>
    requires { IsTrue (fits size x) }
    ensures { OnOk result (to.new.items ≡ to.old.items ++ roof_text size x z) }
{
    let at = ring_at(size, x, z);
    put_facet(to, at.first, at.second, at.third)?;
    put_facet(to, at.first, at.third, at.fourth)
}

#[tactic(auto, unfolding(crate::specs::Towers::walls_text))]
fn put_walls(to: &mut Vec<u8>, size: Size, x: u32, low: u32, high: u32) -> Result<(), AllocError>
    requires { IsTrue (fits size x) }
    ensures { OnOk result (to.new.items ≡ to.old.items ++ walls_text size x low high) }
{
    let (at, above) = (ring_at(size, x, low), ring_at(size, x, high));
    put_wall(to, at.first, at.second, above.second, above.first)?;
    put_wall(to, at.second, at.third, above.third, above.second)?;
    put_wall(to, at.third, at.fourth, above.fourth, above.third)?;
    put_wall(to, at.fourth, at.first, above.first, above.fourth)
}

// Appends the twelve facets of a layer.
#[tactic(auto, unfolding(crate::specs::Towers::layer_text))]
fn put_layer(to: &mut Vec<u8>, size: Size, low: u32, x: u32) -> Result<(), AllocError>
    requires low { low < 2 ^ 16 }
    requires x { IsTrue (fits size x) }
    ensures { OnOk result (to.new.items ≡ to.old.items ++ layer_text size low x) }
{
    put_floor(to, size, x, low)?;
    put_roof(to, size, x, low + 5)?;
    put_walls(to, size, x, low, low + 5)
}

// Appends the layers that stand on the lowest one, each drawn in by what is drawn.
fn put_higher(
    to: &mut Vec<u8>,
    higher: u32,
    size: Size,
    draws: &mut Draws,
) -> Result<(), AllocError>
    requires higher { higher < 20 }
    requires size { (size.width ≤ 24) × (size.depth ≤ 24) }
    requires wide { IsTrue (fits size 0) }
    requires state { draws.old.state < 2 ^ 32 }
    ensures text { OnOk result (to.new.items ≡ to.old.items ++ higher_text higher size 5 0 draws.old.state) }
    ensures state { OnOk result (draws.new.state ≡ later higher draws.old.state) }
    ensures small { draws.new.state < 2 ^ 32 }
{
    let mut x = 0;
    for k in 0..higher {
        x = narrowed(size, x, draws.below(2) as u32);
        put_layer(to, size, 5 * (k + 1), x)?;
    }
    Ok(())
}

/// A tower whose layers and size are drawn.
pub fn draw_tower(draws: &mut Draws) -> Tower
    requires state { draws.old.state < 2 ^ 32 }
    ensures tower { result ≡ tower_at draws.old.state }
    ensures higher { result.higher < 20 }
    ensures size { (result.size.width ≤ 24) × (result.size.depth ≤ 24) }
    ensures wide { IsTrue (fits result.size 0) }
    ensures state { draws.new.state ≡ later 3 draws.old.state }
    ensures small { draws.new.state < 2 ^ 31 }
{
    let higher = draws.below(20) as u32;
    let width = 12 + draws.below(13) as u32;
    let depth = 12 + draws.below(13) as u32;
    Tower {
        higher,
        size: Size { width, depth },
    }
}

/// Appends the facets of a tower, with a draw for each layer but the lowest.
#[tactic(auto, unfolding(crate::specs::Towers::tower_text))]
pub fn put_tower(to: &mut Vec<u8>, tower: Tower, draws: &mut Draws) -> Result<(), AllocError>
    requires higher { tower.higher < 20 }
    requires size { (tower.size.width ≤ 24) × (tower.size.depth ≤ 24) }
    requires wide { IsTrue (fits tower.size 0) }
    requires state { draws.old.state < 2 ^ 32 }
    ensures text { OnOk result (to.new.items ≡ to.old.items ++ tower_text tower draws.old.state) }
    ensures state { OnOk result (draws.new.state ≡ later tower.higher draws.old.state) }
    ensures small { draws.new.state < 2 ^ 32 }
{
    put_layer(to, tower.size, 0, 0)?;
    put_higher(to, tower.higher, tower.size, draws)
}
