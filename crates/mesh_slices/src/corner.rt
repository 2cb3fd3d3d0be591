ghost use Rattle.std.specs.Prelude.{◌≤ℤ◌};
ghost use Rattle.mesh_slices.specs.Ranges.{IsRanged};

/// The heights of a band, from low to high, in µm as the mesh has them.
#[derive(Clone, Copy)]
pub struct Slab {
    pub low: i64,
    pub high: i64,
    pub ghost rises: { low ≤ℤ high },
}

/// The corner point x / d, y / d, in µm.
#[derive(Clone, Copy)]
pub struct CornerPoint {
    pub x: i64,
    pub y: i64,
    pub d: i64,
    pub ghost ranged: { IsRanged x y d },
}

// A list that keeps some elements in itself fills its free places with this one.
impl Default for CornerPoint {
    fn default() -> Self {
        CornerPoint { x: 0, y: 0, d: 1 }
    }
}
