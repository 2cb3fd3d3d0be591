ghost use Rattle.std.specs.Prelude.{◌≡◌};

use std::alloc::AllocError;

/// Why a mesh isn't sliced.
#[derive(Clone, Copy, Debug, PartialEq, Eq)]
pub enum Slice {
    /// It has no facet.
    Flat,
    /// It would have more than 200 bands: their number.
    TooTall(u64),
    /// It could be sliced, but memory ran out.
    NoMemory,
}

impl From<AllocError> for Slice {
    ghost use Rattle.mesh_slices.specs.declared.slice.Slice.TheVariants.{NoMemory};

    ghost from_gives = { λ _ e. e ≡ NoMemory };

    fn from(_: AllocError) -> Self {
        Slice::NoMemory
    }
}

impl From<seq_num::NoMemory> for Slice {
    ghost use Rattle.mesh_slices.specs.declared.slice.Slice.TheVariants.{NoMemory};

    ghost from_gives = { λ _ e. e ≡ NoMemory };

    fn from(_: seq_num::NoMemory) -> Self {
        Slice::NoMemory
    }
}
