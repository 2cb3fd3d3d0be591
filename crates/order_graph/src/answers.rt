ghost use Rattle.std.specs.Prelude.{◌≡◌, ℕ, ◌≤◌, List, take, reverse};

use std::marker::Model;

/// The objects of a cycle, each once: each is ordered before the next one, and the last before the first.
///
/// In the answer of `add` the first is before the second by the order that was refused, and each other one by an order
/// that is held. The objects are the first `len` of `objects`; what stands there from `len` on means nothing.
#[derive(Debug, Drop)]
pub struct Cycle {
    pub len: u32,
    pub objects: [u32; 16],
}

impl Model for Cycle {
    ghost Value = { List ℕ };

    ghost view = { λ c. take c.len c.objects };

    ghost invariant = { λ c. c.len ≤ 16 };
}

impl Cycle {
    /// The same objects, last first.
    pub(crate) fn reversed(self) -> Cycle
        ensures { result ≡ reverse self }
    {
        let Cycle { len, mut objects } = self;
        objects[..len as usize].reverse();
        Cycle { len, objects }
    }
}

/// All objects of a graph, first the one that comes first.
///
/// They are the first `len` of `objects`; what stands there from `len` on means nothing.
#[derive(Debug, Drop)]
pub struct Order {
    pub len: u32,
    pub objects: [u32; 16],
}

impl Model for Order {
    ghost Value = { List ℕ };

    ghost view = { λ o. take o.len o.objects };

    ghost invariant = { λ o. o.len ≤ 16 };
}
