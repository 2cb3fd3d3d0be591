ghost use Rattle.std.specs.Prelude.{◌≡◌, ℕ, ◌-◌, ◌<◌, ◌≤◌, List, [], ◌∷◌, ◌++◌, length, slice_index, take, drop, MatchOption, Contains};

use crate::answers::{Cycle, Order};
use std::marker::Model;

/// Up to 16 objects, in the order in which they were added.
#[derive(Drop)]
pub struct Row {
    len: usize,
    objects: [u32; 16],
}

impl Model for Row {
    ghost Value = { List ℕ };

    ghost view = { λ r. take r.len r.objects };

    ghost invariant = { λ r. r.len ≤ 16 };
}

impl Row {
    pub fn new() -> Self
        ensures { result ≡ [] }
    {
        Row {
            len: 0,
            objects: [0; 16],
        }
    }

    pub fn push(&mut self, object: u32)
        requires { length self.old < 16 }
        ensures { self.new ≡ self.old ++ object ∷ [] }
    {
        self.objects[self.len] = object;
        self.len += 1;
    }

    /// At which place the row has the object.
    pub fn place_of(&self, object: u32) -> Option<usize>
        ensures { MatchOption result
            (Contains self.now object → ⊥)
            (λ k. (k < length self.now) × (slice_index self.now k ≡ object)) }
    {
        self.objects[..self.len].iter().position(|&o| o == object)
    }

    pub fn into_order(self) -> Order
        ensures { result ≡ self }
    {
        let Row { len, objects } = self;
        Order {
            len: len as u32,
            objects,
        }
    }

    /// The part of the row from a place on.
    pub fn into_cycle(self, place: usize) -> Cycle
        requires { place ≤ length self }
        ensures { result ≡ drop place self }
    {
        let Row { len, mut objects } = self;
        objects.rotate_left(place);
        Cycle {
            len: (len - place) as u32,
            objects,
        }
    }

    /// The last object, and after it the others in turn.
    pub fn into_cycle_from_last(self) -> Cycle
        requires { 0 < length self }
        ensures { let front = length self - 1 in result ≡ drop front self ++ take front self }
    {
        let Row { len, mut objects } = self;
        objects[..len].rotate_right(1);
        Cycle {
            len: len as u32,
            objects,
        }
    }
}
