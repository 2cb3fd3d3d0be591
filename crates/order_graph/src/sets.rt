//! Sets of objects below 16, as numbers.

ghost use Rattle.std.specs.Prelude.{◌≡◌, ◌≢◌, ◌↔◌, ℕ, ◌<◌, ◌≤◌, IsTrue, MatchOption};
ghost use Rattle.order_graph.specs.Sets.{HasMember};

/// A set of objects below 16: bit k is 1 where object k is in it.
pub type Objects = u16;

/// The objects below `n`.
pub fn below(n: u32) -> Objects
    requires some { 1 ≤ n }
    requires few { n ≤ 16 }
    ensures { (k : ℕ) → HasMember result k ↔ (k < n) }
{
    u16::MAX >> (16 - n)
}

pub fn with(set: Objects, k: u32) -> Objects
    requires { k < 16 }
    ensures same { HasMember result k }
    ensures others { (a : ℕ) → a ≢ k → HasMember result a ↔ HasMember set a }
    ensures more { (HasMember set k → ⊥) → set < result }
{
    set | (1 << k)
}

pub fn without(set: Objects, k: u32) -> Objects
    requires { k < 16 }
    ensures same { HasMember result k → ⊥ }
    ensures others { (a : ℕ) → a ≢ k → HasMember result a ↔ HasMember set a }
    ensures fewer { HasMember set k → result < set }
{
    set & !(1 << k)
}

/// What is in both sets.
pub fn shared(set: Objects, other: Objects) -> Objects
    ensures { (k : ℕ) → HasMember result k ↔ (HasMember set k × HasMember other k) }
{
    set & other
}

/// What is in the first set and not in the second.
pub fn apart(set: Objects, other: Objects) -> Objects
    ensures { (k : ℕ) → HasMember result k ↔ (HasMember set k × (HasMember other k → ⊥)) }
{
    set & !other
}

/// An object of the set, if it has one.
pub fn any_of(set: Objects) -> Option<u32>
    ensures { MatchOption result ((k : ℕ) → HasMember set k → ⊥) (λ k. (k < 16) × HasMember set k) }
{
    if set == 0 {
        return None;
    }
    Some(set.trailing_zeros())
}
