ghost use Rattle.std.specs.Prelude.{◌≡◌};
ghost use Rattle.refinement_loop.specs.WideNodes.{first_wide};

use owned_lists::Items;

/// A node whose walk is wide: its number as made, the basis, and the variable at which that is wide.
#[derive(Debug, Drop)]
pub struct WideNode {
    pub number: u32,
    pub basis: Items<u32>,
    pub row: u32,
}

/// The one that is held, or this one where none is.
pub fn first_of(held: Option<WideNode>, node: WideNode) -> Option<WideNode>
    ensures { result ≡ first_wide held node }
{
    match held {
        Some(held) => Some(held),
        None => Some(node),
    }
}
