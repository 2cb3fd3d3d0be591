//! The facets that were found so far.

ghost use Rattle.std.specs.Prelude.{◌≡◌, ◌≤◌, ◌<◌, ◌+◌, ◌↔◌, length, IfOk, IsTrue, [], ◌∷◌, ◌++◌};
ghost use Rattle.stl_text.specs.Meshes.{HasThreeCorners, WithFacet, nothing, count};

use owned_lists::Items;
use seq_limits::MOST_FACETS;
use seq_model::Facet;
use std::alloc::{AllocError, Global};

/// The facets that are kept, and how many are dropped.
#[derive(Drop)]
pub struct Found {
    pub facets: Items<Facet>,
    pub dropped: u32,
}

fn has_three_corners(f: &Facet) -> bool
    ensures { IsTrue result ↔ HasThreeCorners f.now }
{
    if f.a == f.b {
        return false;
    }
    if f.b == f.c {
        return false;
    }
    if f.c == f.a {
        return false;
    }
    true
}

impl Found {
    pub fn nothing(alloc: Global) -> Found
        ensures { result ≡ nothing }
    {
        Found {
            facets: Items::new(alloc),
            dropped: 0,
        }
    }

    /// How many were found, dropped ones too.
    pub fn count(&self) -> usize
        requires { count self.now ≤ MOST_FACETS }
        ensures { result ≡ count self.now }
    {
        self.facets.len() + self.dropped as usize
    }

    /// Keeps the facet if no two of its corners are equal, and drops it otherwise.
    pub fn add(&mut self, facet: Facet) -> Result<(), AllocError>
        requires { count self.old < MOST_FACETS }
        ensures { IfOk result (λ _. WithFacet facet self.old self.new) }
    {
        if has_three_corners(&facet) {
            self.facets.push(facet)?;
        } else {
            self.dropped += 1;
        }
        Ok(())
    }
}
