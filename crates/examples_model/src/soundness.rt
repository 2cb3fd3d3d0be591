//! What no job holds.

ghost use Rattle.std.specs.Prelude.{◌≡◌, ◌+◌, [], ◌∷◌, pos};
ghost use Rattle.seq_model.specs.Contacts.{IsContact};
ghost use Rattle.seq_model.specs.Parts.{AreParts};
ghost use Rattle.seq_model.specs.Soundness.{IsSoundZone};
ghost use Rattle.examples_model.specs.Cubes.{spot};
ghost use Rattle.examples_model.specs.Jobs.{two_cubes, nozzle_part};

use seq_limits::{MOST_LISTED_PARTS, MOST_PARTS};

/// The tip is a part more than a description may list.
pub fn the_tip_is_one_part_more()
    ensures { MOST_PARTS ≡ MOST_LISTED_PARTS + 1 }
{}

/// The parts of a printer begin with the tip.
pub fn parts_without_the_tip()
    ensures { AreParts (nozzle_part ∷ []) → ⊥ }
{}

/// A zone's outline has area: two corners are too few.
pub fn a_zone_without_area()
    ensures { IsSoundZone (record {
      corners = spot (pos 0) (pos 0) ∷ spot (pos 2) (pos 0) ∷ [];
      first = 0;
      last = 0;
    })
        → ⊥ }
{}

/// An object has no contact with itself.
pub fn a_contact_of_one_object()
    ensures { IsContact two_cubes (record { i = 0; zi = 0; part = 1; zj = 0; j = 0 }) → ⊥ }
{}
