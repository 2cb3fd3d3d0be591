//! The sides of contacts.

ghost use Rattle.std.specs.Prelude.{◌≡◌, [], ◌∷◌, pos, map};
ghost use Rattle.seq_model.specs.Contacts.{points_of};
ghost use Rattle.seq_model.specs.Sides.{AreSides, Beyond, greatest_along};
ghost use Rattle.examples_model.specs.Certificates.{four_sides, five_sides, six_sides};
ghost use Rattle.examples_model.specs.Cubes.{first_contact, at, half, east};
ghost use Rattle.examples_model.specs.Jobs.{two_cubes, two_wedges};

/// The sides of two cubes with the nozzle are the four directions along the axes, at distance 24.
pub fn sides_of_two_cubes()
    ensures sides { AreSides (points_of two_cubes first_contact) four_sides }
    ensures greatest { map (λ dir. greatest_along dir (points_of two_cubes first_contact)) four_sides
        ≡ pos 24 ∷ pos 24 ∷ pos 24 ∷ pos 24 ∷ [] }
{}

/// A cube at a distance of 24 stands beyond the side to the east, and at 47/2 it doesn't.
pub fn beyond_the_side_to_the_east()
    ensures at_24 { Beyond (points_of two_cubes first_contact) east (at (pos 24) (pos 0)) }
    ensures at_47_2 { Beyond (points_of two_cubes first_contact) east (half (pos 47) (pos 0)) → ⊥ }
{}

/// Those of two wedges are just six: (1, 0), (1, 1), (0, 1), (-1, 0), (-1, -1) and (0, -1), and no fewer. The
/// greatest values are 24, and 28 along (1, 1) and (-1, -1).
pub fn sides_of_two_wedges()
    ensures sides { AreSides (points_of two_wedges first_contact) six_sides }
    ensures all { AreSides (points_of two_wedges first_contact) five_sides → ⊥ }
    ensures greatest { map (λ dir. greatest_along dir (points_of two_wedges first_contact)) six_sides
        ≡ pos 24 ∷ pos 28 ∷ pos 24 ∷ pos 24 ∷ pos 28 ∷ pos 24 ∷ [] }
{}
