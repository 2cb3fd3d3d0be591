//! A job in which nothing is symmetric: a brick and a house with a roof, a part off the tip, and a plate that is wider than deep.

ghost use Rattle.std.specs.Prelude.{◌≡◌, [], ◌∷◌, pos, negsuc, map, take};
ghost use Rattle.seq_model.specs.Budgets.{contact_count, full_of};
ghost use Rattle.seq_model.specs.Contacts.{points_of};
ghost use Rattle.seq_model.specs.Plates.{region_of};
ghost use Rattle.seq_model.specs.Sides.{Beyond, greatest_along};
ghost use Rattle.seq_model.specs.Systems.{system, place_of};
ghost use Rattle.examples_model.specs.Cubes.{spot, at, half, east, north, west, south};
ghost use Rattle.examples_model.specs.Jobs.{tall_and_low};
ghost use Rattle.examples_model.specs.Uneven.{uneven, uneven_rows, slope, slope_then_west, roof_by_the_shoe};

/// Of the plate of 100 by 60 the region of extent 46 is 46 wide and 27 deep (27.6 rounded down), 27 from the west and 16 from the south.
/// The brick's span is 10 by 5 and the house's 16 by 12, over both its zones. The house comes first. Beyond its roof's side (9, 5), of
/// greatest value 169, the brick stands where `9 * (-1 + 3) + 5 * (-2 + 1) - 169 + 9 u_0x + 5 u_0y - 9 u_1x - 5 u_1y >= 0`; and it
/// stands to the west of the walls where `-(-1 + 3) - 13 - u_0x + u_1x >= 0`.
pub fn system_of_a_brick_and_a_house()
    ensures region { region_of (pos 100) (pos 60) 100 46
        ≡ record { low = spot (pos 27) (pos 16); w = pos 46; h = pos 27 } }
    ensures rows { system uneven 46 slope_then_west ≡ uneven_rows }
{}

/// At u = (3/2, 2) and (30, 31/2) the low corners of the two are so far from the region's. So the places are (63/2, 19) and (58, 67/2):
/// 27 + 3 and 16 + 1 more for the brick, 27 + 1 and 16 + 2 more for the house.
pub fn places_of_a_brick_and_a_house()
    ensures brick { place_of uneven 46 (pos 2) (pos 3 ∷ pos 4 ∷ pos 60 ∷ pos 31 ∷ []) 0
        ≡ half (pos 63) (pos 38) }
    ensures house { place_of uneven 46 (pos 2) (pos 3 ∷ pos 4 ∷ pos 60 ∷ pos 31 ∷ []) 1
        ≡ half (pos 116) (pos 67) }
{}

/// The first five points of the difference of the roof, the brick and the shoe: (2, 1) less (-3, -1) less each corner of the shoe,
/// and then (2, 1) less (7, -1) less the first. Its greatest values along five directions are those of the roof, less the least
/// ones of the brick and of the shoe.
pub fn points_of_a_roof_a_brick_and_a_shoe()
    ensures points { take 5 (points_of uneven roof_by_the_shoe)
        ≡ spot (pos 6) (pos 5) ∷ spot (pos 0) (pos 5) ∷ spot (pos 0) (pos 0)
        ∷ spot (pos 6) (pos 0) ∷ spot (negsuc 3) (pos 5) ∷ [] }
    ensures greatest { map (λ dir. greatest_along dir (points_of uneven roof_by_the_shoe))
        (slope ∷ east ∷ north ∷ west ∷ south ∷ [])
        ≡ pos 169 ∷ pos 16 ∷ pos 14 ∷ pos 10 ∷ pos 5 ∷ [] }
{}

/// The walls of the house, printed first, meet the brick by the tip and by the shoe, and its roof by the shoe alone. With the brick first
/// its walls alone meet it, by both parts: while the roof is printed, neither part reaches down to the brick. The fuller order counts: the
/// house first, and of a tall and a low cube the tall one. With 5 and 4 put in for the sides the numbers are 4 * 5^3 and 4 * 4^3.
pub fn contacts_of_the_fuller_order()
    ensures brick_first { contact_count uneven 0 1 ≡ 2 }
    ensures house_first { contact_count uneven 1 0 ≡ 3 }
    ensures brick_and_house { full_of uneven 5 ≡ 500 }
    ensures tall_and_low { full_of tall_and_low 4 ≡ 256 }
{}

/// The brick at (16, 5) from the house is just beyond the slope of its roof, since 9 * 16 + 5 * 5 is 169, and at (16, 9/2) it isn't.
pub fn beyond_the_slope()
    ensures on { Beyond (points_of uneven roof_by_the_shoe) slope (at (pos 16) (pos 5)) }
    ensures short { Beyond (points_of uneven roof_by_the_shoe) slope (half (pos 32) (pos 9)) → ⊥ }
{}
