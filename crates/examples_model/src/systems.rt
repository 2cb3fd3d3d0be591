//! Systems, contradictions, and the number of nodes that is meant to be enough.

ghost use Rattle.std.specs.Prelude.{◌≡◌, ◌↔◌, ℕ, [], ◌∷◌, pos, negsuc};
ghost use Rattle.seq_model.specs.Budgets.{IsMostSides, Full};
ghost use Rattle.seq_model.specs.Systems.{system, Contradiction, MeetsRows};
ghost use Rattle.examples_model.specs.Rows.{row, rows_at_45, path_to_the_east, times};
ghost use Rattle.examples_model.specs.Jobs.{two_cubes, two_wedges, three_cubes, cube_on_a_narrow_plate};

/// The system of two cubes at extent 45, of which the later one stands to the east: `23 - u >= 0` in rows 0 to 3, and
/// `-24 + u_1x - u_0x >= 0` in row 4. Rows 2 and 4 contradict each other, and row 4 with none of row 2 contradicts nothing.
/// There is no row 5 to be taken.
pub fn two_cubes_at_45()
    ensures rows { system two_cubes 45 path_to_the_east ≡ rows_at_45 }
    ensures contradicts { Contradiction rows_at_45 (times 2 1 4 1) }
    ensures without_row_2 { Contradiction rows_at_45 (times 2 0 4 1) → ⊥ }
    ensures no_row_5 { Contradiction rows_at_45 (record { row = 5; times = pos 1 } ∷ times 2 1 4 1)
        → ⊥ }
{}

/// At extent 46 the point (0, 0, 24, 0) meets the system of two cubes, of which the later one stands to the east, without room to spare in x.
pub fn a_point_that_meets_a_system()
    ensures { MeetsRows (system two_cubes 46 path_to_the_east) (pos 2)
        (pos 0 ∷ pos 0 ∷ pos 48 ∷ pos 0 ∷ []) }
{}

/// The bounds of one cube at extent 46 of a plate of 100 by 50, whose region is 46 by 23: 24 in x and 1 in y.
pub fn bounds_on_a_narrow_plate()
    ensures { system cube_on_a_narrow_plate 46 []
        ≡ row (pos 24) (negsuc 0 ∷ pos 0 ∷ []) ∷ row (pos 1) (pos 0 ∷ negsuc 0 ∷ []) ∷ [] }
{}

/// No contact of two cubes has more than four sides, and one has four. So their number of nodes is 64, and no other.
pub fn number_of_nodes_of_two_cubes()
    ensures most_sides { (s : ℕ) → IsMostSides two_cubes s ↔ (s ≡ 4) }
    ensures full { (n : ℕ) → Full two_cubes n ↔ (n ≡ 64) }
{}

/// No contact of two wedges has more than six sides, and one has six. So their number of nodes is 144, and no other.
pub fn number_of_nodes_of_two_wedges()
    ensures most_sides { (s : ℕ) → IsMostSides two_wedges s ↔ (s ≡ 6) }
    ensures full { (n : ℕ) → Full two_wedges n ↔ (n ≡ 144) }
{}

/// Three cubes have contacts of four sides too, but three pairs. So their number of nodes is 65,536, and no other.
pub fn number_of_nodes_of_three_cubes()
    ensures most_sides { (s : ℕ) → IsMostSides three_cubes s ↔ (s ≡ 4) }
    ensures full { (n : ℕ) → Full three_cubes n ↔ (n ≡ 65_536) }
{}

/// One object has no contact, so the number of sides that counts is 3. Its number of nodes is 2.
pub fn number_of_nodes_of_one_cube()
    ensures most_sides { (s : ℕ) → IsMostSides cube_on_a_narrow_plate s ↔ (s ≡ 3) }
    ensures full { (n : ℕ) → Full cube_on_a_narrow_plate n ↔ (n ≡ 2) }
{}
