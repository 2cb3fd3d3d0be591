//! Walks from basis to basis.

ghost use Rattle.std.specs.Prelude.{[], ◌∷◌, pos, negsuc, neg_ℤ, ◌-ℤ◌, ◌*ℤ◌};
ghost use Rattle.examples_model.specs.Solving.{FormIs, one_row, big, wide_rows, two_wide_rows, row_of, edge, below_edge};
ghost use Rattle.seq_model.specs.Dictionaries.{WideAt};
ghost use Rattle.seq_model.specs.Walks.{EndsWide, Walk, WalkWide};

/// `-1 + 2 u >= 0` is met at u = 1/2. Variable 0 is u and variable 1 the slack. First the slack is -1 + 2 u; it leaves, u enters, and
/// 2 u is 1 plus the slack.
pub fn half_meets_one_row()
    ensures first { FormIs 1 one_row (1 ∷ []) (pos 1) ((negsuc 0 ∷ pos 2 ∷ []) ∷ []) }
    ensures last { FormIs 1 one_row (0 ∷ []) (pos 2) ((pos 1 ∷ pos 1 ∷ []) ∷ []) }
    ensures walk { Walk 1 one_row (1 ∷ []) ((1 ∷ []) ∷ (0 ∷ []) ∷ []) }
{}

/// The slack of `2 + 2 u >= 0` is 2 + 2 u over the denominator 1: that 2 divides the line alone is no matter.
pub fn a_form_of_even_numbers()
    ensures { FormIs 1 (row_of (pos 2) (pos 2)) (1 ∷ []) (pos 1) ((pos 2 ∷ pos 2 ∷ []) ∷ []) }
{}

/// Of the rows `-1 + 2^61 u >= 0` and `-2 + u + 3 v >= 0` the walk from the slacks 2 and 3 would go on to the basis 0, 3. Over 2^61 slack
/// 3 has there the constant 1 - 2^62 and the entries 3 * 2^61 of v and 1 of slack 2, so that it is wide, and the walk ends before it. No walk begins
/// with what is no basis.
pub fn a_walk_ends_before_a_wide_row()
    ensures form { FormIs 2 wide_rows (0 ∷ 3 ∷ []) big ((pos 1 ∷ pos 0 ∷ pos 1 ∷ [])
        ∷ ((pos 1 -ℤ pos 2 *ℤ big) ∷ (pos 3 *ℤ big) ∷ pos 1 ∷ []) ∷ []) }
    ensures wide { WideAt 2 wide_rows (0 ∷ 3 ∷ []) 3 }
    ensures walk { WalkWide 2 wide_rows (0 ∷ 3 ∷ []) 3 }
    ensures from_the_slacks { EndsWide 2 wide_rows (2 ∷ 3 ∷ []) (0 ∷ 3 ∷ []) 3 }
    ensures from_no_basis { EndsWide 2 wide_rows [] (0 ∷ 3 ∷ []) 3 → ⊥ }
{}

/// Of the rows `-1 + 2^62 u >= 0` and `1 >= 0` the walk ends before the basis 0, 2, whose denominator 2^62 makes it wide at both of its
/// variables, 0 and 2. The lesser, 0, is named.
pub fn the_least_wide_row_is_named()
    ensures first { WideAt 1 two_wide_rows (0 ∷ 2 ∷ []) 0 }
    ensures second { WideAt 1 two_wide_rows (0 ∷ 2 ∷ []) 2 }
    ensures named { WalkWide 1 two_wide_rows (0 ∷ 2 ∷ []) 0 }
    ensures not_named { WalkWide 1 two_wide_rows (0 ∷ 2 ∷ []) 2 → ⊥ }
{}

/// Wide is 2^62 and more in size, of an entry, of a constant, or of the denominator alone, and 2^62 - 1 isn't. Where u is basic
/// instead of the slack, the denominator is its coefficient and the line is 1, 1; and the slack then has no line.
pub fn wide_from_two_to_the_62()
    ensures entry { WideAt 1 (row_of (negsuc 0) edge) (1 ∷ []) 1 }
    ensures entry_below { WideAt 1 (row_of (negsuc 0) below_edge) (1 ∷ []) 1 → ⊥ }
    ensures entry_of_this_size { WideAt 1 (row_of (negsuc 0) (neg_ℤ edge)) (1 ∷ []) 1 }
    ensures constant { WideAt 1 (row_of (neg_ℤ edge) (pos 1)) (1 ∷ []) 1 }
    ensures constant_below { WideAt 1 (row_of (neg_ℤ below_edge) (pos 1)) (1 ∷ []) 1 → ⊥ }
    ensures denominator { WideAt 1 (row_of (negsuc 0) edge) (0 ∷ []) 0 }
    ensures denominator_below { WideAt 1 (row_of (negsuc 0) below_edge) (0 ∷ []) 0 → ⊥ }
    ensures of_no_line { WideAt 1 (row_of (negsuc 0) edge) (0 ∷ []) 1 → ⊥ }
{}

/// From the basis 1, 2, which is wide itself, the walk ends before the basis 0, 1: a wide basis may begin a walk.
pub fn a_walk_from_a_wide_start()
    ensures { EndsWide 2 wide_rows (1 ∷ 2 ∷ []) (0 ∷ 1 ∷ []) 0 }
{}
