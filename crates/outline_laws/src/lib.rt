//! The laws of convex outlines and of their differences, as contracts of calls that do nothing.
//!
//! What is inner, a side, beyond and a difference stands in words in `seq_model`. Here it is shown, for any list of points, that
//! a point is inner exactly where it is beyond no side; that the sides of an outline are the outward directions of its edges, and
//! those of a difference of three lists the sides of the first and the opposites of those of the two others; and that two points
//! of two outlines, spread by a third, meet exactly where the later place less the earlier one is inner to the difference.
//!
//! `specs/Corners.antt`, `Hulls.antt`, `Edges.antt`, `Directions.antt` and `Beyond.antt` have the words of the contracts, and
//! `specs/Laws` the geometry. `convex_outline`, `difference_polygon` and `pair_constraints` stand on it.
#![tactic(auto)]

ghost use Rattle.std.specs.Prelude.{◌≡◌, List, Contains, ◌≤◌, ◌+ℤ◌, length, ◌⊎◌, ◌↔◌};
ghost use Rattle.seq_model.specs.declared.printer.Spot.{Spot};
ghost use Rattle.seq_model.specs.declared.tree.Dir.{Dir};
ghost use Rattle.seq_model.specs.Contacts.{difference};
ghost use Rattle.seq_model.specs.Outlines.{Inner};
ghost use Rattle.seq_model.specs.Points.{Point, IsPoint, minus};
ghost use Rattle.seq_model.specs.Scenes.{Overlap};
ghost use Rattle.seq_model.specs.Sides.{Side, greatest_along};
ghost use Rattle.outline_laws.specs.Beyond.{BeyondNoSide, IsLeftOfEachEdge};
ghost use Rattle.outline_laws.specs.Corners.{AreCorners, HasArea, NoThreeOnALine};
ghost use Rattle.outline_laws.specs.Edges.{Across, back, edges_of};
ghost use Rattle.outline_laws.specs.Hulls.{HullOf};

/// Each list of spots, however far they lie, has corners of this kind: members, with every member within them and the same inner
/// points. It is what a polygon of differences stands on, whose spots no list in memory holds.
pub fn every_list_has_corners()
    ensures { (spots : List Spot) → HullOf spots }
{}

/// A list that has area has three corners or more: its corners are a polygon.
pub fn a_list_with_area_has_a_polygon()
    ensures { (spots : List Spot) (of : HullOf spots) → HasArea spots → 3 ≤ length of.corners }
{}

/// Three different corners never lie on one line, wherever they stand in the list.
pub fn no_three_corners_on_a_line()
    ensures { (corners : List Spot) → AreCorners corners → NoThreeOnALine corners }
{}

/// In a list with area, whatever else it holds, a point is inner exactly where it is beyond no side.
pub fn a_point_is_inner_exactly_where_it_is_beyond_no_side()
    ensures { (spots : List Spot) (q : Point) → HasArea spots → IsPoint q
        → Inner spots q ↔ BeyondNoSide spots q }
{}

/// What lies to the left of each edge of an outline with area, and that alone, is a mean of all corners with positive weights.
pub fn a_point_is_inner_to_corners_exactly_where_it_is_left_of_each_edge()
    ensures { (corners : List Spot) (q : Point) → AreCorners corners → 3 ≤ length corners
        → IsPoint q → Inner corners q ↔ IsLeftOfEachEdge corners q }
{}

/// The sides of an outline are the outward directions of its edges: of an area, of a segment both ways, of a point none.
pub fn sides_are_the_directions_of_edges()
    ensures { (corners : List Spot) (dir : Dir) → AreCorners corners
        → Side corners dir ↔ Across (edges_of corners) dir }
{}

/// A side of a difference is a side of the first list, or its opposite is one of the second or of the third, and nothing else is.
pub fn sides_of_a_difference_are_those_of_its_lists()
    ensures { (A B F : List Spot) (dir : Dir) → 1 ≤ length A → 1 ≤ length B → 1 ≤ length F
        → Side (difference A B F) dir ↔ (Side A dir ⊎ (Side B (back dir) ⊎ Side F (back dir))) }
{}

/// The greatest value over a difference is the sum of those over its lists, the last two along the opposite direction.
pub fn greatest_values_of_a_difference_add_up()
    ensures { (dir : Dir) (A B F : List Spot) → 1 ≤ length A → 1 ≤ length B → 1 ≤ length F
        → greatest_along dir (difference A B F)
        ≡ (greatest_along dir A +ℤ greatest_along (back dir) B) +ℤ greatest_along (back dir) F }
{}

/// A difference has area where its first list has.
pub fn a_difference_has_area_where_its_first_list_has()
    ensures { (A B F : List Spot) → 1 ≤ length B → 1 ≤ length F → HasArea A
        → HasArea (difference A B F) }
{}

/// An outline at p, and another at r spread by a third, share a point exactly where r less p is inner to their difference.
pub fn outlines_meet_exactly_where_places_differ_by_an_inner_point()
    ensures { (A B F : List Spot) (p r : Point) → IsPoint p → IsPoint r
        → Overlap A B F p r ↔ Inner (difference A B F) (minus r p) }
{}
