// What a search rests on, as contracts of calls that do nothing.
ghost use Rattle.std.specs.Prelude.{List};
ghost use Rattle.integer_laws.specs.Divisors.{IsPrimitive};
ghost use Rattle.seq_model.specs.declared.printer.Spot.{Spot};
ghost use Rattle.seq_model.specs.declared.tree.Dir.{Dir};
ghost use Rattle.seq_model.specs.Outlines.{Inner};
ghost use Rattle.seq_model.specs.Points.{Point};
ghost use Rattle.seq_model.specs.Sides.{Beyond, Side};
ghost use Rattle.outline_laws.specs.Corners.{HasArea};
ghost use Rattle.search_laws.specs.Covering.{Covers};

/// What reaches no farther than another along each of its sides is covered by it: where the other isn't met, it isn't either, so
/// its contact needs no opening.
pub fn covered_contacts_need_no_opening()
    ensures inner { (covered covering : List Spot) (q : Point) → HasArea covered → HasArea covering
        → Covers covering covered → Inner covered q → Inner covering q }
    ensures beyond { (covered covering : List Spot) (q : Point) (dir : Dir) → HasArea covered
        → Covers covering covered → Side covering dir
        → Beyond covering dir q → Inner covered q → ⊥ }
{}

/// Nothing inner to a list is beyond its greatest value along any direction: a box rejects quickly.
pub fn beyond_any_direction_is_out_of_reach()
    ensures { (spots : List Spot) (q : Point) (dir : Dir) → HasArea spots → IsPrimitive dir.x dir.y
        → Beyond spots dir q → Inner spots q → ⊥ }
{}
