//! Sides of a list of points.

ghost use Rattle.std.specs.Prelude.{◌≡◌, List};
ghost use Rattle.seq_model.specs.Sides.{AreSides};
ghost use Rattle.seq_model.specs.declared.printer.Spot.{Spot};
ghost use Rattle.seq_model.specs.declared.tree.Dir.{Dir};

/// A list of points has one list of sides: they are numbered in one way.
pub fn a_list_has_one_list_of_sides()
    ensures { (S : List Spot) (dirs others : List Dir) → AreSides S dirs → AreSides S others → dirs ≡ others }
{}
