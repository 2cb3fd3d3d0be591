//! Valid plans, forced orders, and which splits may be made.

ghost use Rattle.std.specs.Prelude.{◌≡◌, ℕ, List, [], ◌∷◌, pos, length};
ghost use Rattle.seq_model.specs.Jobs.{scene_of_job};
ghost use Rattle.seq_model.specs.Scenes.{Valid};
ghost use Rattle.seq_model.specs.Splits.{AreNeighbours, CollidesAt, CouldSplit, Earned, Grounded, IsForced, OpenTree, Somewhere, SpentTree, IsWideNote};
ghost use Rattle.seq_model.specs.Systems.{place_of};
ghost use Rattle.seq_model.specs.declared.tree.Node.{Node};
ghost use Rattle.seq_model.specs.declared.tree.Node.TheVariants as Nodes;
ghost use Rattle.examples_model.specs.Certificates.{before, bound, tree, tree_of};
ghost use Rattle.examples_model.specs.Cubes.{at, first_contact};
ghost use Rattle.examples_model.specs.Jobs.{two_cubes, tall_and_low, cube_on_a_narrow_plate};
ghost use Rattle.examples_model.specs.Plans.{beside_each_other, low_then_tall, tall_then_low, tall_to_the_east};
ghost use Rattle.examples_model.specs.Rows.{path_to_the_east};

/// Extent 46 has room for two cubes beside each other: with u = (0, 0) and (24, 0) they stand at (28, 28) and (52, 28), and that is a
/// valid plan.
pub fn two_cubes_fit_46()
    ensures first { place_of two_cubes 46 (pos 1) (pos 0 ∷ pos 0 ∷ pos 24 ∷ pos 0 ∷ []) 0
        ≡ at (pos 28) (pos 28) }
    ensures second { place_of two_cubes 46 (pos 1) (pos 0 ∷ pos 0 ∷ pos 24 ∷ pos 0 ∷ []) 1
        ≡ at (pos 52) (pos 28) }
    ensures valid { Valid (scene_of_job two_cubes) 46 beside_each_other }
{}

/// A search of two cubes may begin with their order, since where both stand in one place they collide both ways. With a budget of one
/// node it has spent it at the pending root.
pub fn one_node_is_soon_spent()
    ensures earned { Earned two_cubes 100 [] (Nodes.Order 0 1) }
    ensures spent { SpentTree two_cubes 100 1 (tree_of (Nodes.Pending ∷ [])) }
{}

/// A low cube and a tall one 25 grains to the east of it are a valid plan when the low one is printed first. In the other order the
/// same places aren't.
pub fn a_plan_by_its_order()
    ensures low_first { Valid (scene_of_job tall_and_low) 100 low_then_tall }
    ensures tall_first { Valid (scene_of_job tall_and_low) 100 tall_then_low → ⊥ }
{}

/// A spent tree has at least as many nodes as its budget, and fewer than the budget and the greatest number of sides
/// together: of two cubes at most three more.
pub fn a_tree_is_spent_by_its_length()
    ensures three_over { SpentTree two_cubes 100 0
        (tree_of (Nodes.Order 0 1 ∷ Nodes.Pending ∷ Nodes.Pending ∷ [])) }
    ensures four_over { (nodes : List Node) → length nodes ≡ 4
        → SpentTree two_cubes 100 0 (tree_of nodes) → ⊥ }
    ensures one_under { SpentTree two_cubes 100 2 (tree_of (Nodes.Pending ∷ [])) → ⊥ }
{}

/// Where the tall cube stands 25 grains to the east of the low one, the gantry runs into it if it is printed first, and nothing collides if
/// the low one is: so there the low one first is forced. With the other order on the path the two are neighbours of a cycle.
pub fn the_low_cube_is_forced_first()
    ensures forced { IsForced tall_and_low 100 tall_to_the_east 1 0 }
    ensures neighbours { AreNeighbours tall_and_low 100 (before 0 1 ∷ []) tall_to_the_east 1 0 }
{}

/// A split has a cause at a point of its own path. An order that is chosen isn't split again, and where no point meets the rows of a path,
/// as at extent 45 where the second cube stands to the east of the first, no split of their contact is grounded.
pub fn splits_without_a_cause()
    ensures ordered { Grounded two_cubes 100 (before 0 1 ∷ []) (Nodes.Order 0 1) → ⊥ }
    ensures nowhere { Grounded two_cubes 45 path_to_the_east (Nodes.Side first_contact 4) → ⊥ }
{}

/// Extent 21 has no room for a cube, so that no split of two cubes is earned there at the empty path, and the tree that splits their order
/// isn't open. One object has nothing to split at the empty path.
pub fn nothing_to_split()
    ensures no_room { CouldSplit two_cubes 21 [] → ⊥ }
    ensures not_open { OpenTree two_cubes 21
        (tree_of (Nodes.Order 0 1 ∷ Nodes.Pending ∷ Nodes.Pending ∷ [])) → ⊥ }
    ensures one_object { CouldSplit cube_on_a_narrow_plate 100 [] → ⊥ }
{}

/// The order of two cubes is earned only where they collide both ways: no two of them stand side by side in a cycle of forced orders.
pub fn an_order_of_two_is_earned_both_ways()
    ensures { (e : ℕ) → Earned two_cubes e [] (Nodes.Order 0 1)
        → Somewhere two_cubes e []
        (λ at. CollidesAt two_cubes e at 0 1 × CollidesAt two_cubes e at 1 0) }
{}

/// The tree that refutes extent 45 for two cubes, with its first bound left pending, isn't spent: at the path of that leaf no point is left,
/// so nothing could be split there.
pub fn a_leaf_without_a_point_is_not_spent()
    ensures { SpentTree two_cubes 45 11 (tree Nodes.Pending) → ⊥ }
{}

/// A note of a wide basis names a pending node: node 2 of the tree that refutes extent 45 is closed.
pub fn a_note_names_a_pending_node()
    ensures { IsWideNote two_cubes 45 (tree (bound 2 1 4 1))
        (record { node = 2; basis = 0 ∷ []; row = 0 }) → ⊥ }
{}
