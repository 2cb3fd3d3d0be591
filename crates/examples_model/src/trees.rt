//! Trees that refute an extent.

ghost use Rattle.std.specs.Prelude.{[], ◌∷◌};
ghost use Rattle.seq_model.specs.Trees.{IsPath, Refutes, TreeRefutes, IsWholeWithin, IsWhole};
ghost use Rattle.seq_model.specs.declared.tree.Choice.TheVariants as Choices;
ghost use Rattle.seq_model.specs.declared.tree.Node.TheVariants as Nodes;
ghost use Rattle.examples_model.specs.Certificates.{tree, tree_of, bound, before, beyond, low_under_the_gantry};
ghost use Rattle.examples_model.specs.Cubes.{east, first_contact, northeast};
ghost use Rattle.examples_model.specs.Jobs.{two_cubes, three_cubes, tall_and_low};

/// A tree of 11 nodes refutes extent 45 for two cubes: whichever comes first, on each side of the other two rows contradict each other.
/// Without row 2 the first of these leaves contradicts nothing, and the tree doesn't refute the extent.
pub fn two_cubes_dont_fit_45()
    ensures refutes { TreeRefutes two_cubes 45 (tree (bound 2 1 4 1)) }
    ensures without_row_2 { TreeRefutes two_cubes 45 (tree (bound 2 0 4 1)) → ⊥ }
{}

/// A cycle runs along orders of the path: 0 before 1 and 1 before 0 are one, and 0 before 1 alone is none. It runs along them in their
/// direction, the last object comes before the first, and one object, or none, is no cycle.
pub fn cycles_of_a_path()
    ensures two { Refutes two_cubes 100 (before 0 1 ∷ before 1 0 ∷ [])
        (Nodes.Cycle (0 ∷ 1 ∷ []) ∷ []) }
    ensures one_way { Refutes two_cubes 100 (before 0 1 ∷ []) (Nodes.Cycle (0 ∷ 1 ∷ []) ∷ []) → ⊥ }
    ensures other_way { Refutes two_cubes 100 (before 0 1 ∷ [])
        (Nodes.Cycle (1 ∷ 0 ∷ []) ∷ []) → ⊥ }
    ensures three { Refutes three_cubes 100 (before 0 1 ∷ before 1 2 ∷ before 2 0 ∷ [])
        (Nodes.Cycle (0 ∷ 1 ∷ 2 ∷ []) ∷ []) }
    ensures backwards { Refutes three_cubes 100 (before 0 1 ∷ before 1 2 ∷ before 2 0 ∷ [])
        (Nodes.Cycle (0 ∷ 2 ∷ 1 ∷ []) ∷ []) → ⊥ }
    ensures one_object { Refutes two_cubes 100 (before 0 0 ∷ []) (Nodes.Cycle (0 ∷ []) ∷ []) → ⊥ }
    ensures no_object { Refutes two_cubes 100 (before 0 0 ∷ []) (Nodes.Cycle [] ∷ []) → ⊥ }
{}

/// The second of two cubes may be put to the east of the first once the first is printed before it: not without this order, not with the other one, not
/// before it is chosen, and not beyond a direction that is no side of the two. Nor is there a side by the gantry of a low cube, printed first, and a
/// tall one: the gantry doesn't reach down to the low one.
pub fn a_side_follows_its_order()
    ensures follows { IsPath two_cubes (before 0 1 ∷ beyond east ∷ []) }
    ensures alone { IsPath two_cubes (beyond east ∷ []) → ⊥ }
    ensures other_order { IsPath two_cubes (before 1 0 ∷ beyond east ∷ []) → ⊥ }
    ensures too_soon { IsPath two_cubes (beyond east ∷ before 0 1 ∷ []) → ⊥ }
    ensures no_side { IsPath two_cubes (before 0 1 ∷ beyond northeast ∷ []) → ⊥ }
    ensures no_contact { IsPath tall_and_low
        (before 1 0 ∷ Choices.Side low_under_the_gantry east ∷ []) → ⊥ }
{}

/// A side node is of a contact that exists, even if it has no children: a cube has no zone 7, the printer no part 7, and there is no
/// object 7.
pub fn a_side_node_of_no_contact()
    ensures zone_of_earlier { Refutes two_cubes 100 (before 0 1 ∷ [])
        (Nodes.Side (record { i = 0; zi = 7; part = 1; zj = 0; j = 1 }) 0 ∷ []) → ⊥ }
    ensures zone_of_later { Refutes two_cubes 100 (before 0 1 ∷ [])
        (Nodes.Side (record { i = 0; zi = 0; part = 1; zj = 7; j = 1 }) 0 ∷ []) → ⊥ }
    ensures part { Refutes two_cubes 100 (before 0 1 ∷ [])
        (Nodes.Side (record { i = 0; zi = 0; part = 7; zj = 0; j = 1 }) 0 ∷ []) → ⊥ }
    ensures earlier { Refutes two_cubes 100 (before 7 1 ∷ [])
        (Nodes.Side (record { i = 7; zi = 0; part = 1; zj = 0; j = 1 }) 0 ∷ []) → ⊥ }
    ensures later { Refutes two_cubes 100 (before 0 7 ∷ [])
        (Nodes.Side (record { i = 0; zi = 0; part = 1; zj = 0; j = 7 }) 0 ∷ []) → ⊥ }
{}

/// A tree is whole by the numbers of children that its nodes say. The tree of two cubes has leaves with two splits above them. A side node
/// may say one child though its contact has four sides; a node less, or one more, is no whole tree.
pub fn trees_by_their_counts()
    ensures whole { IsWhole (tree (bound 2 1 4 1)) }
    ensures two_splits { IsWholeWithin 2 (tree (bound 2 1 4 1)) }
    ensures not_one { IsWholeWithin 1 (tree (bound 2 1 4 1)) → ⊥ }
    ensures fewer_than_sides { IsWholeWithin 1
        (tree_of (Nodes.Side first_contact 1 ∷ Nodes.Pending ∷ [])) }
    ensures child_missing { IsWhole (tree_of (Nodes.Order 0 1 ∷ Nodes.Pending ∷ [])) → ⊥ }
    ensures node_behind { IsWhole (tree_of (Nodes.Pending ∷ Nodes.Pending ∷ [])) → ⊥ }
    ensures no_node { IsWhole (tree_of []) → ⊥ }
{}
