//! Certificates, and trees that refute an extent without being one.

ghost use Rattle.std.specs.Prelude.{[], ◌∷◌};
ghost use Rattle.seq_model.specs.Splits.{IsCertificate};
ghost use Rattle.seq_model.specs.Trees.{TreeRefutes};
ghost use Rattle.seq_model.specs.declared.tree.Node.TheVariants as Nodes;
ghost use Rattle.examples_model.specs.Certificates.{tree_of, bound};
ghost use Rattle.examples_model.specs.Jobs.{two_cubes};

/// At extent 21, which has no room for a cube, row 0 alone is a certificate; a pending node is none. A split refutes the extent too, with row
/// 0 for each child, but has no cause, since no point meets the bounds.
pub fn certificates_where_no_cube_fits()
    ensures one_bound { IsCertificate two_cubes 21 (tree_of (bound 0 1 1 0 ∷ [])) }
    ensures pending { IsCertificate two_cubes 100 (tree_of (Nodes.Pending ∷ [])) → ⊥ }
    ensures refutes { TreeRefutes two_cubes 21
        (tree_of (Nodes.Order 0 1 ∷ bound 0 1 1 0 ∷ bound 0 1 1 0 ∷ [])) }
    ensures without_cause { IsCertificate two_cubes 21
        (tree_of (Nodes.Order 0 1 ∷ bound 0 1 1 0 ∷ bound 0 1 1 0 ∷ [])) → ⊥ }
{}
