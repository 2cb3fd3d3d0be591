//! Laws of the kind that later proofs need, shown as examples of how the laws of this crate are used.
ghost use Rattle.integer_laws.specs.Examples.{CornerIdentity, RowOfAPivot, MeanOfMeans};

/// Three vectors of the plane: what weighs the corners of a polygon by the areas at them.
pub fn corner_identity()
    ensures { CornerIdentity }
{}

/// What a pivot makes of the row of a variable that stays basic.
pub fn row_of_a_pivot()
    ensures { RowOfAPivot }
{}

/// A weighted mean of two weighted means is a weighted mean.
pub fn mean_of_means()
    ensures { MeanOfMeans }
{}
