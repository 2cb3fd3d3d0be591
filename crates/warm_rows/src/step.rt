use seq_model::{Mult, Row};

/// What was done.
#[derive(Debug, Drop)]
pub enum Step {
    /// This row was added, and its slack was basic.
    Row(Row),
    /// One variable left the basis, and another entered.
    Pivot { leaving: u32, entering: u32 },
}

/// A number of steps.
#[derive(Clone, Copy, Debug, PartialEq, Eq)]
pub struct Mark {
    pub steps: usize,
}

/// What became of a row that was to be added.
#[derive(Clone, Copy, Debug, PartialEq, Eq)]
pub enum Added {
    /// It is one of the rows.
    Held,
    /// Over the present basis, times the denominator, it has a number of 2^62 or more, and wasn't added.
    Cold,
}

/// What the rows have.
#[derive(Debug, Drop)]
pub enum Warmed {
    /// The point nums / den, which meets all rows.
    Point { den: i64, nums: Vec<i64> },
    /// Rows that contradict one another.
    Contradiction(Vec<Mult>),
    /// The walk from the basis that was found ends before a wide one.
    Cold,
}
