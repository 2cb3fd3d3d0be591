use seq_model::{Plan, Tree, WideNote};

/// Why an extent was left undecided.
#[derive(Debug, Drop)]
pub enum Cause {
    /// This tree has used the budget up.
    Budget(Tree),
    /// The pending nodes of this tree have walks that end wide.
    Wide(WideNote, Tree),
}

/// What a search for the least extent answers.
#[derive(Debug, Drop)]
pub enum Outcome {
    /// The extent is the least one: the tree refutes the one below, which is there but for extent 1.
    Least {
        plan: Plan,
        extent: u32,
        tree: Option<Tree>,
    },
    /// This tree refutes the whole plate.
    NoPlan(Tree),
    /// The plan is valid at the extent, and the one below was left undecided.
    Unproved {
        plan: Plan,
        extent: u32,
        cause: Cause,
    },
    /// The whole plate was left undecided.
    Undecided(Cause),
}
