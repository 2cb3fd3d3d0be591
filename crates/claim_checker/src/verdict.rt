use cert_checker::Rule;

/// What is wrong with a claim first.
#[derive(Clone, Copy, Debug, PartialEq, Eq)]
pub enum Fault {
    /// The state is neither that of a least extent nor that of no plan.
    State,
    /// The grid isn't the printer's.
    Grid,
    /// The plan isn't valid at its extent.
    Plan,
    /// The block doesn't exclude the extent that is due.
    Excludes,
    /// The first node that breaks a rule, by its number in preorder, and the rule.
    Node(u64, Rule),
}

/// What is said of a claim: what a check finds.
#[derive(Clone, Copy, Debug, PartialEq, Eq)]
pub enum Judgement {
    /// It is true, and this extent is excluded: 0 where there is nothing to exclude.
    Passes(u32),
    Fails(Fault),
}
