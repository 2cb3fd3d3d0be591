/// A rule of a tree that a node may break, in the order in which a node's own are tested: a node isn't pending; an order is of two
/// objects of the job, the lesser first; the contact of a side split exists, the order of its objects is on the path, and the split has
/// as many children as the contact has sides; each row of a bound is one of the path's system, no coefficient adds up to more than 0, and
/// the constants add up to less; the objects of a cycle run in a circle along orders of the path.
#[derive(Clone, Copy, Debug, PartialEq, Eq)]
pub enum Rule {
    Pending,
    Objects,
    Contact,
    Unordered,
    Children,
    Row,
    Sum,
    Constant,
    Cycle,
}

/// What a check says of a tree: that it refutes the extent, or the number of the first node that breaks a rule, and the rule.
#[derive(Clone, Copy, Debug, PartialEq, Eq)]
pub enum Checked {
    Passes,
    Fails(u64, Rule),
}
