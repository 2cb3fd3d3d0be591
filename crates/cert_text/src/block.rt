use seq_model::{What, WideNote};
use thiserror::Error;

/// What a tree block is of.
#[derive(Clone, Copy, Debug, PartialEq, Eq)]
pub enum Kind {
    /// A tree that refutes the extent.
    Certificate,
    /// An open tree, whose search its budget ended.
    OpenBudget,
    /// An open tree, whose search numbers grown too wide ended.
    OpenWide,
}

/// The lines of a tree block before its nodes. A wide note is there exactly for `OpenWide`.
#[derive(Debug, Drop)]
pub struct Head {
    pub kind: Kind,
    pub extent: u32,
    pub wide: Option<WideNote>,
}

/// Why bytes are no tree block. Lines count from 1 at the block's first line.
#[derive(Clone, Copy, Debug, PartialEq, Eq, Error)]
pub enum CertRead {
    /// The line of this number is ended and isn't of the due form, or a number on it is too great.
    #[error("the tree block is refused")]
    Line(u64, What),
    /// A multiplier on the line of this number is above 2^62 - 1.
    #[error("the tree block is refused")]
    Big(u64),
    /// The node on the line of this number has more than 1,000,000 splits above it.
    #[error("the tree block is refused")]
    Deep(u64),
    /// The bytes end before the tree is whole, or within a line.
    #[error("the tree block is refused")]
    Truncated,
    #[error("memory")]
    NoMemory,
}
