// The answer of `head`.

use rad_base::Oid;

/// The canonical head of a branch.
#[derive(Clone, Copy, Debug, PartialEq, Eq)]
pub enum Head {
    /// The least tip with votes enough that has all other such tips in its history.
    At(Oid),
    /// No tip has votes enough.
    NoQuorum,
    /// The least tip with votes enough that has another such tip beside it, and the least of these;
    /// tips are beside each other where neither lies in the history of the other.
    Diverging(Oid, Oid),
    /// The document names no default branch.
    NoBranch,
}
