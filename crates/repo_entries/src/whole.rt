// Why an offer is refused whole.
use identity_doc::IdFault;

/// Why an offer is refused whole.
#[derive(Clone, Copy, Debug, PartialEq, Eq)]
pub enum Whole {
    /// The identity that stands does not lie in the history of the offered one.
    IdForked,
    /// The offered identity commit has no identity chain; never `Get`.
    IdFault(IdFault),
    /// Fewer delegates than the threshold would have a remote.
    TooFewDelegates {
        /// How many would.
        have: usize,
        /// The threshold.
        need: usize,
    },
}
