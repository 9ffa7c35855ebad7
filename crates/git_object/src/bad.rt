// The refusal of bytes that are not in a grammar.

/// The bytes are not in the grammar.
#[derive(Clone, Copy, Debug, PartialEq, Eq)]
pub struct Bad {
    /// The offset at which the first broken unit begins.
    pub place: usize,
}
