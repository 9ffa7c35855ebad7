// What a pass knows.
use std::collections::LinkedList;

/// A number, and the entries that were added under it, the oldest first.
pub struct Made<E> {
    pub number: u64,
    pub entries: LinkedList<E>,
}

/// What a pass knows. Contracts alone speak of it, and no value of it is made.
pub struct View<E, C> {
    /// The caller's number, from 1, or 0 as long as the pass has none.
    pub number: u64,
    /// The ticket that was drawn for the next turn, or for the one that is taken.
    pub ticket: Option<u64>,
    /// The pass has its turn.
    pub called: bool,
    /// The pass's share of 2^62, or 0 once it was joined into another.
    pub share: u64,
    /// The entries that it has seen.
    pub seen: LinkedList<E>,
    /// What another pass that was joined had seen, until it is known to begin `seen`.
    pub told: LinkedList<E>,
    /// The entries that were added under its own number.
    pub made: LinkedList<E>,
    /// The numbers of passes that were joined into it.
    pub joined: LinkedList<Made<E>>,
    /// The constants of the value. A pass that was joined into another has none.
    pub constants: Option<C>,
}
