// What hearing an announcement answers.

/// What hearing an announcement answers: the first that applies of not accepted, early, older, same
/// and raised.
#[derive(Clone, Copy, Debug, PartialEq, Eq)]
pub enum Heard {
    /// It is greater than what was kept of its key, if anything was.
    Raised,
    /// What is kept of its key is greater.
    Older,
    /// It is the one that is kept.
    Same,
    /// Its time is more than an hour ahead of the clock.
    Early,
    /// The keyring does not accept its signature.
    NotAccepted,
}
