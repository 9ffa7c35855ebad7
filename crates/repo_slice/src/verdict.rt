// What the judging of an offer answers.
use crate::Outcomes;
use rad_base::{Oid, Remotes};

/// What becomes of the offered identity.
#[derive(Clone, Copy, Debug, PartialEq, Eq)]
pub enum IdOutcome {
    /// There was none, and it is good.
    First,
    /// It is the one that stands.
    Same,
    /// It lies in the history of the one that stands, which stays.
    Stale,
    /// The one that stands lies in its history.
    Advanced,
}

/// What becomes of an offer that is not refused whole.
#[derive(Debug, Drop)]
pub struct Judged {
    /// What becomes of the offered identity.
    pub id_outcome: IdOutcome,
    /// What becomes of each offered remote.
    pub outcomes: Outcomes,
    /// The next identity commit.
    pub next_id: Oid,
    /// The offered remotes that advance.
    pub advanced: Remotes,
}
