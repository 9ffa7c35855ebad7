// What a peer offers of a repository.
use crate::{Oid, Remotes};

/// What is offered of a repository: an identity commit, and a commit of signed refs for each
/// remote.
#[derive(Debug, Drop)]
pub struct Offer {
    /// The name of the identity commit.
    pub id: Oid,
    /// Each remote's key with the name of its commit of signed refs.
    pub remotes: Remotes,
}
