// What is shown of a repository.
use commit_graph::Objects;
use rad_base::{Oid, Remotes};

/// What is shown of a repository that has an identity.
#[derive(Drop)]
pub struct Shown<'a, O: Objects> {
    /// Its objects.
    pub objects: &'a mut O,
    /// Its identity commit.
    pub id: Oid,
    /// Its remotes, each with its commit of signed refs.
    pub remotes: &'a Remotes,
}
