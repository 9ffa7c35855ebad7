// The parents of a commit.
ghost use Rattle.std.specs.Prelude.{◌≡◌, ◌≤◌, ◌+◌, IfOk, IfErr};
ghost use Rattle.std.specs.Option.{ForSome};
ghost use Rattle.commit_graph.specs.Chains.{linked_commits};
ghost use Rattle.commit_graph.specs.Faults.{KeepsObjects};
ghost use Rattle.canonical_head.specs.Ancestries.{AreParents, ReadsParents};

use commit_graph::{GetFault, Objects};
use git_object::{Kind, LinkTo, LinksFault, links};
use rad_base::Oid;
use std::alloc::{AllocError, Global};

// Those of the links that lead to commits, by their names.
fn commits_among(alloc: Global, links: &[LinkTo]) -> Result<Vec<Oid>, AllocError>
    ensures { IfOk result (λ parents. parents.items ≡ linked_commits links.now) }
{
    links
        .iter()
        .filter(|link| matches!(link.kind, Kind::Commit))
        .map(|link| link.oid)
        .collect(alloc)
}

// Reads the parents from the content of a commit; none where it is malformed.
fn read(alloc: Global, bytes: &[u8]) -> Result<Vec<Oid>, GetFault>
    ensures read { IfOk result (λ parents. ReadsParents bytes.now parents.items) }
    ensures refused { IfErr result (λ fault. fault ≡ GetFault.NoMemory) }
{
    match links(alloc, Kind::Commit, bytes) {
        Ok(found) => Ok(commits_among(alloc, &found)?),
        Err(LinksFault::Bad(_)) => Ok(Vec::new(alloc)),
        Err(LinksFault::NoMemory) => Err(GetFault::NoMemory),
    }
}

/// The parents of a commit, in order, by one look-up; none where the name has no well-formed
/// commit. `Err` is the fault of the look-up, or `NoMemory`.
pub(crate) fn parents_of<O: Objects>(
    alloc: Global,
    objects: &mut O,
    oid: &Oid,
) -> Result<Vec<Oid>, GetFault>
    ensures told { ForSome (O.content objects.old)
        (λ m. IfOk result (λ parents. AreParents m oid.now parents.items)) }
    ensures keeps { KeepsObjects O.content O.beside O.places O.faults Some objects.old objects.new
        result }
    ensures looked { O.looks objects.new ≤ O.looks objects.old + 1 }
{
    match objects.get(oid) {
        Err(fault) => Err(fault),
        Ok(Some((Kind::Commit, bytes))) => read(alloc, bytes),
        Ok(_) => Ok(Vec::new(alloc)),
    }
}
