// Commits, and the entries of their trees.
ghost use Rattle.std.specs.Prelude.{◌≡◌, IfErr, IfOk, Some};
ghost use Rattle.std.specs.Option.{ForSome};
ghost use Rattle.commit_graph.specs.Faults.{KeepsObjects};
ghost use Rattle.tree_entry.specs.Entries.{Finds, HasCommitEntry};
ghost use Rattle.tree_entry.specs.Commits.{ShowsCommit, ReadsCommit};

use crate::find_entry;
use commit_graph::{Changed, GetFault, Objects};
use git_object::{Kind, read_commit};
use rad_base::Oid;

/// The tree of a commit, and whether the commit has a parent.
#[derive(Clone, Copy, Debug, PartialEq, Eq)]
pub struct CommitTree {
    /// The name of the tree.
    pub tree: Oid,
    /// Whether there is a parent.
    pub has_parent: bool,
}

fn tree_in(bytes: &[u8]) -> Option<CommitTree>
    ensures { ReadsCommit bytes.now result }
{
    let Ok(parts) = read_commit(bytes) else {
        return None;
    };
    let mut parents = parts.parents;
    Some(CommitTree {
        tree: parts.tree,
        has_parent: parents.next().is_some(),
    })
}

/// The tree of a commit. None where the commit is not there, is of another kind or not in its
/// grammar. `GetFault` as `Objects::get` answers it.
pub fn commit_tree<O: Objects>(objects: &mut O, oid: &Oid) -> Result<Option<CommitTree>, GetFault>
    ensures told { ForSome (O.content objects.old) (λ m. IfOk result (ShowsCommit m oid.now)) }
    ensures asked { IfErr result (λ fault. (change : Changed) → fault ≡ GetFault.Changed change
        → change.name ≡ oid.now) }
    ensures keeps { KeepsObjects O.content O.beside O.places O.faults Some objects.old objects.new
        result }
{
    match objects.get(oid) {
        Err(fault) => Err(fault),
        Ok(Some((Kind::Commit, bytes))) => Ok(tree_in(bytes)),
        Ok(_) => Ok(None),
    }
}

/// The object that an entry of a commit's tree links to, as `find_entry` finds it. None also where
/// the commit is not there, is of another kind or not in its grammar. `GetFault` as `Objects::get`
/// answers it.
pub fn commit_entry<O: Objects>(
    objects: &mut O,
    oid: &Oid,
    kind: Kind,
    name: &[u8],
) -> Result<Option<Oid>, GetFault>
    ensures told { ForSome (O.content objects.old)
        (λ m. IfOk result (Finds (HasCommitEntry m oid.now kind name.now))) }
    ensures keeps { KeepsObjects O.content O.beside O.places O.faults Some objects.old objects.new
        result }
{
    let Some(found) = commit_tree(objects, oid)? else {
        return Ok(None);
    };
    let entry = find_entry(objects, &found.tree, kind, name)?;
    Ok(entry)
}
