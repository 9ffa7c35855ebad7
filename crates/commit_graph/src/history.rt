// The history of a commit.
ghost use Rattle.std.specs.Prelude.{◌≡◌, ◌≤◌, ◌+◌, ◌↔◌, List, length, IsTrue, IfOk};
ghost use Rattle.std.specs.Option.{ForSome};
ghost use Rattle.commit_graph.specs.Faults.{KeepsObjects};
ghost use Rattle.commit_graph.specs.Histories.{InHistory, CoversHistory, ListsCommit};

use crate::follow::follow_parents;
use crate::root::{commit, is_named};
use crate::visited::Visited;
use crate::{GetFault, Objects};
use rad_base::Oid;
use std::alloc::Global;
use std::marker::Model;

/// Whether the commit `old` lies in the history of the commit `new`: parent links alone lead from
/// `new` to it. A commit lies in its own history. Each commit of the history is looked up at most
/// once. `Err` is the fault of a look-up, or `NoMemory`.
pub fn in_history<O: Objects>(
    alloc: Global,
    objects: &mut O,
    old: &Oid,
    new: &Oid,
) -> Result<bool, GetFault>
    ensures told { ForSome (O.content objects.old) (λ m. IfOk result (λ is. IsTrue is
        ↔ InHistory m old.now new.now)) }
    ensures keeps { KeepsObjects O.content O.beside O.places O.faults Some objects.old objects.new
        result }
    ensures looked { ForSome (O.content objects.old) (λ m. (commits : List Oid)
        → CoversHistory m new.now commits
        → O.looks objects.new ≤ O.looks objects.old + length commits) }
{
    let mut found = Visited::new(alloc);
    let mut buffer = Vec::new(alloc);
    found.add(commit(*new))?;
    let mut i = 0;
    while i < found.len() {
        let pair = found.at(i);
        if is_named(pair, old) {
            return Ok(true);
        }
        follow_parents(objects, &mut found, pair, &mut buffer)?;
        i += 1;
    }
    Ok(false)
}

/// The commits of a history, as a set. Contracts see it as the list of them, each as a commit.
#[derive(Drop)]
pub struct History {
    found: Visited,
}

impl Model for History {
    ghost use Rattle.std.specs.Prelude.{List};
    ghost use Rattle.commit_graph.specs.declared.root.Root.{Root};

    ghost Value = { List Root };

    ghost view = { λ history. history.found };
}

impl History {
    /// Whether the commit is one of them.
    pub fn contains(&self, oid: &Oid) -> bool
        ensures { IsTrue result ↔ ListsCommit self.now oid.now }
    {
        self.found.contains(commit(*oid))
    }
}

/// The history of a commit: the commits to which parent links alone lead from it, itself included.
/// Each is looked up at most once. `Err` is the fault of a look-up, or `NoMemory`.
pub fn history_of<O: Objects>(
    alloc: Global,
    objects: &mut O,
    new: &Oid,
) -> Result<History, GetFault>
    ensures told { ForSome (O.content objects.old) (λ m. IfOk result (λ history. (old : Oid)
        → ListsCommit history old ↔ InHistory m old new.now)) }
    ensures keeps { KeepsObjects O.content O.beside O.places O.faults Some objects.old objects.new
        result }
    ensures looked { ForSome (O.content objects.old) (λ m. (commits : List Oid)
        → CoversHistory m new.now commits
        → O.looks objects.new ≤ O.looks objects.old + length commits) }
{
    let mut found = Visited::new(alloc);
    let mut buffer = Vec::new(alloc);
    found.add(commit(*new))?;
    let mut i = 0;
    while i < found.len() {
        let pair = found.at(i);
        follow_parents(objects, &mut found, pair, &mut buffer)?;
        i += 1;
    }
    Ok(History { found })
}
