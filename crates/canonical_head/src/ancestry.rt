// The histories of some tips, by one walk.
ghost use Rattle.std.specs.Prelude.{◌≡◌, ◌≤◌, ◌+◌, List, length, IfOk, OnOk};
ghost use Rattle.std.specs.Option.{ForSome};
ghost use Rattle.rad_base.specs.declared.names.Oid.{Oid};
ghost use Rattle.commit_graph.specs.Faults.{KeepsObjects};
ghost use Rattle.canonical_head.specs.Heads.{CoversHistories};
ghost use Rattle.canonical_head.specs.Ancestries.{AddsParents, IsAncestry, IsWellNumbered};

use crate::adjacency::Adjacency;
use crate::numbered::Numbered;
use crate::parents::parents_of;
use commit_graph::{GetFault, Objects};
use rad_base::Oid;
use std::alloc::Global;

/// The parents of the commits in the histories of some tips. Each commit has a number, from 0; the
/// tips come first, each once.
#[derive(Drop)]
pub(crate) struct Ancestry {
    /// The different tips, in the order of their numbers.
    pub(crate) tips: Vec<Oid>,
    /// For the number of each commit those of its parents.
    pub(crate) parents: Adjacency,
}

// Looks up the commit of the next number, and adds the numbers of its parents.
fn add_parents<O: Objects>(
    alloc: Global,
    objects: &mut O,
    commits: &mut Numbered,
    parents: &mut Adjacency,
    oid: &Oid,
) -> Result<(), GetFault>
    ensures told { OnOk result (AddsParents (O.content objects.old) oid.now commits.old commits.new
        parents.old parents.new) }
    ensures keeps { KeepsObjects O.content O.beside O.places O.faults Some objects.old objects.new
        result }
    ensures looked { O.looks objects.new ≤ O.looks objects.old + 1 }
{
    let found = parents_of(alloc, objects, oid)?;
    let row = commits.number_all(alloc, &found)?;
    parents.push(&row)?;
    Ok(())
}

/// Walks the histories of all tips at once. Each commit of them is looked up at most once. `Err` is
/// the fault of a look-up, or `NoMemory`.
pub(crate) fn ancestry_of<O: Objects>(
    alloc: Global,
    objects: &mut O,
    tips: &[Oid],
) -> Result<Ancestry, GetFault>
    ensures sound { IfOk result IsWellNumbered }
    ensures told { ForSome (O.content objects.old) (λ m. IfOk result (IsAncestry m tips.now)) }
    ensures keeps { KeepsObjects O.content O.beside O.places O.faults Some objects.old objects.new
        result }
    ensures looked { ForSome (O.content objects.old) (λ m. (commits : List Oid)
        → CoversHistories m tips.now commits
        → O.looks objects.new ≤ O.looks objects.old + length commits) }
{
    let mut commits = Numbered::new(alloc);
    commits.number_all(alloc, tips)?;
    let count = commits.len();
    let mut parents = Adjacency::new(alloc);
    let mut i = 0;
    while i < commits.len() {
        let oid = commits.at(i);
        add_parents(alloc, objects, &mut commits, &mut parents, &oid)?;
        i += 1;
    }
    let mut different = commits.into_vec();
    different.truncate(count);
    Ok(Ancestry {
        tips: different,
        parents,
    })
}
