// One step of a walk, with the list into which it reads links.
ghost use Rattle.std.specs.Prelude.{◌≡◌, ◌≤◌, ◌+◌, OnOk};
ghost use Rattle.std.specs.Option.{ForSome};
ghost use Rattle.commit_graph.specs.Faults.{KeepsObjects};
ghost use Rattle.commit_graph.specs.Lists.{Follows};
ghost use Rattle.commit_graph.specs.Pairs.{IsLink};
ghost use Rattle.commit_graph.specs.Histories.{IsParent};

use crate::look::{Looked, look};
use crate::visited::Visited;
use crate::{GetFault, Objects, Root};
use git_object::LinkTo;

/// Adds those of the links of a pair that are not there yet.
pub(crate) fn follow_links<O: Objects>(
    objects: &mut O,
    found: &mut Visited,
    pair: Root,
    buffer: &mut Vec<LinkTo>,
) -> Result<(), GetFault>
    ensures told { ForSome (O.content objects.old)
        (λ m. OnOk result (Follows (IsLink m) pair found.old found.new)) }
    ensures keeps { KeepsObjects O.content O.beside O.places O.faults Some objects.old objects.new
        result }
    ensures looked { O.looks objects.new ≤ O.looks objects.old + 1 }
{
    match look(objects, pair, buffer)? {
        Looked::Fit(links) => Ok(found.follow(links)?),
        Looked::Missing | Looked::Unfit => Ok(()),
    }
}

/// Adds those of the parents of a pair that are not there yet.
pub(crate) fn follow_parents<O: Objects>(
    objects: &mut O,
    found: &mut Visited,
    pair: Root,
    buffer: &mut Vec<LinkTo>,
) -> Result<(), GetFault>
    ensures told { ForSome (O.content objects.old)
        (λ m. OnOk result (Follows (IsParent m) pair found.old found.new)) }
    ensures keeps { KeepsObjects O.content O.beside O.places O.faults Some objects.old objects.new
        result }
    ensures looked { O.looks objects.new ≤ O.looks objects.old + 1 }
{
    match look(objects, pair, buffer)? {
        Looked::Fit(links) => Ok(found.follow_commits(links)?),
        Looked::Missing | Looked::Unfit => Ok(()),
    }
}
