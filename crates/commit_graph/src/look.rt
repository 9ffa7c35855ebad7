// One look at a pair.
ghost use Rattle.std.specs.Prelude.{◌≡◌, ◌≤◌, ◌+◌, IfOk, IfErr};
ghost use Rattle.std.specs.Option.{ForSome};
ghost use Rattle.commit_graph.specs.Faults.{IsAskedFor, KeepsObjects};
ghost use Rattle.commit_graph.specs.Looks.{Reads, Shows};

use crate::root::is_expected;
use crate::{GetFault, Objects, Root};
use git_object::{Kind, LinkTo, LinksFault, add_links};

/// What a look at a pair shows. The links lie in the list that the walk keeps.
#[derive(Clone, Copy)]
pub(crate) enum Looked<'a> {
    Missing,
    Unfit,
    Fit(&'a [LinkTo]),
}

/// Puts the links of an object in place of what stands in the list. Whether it is well formed.
pub(crate) fn read(kind: Kind, bytes: &[u8], links: &mut Vec<LinkTo>) -> Result<bool, GetFault>
    ensures read { IfOk result (Reads kind bytes.now links.new.items) }
    ensures refused { IfErr result (λ fault. fault ≡ GetFault.NoMemory) }
{
    links.clear();
    match add_links(kind, bytes, links) {
        Ok(()) => Ok(true),
        Err(LinksFault::Bad(_)) => Ok(false),
        Err(LinksFault::NoMemory) => Err(GetFault::NoMemory),
    }
}

/// Looks up the object of a pair, once, and reads its links into the list that the walk keeps.
pub(crate) fn look<'a, O: Objects>(
    objects: &mut O,
    pair: Root,
    links: &'a mut Vec<LinkTo>,
) -> Result<Looked<'a>, GetFault>
    ensures told { ForSome (O.content objects.old) (λ m. IfOk result (Shows m pair)) }
    ensures keeps { KeepsObjects O.content O.beside O.places O.faults Some objects.old objects.new
        result }
    ensures looked { O.looks objects.new ≤ O.looks objects.old + 1 }
    ensures asked { IfErr result (IsAskedFor pair.oid) }
{
    match objects.get(&pair.oid) {
        Err(fault) => Err(fault),
        Ok(None) => Ok(Looked::Missing),
        Ok(Some((kind, bytes))) => {
            if !is_expected(pair.kind, kind) {
                return Ok(Looked::Unfit);
            }
            if read(kind, bytes, links)? {
                return Ok(Looked::Fit(links));
            }
            Ok(Looked::Unfit)
        }
    }
}
