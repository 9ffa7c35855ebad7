// What a walk comes to, with the links that it followed.
ghost use Rattle.std.specs.Prelude.{◌≡◌, ◌≤◌, ◌+◌, List, length, IfOk};
ghost use Rattle.std.specs.Option.{ForSome};
ghost use Rattle.commit_graph.specs.Faults.{KeepsObjects};
ghost use Rattle.commit_graph.specs.Closures.{CoversReached};
ghost use Rattle.commit_graph.specs.Webs.{IsWeb};

use crate::backward::Backward;
use crate::look::{Looked, look};
use crate::visited::Visited;
use crate::{GetFault, Objects, Root};
use std::alloc::Global;
use std::collections::BTreeSet;

/// The links of all that is reached, backwards, and of what is reached the pairs without an object
/// and those whose object is unfit.
#[derive(Drop)]
pub(crate) struct Web {
    pub(crate) back: Backward,
    pub(crate) missing: BTreeSet<Root>,
    pub(crate) unfit: BTreeSet<Root>,
}

/// Follows all links from the roots. Each pair that is reached is looked up at most once.
pub(crate) fn walk<O: Objects>(
    alloc: Global,
    objects: &mut O,
    roots: &[Root],
) -> Result<Web, GetFault>
    ensures told { ForSome (O.content objects.old) (λ m. IfOk result (IsWeb m roots.now)) }
    ensures keeps { KeepsObjects O.content O.beside O.places O.faults Some objects.old objects.new
        result }
    ensures looked { ForSome (O.content objects.old) (λ m. (pairs : List Root)
        → CoversReached m roots.now pairs
        → O.looks objects.new ≤ O.looks objects.old + length pairs) }
{
    let mut found = Visited::new(alloc);
    let mut buffer = Vec::new(alloc);
    let mut back = Backward::new(alloc);
    let mut missing = BTreeSet::new(alloc);
    let mut unfit = BTreeSet::new(alloc);
    found.extend(roots)?;
    let mut i = 0;
    while i < found.len() {
        let pair = found.at(i);
        match look(objects, pair, &mut buffer)? {
            Looked::Missing => {
                missing.insert(pair)?;
            }
            Looked::Unfit => {
                unfit.insert(pair)?;
            }
            Looked::Fit(links) => {
                found.follow(links)?;
                back.add_links(alloc, pair, links)?;
            }
        }
        i += 1;
    }
    Ok(Web {
        back,
        missing,
        unfit,
    })
}
