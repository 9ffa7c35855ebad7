// Whether all that some roots reach is there and well formed.
ghost use Rattle.std.specs.Prelude.{◌≡◌, ◌≤◌, ◌+◌, List, length, IfOk};
ghost use Rattle.std.specs.Option.{ForSome};
ghost use Rattle.commit_graph.specs.Faults.{KeepsObjects};
ghost use Rattle.commit_graph.specs.Closures.{CoversReached, IsClosure};
ghost use Rattle.commit_graph.specs.Looks.{IsLesser, answer_of};

use crate::answer::Closure;
use crate::look::{Looked, look};
use crate::visited::Visited;
use crate::{GetFault, Objects, Root};
use rad_base::Oid;
use std::alloc::Global;
use std::cmp::Ordering;

/// The lesser of the least name so far, if there is one, and one more.
pub fn lesser(best: Option<Oid>, oid: Oid) -> Oid
    ensures { IsLesser best oid result }
{
    match best {
        None => oid,
        Some(other) => {
            if oid.cmp(&other) == Ordering::Less {
                oid
            } else {
                other
            }
        }
    }
}

pub(crate) fn answer(missing: Option<Oid>, unfit: Option<Oid>) -> Closure
    ensures { result ≡ answer_of missing unfit }
{
    match (missing, unfit) {
        (Some(oid), _) => Closure::Missing(oid),
        (None, Some(oid)) => Closure::BadObject(oid),
        (None, None) => Closure::Closed,
    }
}

/// Whether all that the roots reach is there, of its expected kind and well formed. Each pair that
/// is reached is looked up at most once. `Err` is the fault of a look-up, or `NoMemory`.
pub fn closure<O: Objects>(
    alloc: Global,
    objects: &mut O,
    roots: &[Root],
) -> Result<Closure, GetFault>
    ensures told { ForSome (O.content objects.old) (λ m. IfOk result (IsClosure m roots.now)) }
    ensures keeps { KeepsObjects O.content O.beside O.places O.faults Some objects.old objects.new
        result }
    ensures looked { ForSome (O.content objects.old) (λ m. (pairs : List Root)
        → CoversReached m roots.now pairs
        → O.looks objects.new ≤ O.looks objects.old + length pairs) }
{
    let mut found = Visited::new(alloc);
    let mut buffer = Vec::new(alloc);
    found.extend(roots)?;
    let mut missing = None;
    let mut unfit = None;
    let mut i = 0;
    while i < found.len() {
        let pair = found.at(i);
        match look(objects, pair, &mut buffer)? {
            Looked::Missing => missing = Some(lesser(missing, pair.oid)),
            Looked::Unfit => unfit = Some(lesser(unfit, pair.oid)),
            Looked::Fit(links) => found.follow(links)?,
        }
        i += 1;
    }
    Ok(answer(missing, unfit))
}
