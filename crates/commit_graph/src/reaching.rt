// The names that are reached from some roots.
ghost use Rattle.std.specs.Prelude.{◌≡◌, ◌≤◌, ◌+◌, ◌↔◌, ◌⊎◌, IsTrue, IfOk, OnOk};
ghost use Rattle.std.specs.Prelude.{List, Contains, length};
ghost use Rattle.std.specs.Option.{ForSome};
ghost use Rattle.std.specs.List.Sorted.{IsStrictlySortedBy};
ghost use Rattle.std.specs.BTreeSet.{contains, IsOrdered};
ghost use Rattle.rad_base.specs.Order.{oid_cmp};
ghost use Rattle.commit_graph.specs.Faults.{KeepsObjects};
ghost use Rattle.commit_graph.specs.Closures.{IsReached, IsReachedName, HasName, CoversReached};

use crate::follow::follow_links;
use crate::visited::Visited;
use crate::{GetFault, Objects, Root};
use rad_base::{Oid, Oids};
use std::alloc::{AllocError, Global};
use std::collections::BTreeSet;

/// The pairs that are reached, each once.
fn walk<O: Objects>(alloc: Global, objects: &mut O, roots: &[Root]) -> Result<Visited, GetFault>
    ensures told { ForSome (O.content objects.old) (λ m. IfOk result (λ found. (pair : Root)
        → Contains found pair ↔ IsReached m roots.now pair)) }
    ensures keeps { KeepsObjects O.content O.beside O.places O.faults Some objects.old objects.new
        result }
    ensures looked { ForSome (O.content objects.old) (λ m. (pairs : List Root)
        → CoversReached m roots.now pairs
        → O.looks objects.new ≤ O.looks objects.old + length pairs) }
{
    let mut found = Visited::new(alloc);
    let mut buffer = Vec::new(alloc);
    found.extend(roots)?;
    let mut i = 0;
    while i < found.len() {
        let pair = found.at(i);
        follow_links(objects, &mut found, pair, &mut buffer)?;
        i += 1;
    }
    Ok(found)
}

/// Adds the names of the pairs; only some of them where memory is refused.
pub(crate) fn add_names(names: &mut BTreeSet<Oid>, pairs: &[Root]) -> Result<(), AllocError>
    ensures all { OnOk result ((oid : Oid) → HasName pairs.now oid
        → IsTrue (contains oid_cmp names.new oid)) }
    ensures only { (oid : Oid) → IsTrue (contains oid_cmp names.new oid)
        → IsTrue (contains oid_cmp names.old oid) ⊎ HasName pairs.now oid }
    ensures kept { (oid : Oid) → IsTrue (contains oid_cmp names.old oid)
        → IsTrue (contains oid_cmp names.new oid) }
{
    for pair in pairs {
        names.insert(pair.oid)?;
    }
    Ok(())
}

// The names of the set, rising.
fn keys_of(alloc: Global, names: &BTreeSet<Oid>) -> Result<Vec<Oid>, AllocError>
    ensures keys { IfOk result (λ list. list.items ≡ names.now.keys) }
    ensures ordered { IsOrdered oid_cmp names.now }
{
    names.iter().copied().collect(alloc)
}

// The names of the pairs, rising.
fn names_of(alloc: Global, pairs: &[Root]) -> Result<Vec<Oid>, AllocError>
    ensures rising { IfOk result (λ list. IsStrictlySortedBy oid_cmp list.items) }
    ensures names { IfOk result
        (λ list. (oid : Oid) → Contains list.items oid ↔ HasName pairs.now oid) }
{
    let mut names = BTreeSet::new(alloc);
    add_names(&mut names, pairs)?;
    let list = keys_of(alloc, &names)?;
    Ok(list)
}

/// The names that are reached from the roots, rising, each once, also those without an object. Each
/// pair that is reached is looked up at most once. `Err` is the fault of a look-up, or `NoMemory`.
pub fn reached<O: Objects>(alloc: Global, objects: &mut O, roots: &[Root]) -> Result<Oids, GetFault>
    ensures rising { IfOk result (IsStrictlySortedBy oid_cmp) }
    ensures told { ForSome (O.content objects.old)
        (λ m. IfOk result (λ names. (oid : Oid) → Contains names oid
        ↔ IsReachedName m roots.now oid)) }
    ensures keeps { KeepsObjects O.content O.beside O.places O.faults Some objects.old objects.new
        result }
    ensures looked { ForSome (O.content objects.old) (λ m. (pairs : List Root)
        → CoversReached m roots.now pairs
        → O.looks objects.new ≤ O.looks objects.old + length pairs) }
{
    let found = walk(alloc, objects, roots)?;
    let names = names_of(alloc, found.as_slice())?;
    Ok(Oids::of(names))
}
