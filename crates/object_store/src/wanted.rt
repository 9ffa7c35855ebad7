// What a repository of a store has, and what it asks for.
ghost use Rattle.std.specs.Prelude.{◌≡◌, ◌≢◌, ◌↔◌, Contains, IfOk};
ghost use Rattle.std.specs.BTreeMap.{get};
ghost use Rattle.rad_base.specs.Order.{rid_cmp};
ghost use Rattle.rad_base.specs.declared.names.Oid.{Oid};
ghost use Rattle.rad_base.specs.declared.names.Rid.{Rid};
ghost use Rattle.repo_slice.specs.Good.{IsGood};
ghost use Rattle.repo_slice.specs.Keeps.{AreRisingNames};
ghost use Rattle.repo_slice.specs.Slices.{objects_of, state_of};
ghost use Rattle.repo_slice.specs.Wanted.{AreAmong, IsWantedList};
ghost use Rattle.object_store.specs.Held.{IsNamedAt, IsNamedOf, IsWantedAt};

use crate::repository::Repository;
use keyring::Keyring;
use rad_base::{Nids, NoMemory, Offer, Oids, Rid};
use repo_slice::{Scope, Slice, Stage, wants};
use slice_names::names_of;
use std::alloc::Global;
use std::collections::BTreeMap;

// The names of the identity and of the remotes' commits of a slice, rising.
fn names_on(alloc: Global, slice: &Slice) -> Result<Oids, NoMemory>
    ensures rising { IfOk result AreRisingNames }
    ensures names { IfOk result (λ oids. (oid : Oid) → Contains oids oid
        ↔ IsNamedOf (state_of slice.now) oid) }
{
    names_of(alloc, slice.id(), slice.remotes().as_slice())
}

// The same of a repository; where there is none, no name.
pub(crate) fn names_at(
    alloc: Global,
    all: &BTreeMap<Rid, Repository>,
    rid: &Rid,
) -> Result<Oids, NoMemory>
    ensures rising { IfOk result AreRisingNames }
    ensures names { IfOk result (λ oids. (oid : Oid) → Contains oids oid
        ↔ IsNamedAt (get rid_cmp all.now rid.now) oid) }
{
    match all.get(rid) {
        None => Ok(Oids::new(alloc)),
        Some(repository) => names_on(alloc, &repository.slice),
    }
}

// What is asked for on a slice, which stays.
fn wants_on(
    alloc: Global,
    slice: &mut Slice,
    offer: &Offer,
    keyring: &Keyring,
    scope: &Scope,
    stage: Stage,
) -> Result<Nids, NoMemory>
    ensures told { IfOk result (λ nodes. IsGood (objects_of slice.old) keyring.now
        (state_of slice.old) → IsWantedList (objects_of slice.old) keyring.now
        (state_of slice.old) offer.now scope.now stage nodes) }
    ensures among { IfOk result (AreAmong offer.now.remotes) }
    ensures stays { slice.new ≡ slice.old }
{
    match wants(alloc, slice, offer, keyring, scope, stage) {
        Ok(nodes) => Ok(nodes),
        Err(_) => Err(NoMemory),
    }
}

// What is asked for on a repository, which stays; where there is none, on an empty one.
pub(crate) fn wants_at(
    alloc: Global,
    all: &mut BTreeMap<Rid, Repository>,
    rid: &Rid,
    offer: &Offer,
    keyring: &Keyring,
    scope: &Scope,
    stage: Stage,
) -> Result<Nids, NoMemory>
    ensures others { (other : Rid) → other ≢ rid.now
        → get rid_cmp all.new other ≡ get rid_cmp all.old other }
    ensures same { get rid_cmp all.new rid.now ≡ get rid_cmp all.old rid.now }
    ensures told { IfOk result (IsWantedAt (get rid_cmp all.old rid.now) rid.now keyring.now
        offer.now scope.now stage) }
    ensures among { IfOk result (AreAmong offer.now.remotes) }
{
    let mut empty = Slice::new(alloc, rid);
    match all.get_mut(rid) {
        None => {}
        Some(repository) => {
            return wants_on(alloc, &mut repository.slice, offer, keyring, scope, stage);
        }
    }
    wants_on(alloc, &mut empty, offer, keyring, scope, stage)
}
