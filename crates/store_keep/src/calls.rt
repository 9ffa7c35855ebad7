// Calls of a store for a repository that a caller claims at the first of them.
ghost use Rattle.std.specs.Prelude.{◌≡◌, ◌↔◌, ◌≤◌, [], Contains, IfErr, IfOk, IsErrOf, IsSome};
ghost use Rattle.std.specs.Prelude.{IsTrue, OnOk};
ghost use Rattle.rad_base.specs.Faults.{Rose};
ghost use Rattle.rad_base.specs.declared.names.Oid.{Oid};
ghost use Rattle.repo_entries.specs.Batches.{IsBatch};
ghost use Rattle.repo_slice.specs.Keeps.{AreRisingNames, IsNamedIn, IsNoChange, IsWantedOn};
ghost use Rattle.repo_slice.specs.Wanted.{AreAmong};
ghost use Rattle.object_store.specs.Held.{claimant_of, held_at};
ghost use Rattle.object_store.specs.Stores.{HasClaimed, StandsForSome};
ghost use Rattle.store_keep.specs.Calls.{Adds, Installs, IsHeadFor, Puts};
ghost use Rattle.store_keep.specs.Kept.{constants_at, may_call};

use canonical_head::answer::Head;
use object_store::{ClaimFault, KeepFault, Store};
use rad_base::{Nids, NoMemory, Offer, Oids, Rid};
use rad_outside::Disk;
use repo_entries::{Batch, Whole};
use repo_slice::{Judged, Scope, Stage};
use std::alloc::Global;

// Claims a repository for a caller that may call for it, unless it did.
pub(crate) fn claim_for<D: Disk>(
    alloc: Global,
    store: &mut Store<D>,
    rid: &Rid,
    caller: u64,
) -> Result<(), NoMemory>
    requires caller { 1 ≤ caller }
    requires free { IsTrue (may_call caller (claimant_of store.old rid.now)) }
    requires stands { StandsForSome store.old }
    ensures journal { store.new.journal ≡ store.old.journal }
    ensures stands { StandsForSome store.new }
    ensures claimed { OnOk result (HasClaimed store.new rid.now caller) }
    ensures adds { Adds D.reads_as D.images D.moment D.images_since
        rid.now caller store.old store.new [] }
{
    match store.claim(alloc, rid, caller) {
        Ok(()) => Ok(()),
        Err(ClaimFault::Claimed(_)) => Ok(()),
        Err(ClaimFault::NoMemory) => Err(NoMemory),
    }
}

// The names that a repository has.
pub(crate) fn have_for<D: Disk>(
    alloc: Global,
    store: &mut Store<D>,
    rid: &Rid,
    caller: u64,
) -> Result<Oids, NoMemory>
    requires caller { 1 ≤ caller }
    requires free { IsTrue (may_call caller (claimant_of store.old rid.now)) }
    requires stands { StandsForSome store.old }
    ensures journal { store.new.journal ≡ store.old.journal }
    ensures stands { StandsForSome store.new }
    ensures adds { Adds D.reads_as D.images D.moment D.images_since
        rid.now caller store.old store.new [] }
    ensures rising { IfOk result AreRisingNames }
    ensures names { IfOk result (λ oids. (oid : Oid)
        → Contains oids oid ↔ IsNamedIn (held_at store.old rid.now) oid) }
{
    claim_for(alloc, store, rid, caller)?;
    store.have(alloc, rid)
}

// The offered remotes that are wanted.
pub(crate) fn wants_for<D: Disk>(
    alloc: Global,
    store: &mut Store<D>,
    rid: &Rid,
    caller: u64,
    offer: &Offer,
    scope: &Scope,
    stage: Stage,
) -> Result<Nids, KeepFault>
    requires caller { 1 ≤ caller }
    requires free { IsTrue (may_call caller (claimant_of store.old rid.now)) }
    requires stands { StandsForSome store.old }
    ensures journal { store.new.journal ≡ store.old.journal }
    ensures stands { StandsForSome store.new }
    ensures adds { Adds D.reads_as D.images D.moment D.images_since
        rid.now caller store.old store.new [] }
    ensures fault { IfErr result (λ why. why ≡ KeepFault.NoMemory) }
    ensures wanted { IfOk result (IsWantedOn (constants_at store.old caller)
        (held_at store.old rid.now) offer.now scope.now stage) }
    ensures among { IfOk result (AreAmong offer.now.remotes) }
{
    claim_for(alloc, store, rid, caller)?;
    store.wants(alloc, rid, caller, offer, scope, stage)
}

// Puts objects.
pub(crate) fn put_for<D: Disk>(
    alloc: Global,
    store: &mut Store<D>,
    rid: &Rid,
    caller: u64,
    batch: &Batch,
) -> Result<(), KeepFault>
    requires caller { 1 ≤ caller }
    requires free { IsTrue (may_call caller (claimant_of store.old rid.now)) }
    requires stands { StandsForSome store.old }
    requires batch { IsBatch batch.now }
    ensures loan { D.loan store.new.journal.disk ≡ D.loan store.old.journal.disk }
    ensures later { D.faults store.old.journal.disk ≤ D.faults store.new.journal.disk }
    ensures cause { IsErrOf result KeepFault.DiskFault
        → Rose (D.faults store.old.journal.disk) (D.faults store.new.journal.disk) }
    ensures stands { StandsForSome store.new }
    ensures unchanged { IfErr result IsNoChange }
    ensures puts { Puts D.reads_as D.images D.moment D.images_since
        rid.now caller batch.now store.old store.new result }
{
    claim_for(alloc, store, rid, caller)?;
    store.put(alloc, rid, caller, batch)
}

// Judges an offer, and installs what advances.
pub(crate) fn install_for<D: Disk>(
    alloc: Global,
    store: &mut Store<D>,
    rid: &Rid,
    caller: u64,
    offer: &Offer,
    scope: &Scope,
) -> Result<Result<Judged, Whole>, KeepFault>
    requires caller { 1 ≤ caller }
    requires free { IsTrue (may_call caller (claimant_of store.old rid.now)) }
    requires stands { StandsForSome store.old }
    ensures loan { D.loan store.new.journal.disk ≡ D.loan store.old.journal.disk }
    ensures later { D.faults store.old.journal.disk ≤ D.faults store.new.journal.disk }
    ensures cause { IsErrOf result KeepFault.DiskFault
        → Rose (D.faults store.old.journal.disk) (D.faults store.new.journal.disk) }
    ensures stands { StandsForSome store.new }
    ensures unchanged { IfErr result IsNoChange }
    ensures installs { Installs D.reads_as D.images D.moment D.images_since
        rid.now caller offer.now scope.now store.old
        store.new result }
{
    claim_for(alloc, store, rid, caller)?;
    store.install(alloc, rid, caller, offer, scope)
}

// The canonical head.
pub(crate) fn head_for<D: Disk>(
    alloc: Global,
    store: &mut Store<D>,
    rid: &Rid,
    caller: u64,
) -> Result<Head, KeepFault>
    requires caller { 1 ≤ caller }
    requires free { IsTrue (may_call caller (claimant_of store.old rid.now)) }
    requires stands { StandsForSome store.old }
    requires identity { IsSome (held_at store.old rid.now).state.id }
    ensures journal { store.new.journal ≡ store.old.journal }
    ensures stands { StandsForSome store.new }
    ensures adds { Adds D.reads_as D.images D.moment D.images_since
        rid.now caller store.old store.new [] }
    ensures fault { IfErr result (λ why. why ≡ KeepFault.NoMemory) }
    ensures head { IfOk result (IsHeadFor store.old rid.now) }
{
    claim_for(alloc, store, rid, caller)?;
    store.head(alloc, rid, caller)
}
