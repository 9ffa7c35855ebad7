// A keep over a store.
ghost use Rattle.std.specs.Prelude.{◌≡◌, ◌≤◌, IsTrue};
ghost use Rattle.rad_base.specs.declared.names.Rid.{Rid};
ghost use Rattle.object_store.specs.Held.{IsUnclaimed};
ghost use Rattle.object_store.specs.Stores.{StandsForSome};
ghost use Rattle.store_keep.specs.Kept.{constants_of};

use crate::calls::{have_for, head_for, install_for, put_for, wants_for};
use canonical_head::answer::Head;
use object_store::{KeepFault, Store};
use rad_base::{Nids, NoMemory, Offer, Oids, Rid};
use rad_outside::Disk;
use repo_entries::{Batch, Whole};
use repo_slice::{Judged, Keep, Scope, Stage};
use std::alloc::Global;
use std::marker::Model;

/// A keep over a store, for one caller. It claims a repository at its first call for it, and stands
/// for each repository that nobody else claimed. It tells the objects of each. Contracts see the
/// store and the caller's number.
#[derive(Drop)]
pub struct StoreKeep<D> {
    alloc: Global,
    store: Store<D>,
    caller: u64,
}

impl<D> Model for StoreKeep<D> {
    ghost use Rattle.std.specs.Coded.{codes};
    ghost use Rattle.keyring.specs.Contents.{coded_contents};
    ghost use Rattle.object_store.specs.Codes.{coded_places, coded_repositories};
    ghost use Rattle.store_keep.specs.Kept.{IsKept, Kept};

    ghost Value = { Kept D };

    ghost coded = { Prim.hlevel (codes, coded_contents, coded_places, coded_repositories) };

    ghost view = { λ keep. record { store = keep.store; caller = keep.caller } };

    ghost invariant = { λ keep. IsKept (record { store = keep.store; caller = keep.caller }) };
}

impl<D> StoreKeep<D> {
    /// A keep over a store for a caller, whose number is not 0. It takes no memory.
    pub fn new(alloc: Global, store: Store<D>, caller: u64) -> Self
        requires stands { StandsForSome store }
        requires caller { 1 ≤ caller }
        ensures store { result.store ≡ store }
        ensures caller { result.caller ≡ caller }
        ensures stands { IsUnclaimed store → (rid : Rid)
            → IsTrue ((constants_of result).stands rid) }
    {
        StoreKeep {
            alloc,
            store,
            caller,
        }
    }

    /// The store.
    pub fn store(&self) -> &Store<D>
        ensures store { result.now ≡ self.now.store }
        ensures stands { StandsForSome self.now.store }
    {
        &self.store
    }

    /// Gives the store back.
    pub fn into_store(self) -> Store<D>
        ensures store { result ≡ self.store }
        ensures stands { StandsForSome self.store }
    {
        self.store
    }
}

impl<D: Disk> Keep for StoreKeep<D> {
    ghost use Rattle.object_store.specs.Held.{held_at};
    ghost use Rattle.store_keep.specs.Kept.{constants_of};
    ghost use Rattle.store_keep.specs.Made.{IsMade, Start};

    ghost Origin = { Start D };

    ghost made = { λ keep origin items. IsMade D.reads_as D.images D.moment D.images_since
        keep.store origin items };

    ghost held = { λ keep rid. held_at keep.store rid };

    ghost constants = { λ keep. constants_of keep };

    ghost end = { λ keep. keep.store.journal.end };

    ghost faults = { λ keep. D.faults keep.store.journal.disk };

    ghost loan = { λ keep. D.loan keep.store.journal.disk };

    fn have(&mut self, rid: &Rid) -> Result<Oids, NoMemory> {
        have_for(self.alloc, &mut self.store, rid, self.caller)
    }

    fn wants(
        &mut self,
        rid: &Rid,
        offer: &Offer,
        scope: &Scope,
        stage: Stage,
    ) -> Result<Nids, KeepFault> {
        let store = &mut self.store;
        wants_for(self.alloc, store, rid, self.caller, offer, scope, stage)
    }

    fn put(&mut self, rid: &Rid, batch: &Batch) -> Result<(), KeepFault> {
        put_for(self.alloc, &mut self.store, rid, self.caller, batch)
    }

    fn install(
        &mut self,
        rid: &Rid,
        offer: &Offer,
        scope: &Scope,
    ) -> Result<Result<Judged, Whole>, KeepFault> {
        install_for(self.alloc, &mut self.store, rid, self.caller, offer, scope)
    }

    fn head(&mut self, rid: &Rid) -> Result<Head, KeepFault> {
        head_for(self.alloc, &mut self.store, rid, self.caller)
    }
}
