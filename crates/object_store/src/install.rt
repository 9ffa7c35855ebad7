// Installs in the repositories of a store.
ghost use Rattle.std.specs.Prelude.{◌≡◌, ◌≢◌, ◌↔◌, ◌≤◌, ℕ, List, length, IfOk, IsTrue, OnErr, OnOk};
ghost use Rattle.rad_base.specs.declared.names.Nid.{Nid};
ghost use Rattle.rad_base.specs.declared.names.Oid.{Oid};
ghost use Rattle.std.specs.BTreeMap.{get};
ghost use Rattle.rad_base.specs.Order.{rid_cmp};
ghost use Rattle.rad_base.specs.declared.names.Rid.{Rid};
ghost use Rattle.repo_slice.specs.Good.{IsGood};
ghost use Rattle.repo_slice.specs.Slices.{HasNothingStaged, IsCertain, IsReady, objects_of};
ghost use Rattle.repo_slice.specs.Slices.{pending_of, pending_state, state_of};
ghost use Rattle.repo_slice.specs.Verdicts.{IsChecked, IsInstalled, IsVerdict};
ghost use Rattle.object_store.specs.Installs.{HasFew, HasStagedInstall, IsThere, IsVerdictAt};
ghost use Rattle.object_store.specs.Installs.{IsWholeAdvance, StagesInstall};
ghost use Rattle.object_store.specs.Repositories.{IsIdle, IsPrepared, IsSame, own_rid};

use crate::repository::Repository;
use keyring::Keyring;
use rad_base::{NoMemory, Offer, Oid, Remotes, Rid};
use repo_slice::{Batch, Entry, IdOutcome, Judged, Scope, Slice, Whole, judge};
use std::alloc::Global;
use std::collections::BTreeMap;

// Makes an empty repository that nobody claimed, where there is none.
pub(crate) fn ensure_at(
    alloc: Global,
    all: &mut BTreeMap<Rid, Repository>,
    rid: &Rid,
) -> Result<(), NoMemory>
    ensures others { (other : Rid) → other ≢ rid.now
        → get rid_cmp all.new other ≡ get rid_cmp all.old other }
    ensures known { OnOk result (IsThere rid.now (get rid_cmp all.old rid.now)
        (get rid_cmp all.new rid.now)) }
{
    if all.get(rid).is_some() {
        return Ok(());
    }
    let fresh = Repository {
        slice: Slice::new(alloc, rid),
        claimant: 0,
    };
    match all.insert(*rid, fresh) {
        Ok(_) => Ok(()),
        Err(_) => Err(NoMemory),
    }
}

// Judges an offer on a slice, which stays.
fn judge_slice(
    alloc: Global,
    slice: &mut Slice,
    offer: &Offer,
    keyring: &Keyring,
    scope: &Scope,
) -> Result<Result<Judged, Whole>, NoMemory>
    requires { length (state_of slice.old).remotes ≤ 1024 }
    ensures told { IfOk result (λ verdict. IsGood (objects_of slice.old) keyring.now
        (state_of slice.old) → IsVerdict (objects_of slice.old) keyring.now (state_of slice.old)
        offer.now scope.now verdict) }
    ensures stays { slice.new ≡ slice.old }
{
    match judge(alloc, slice, offer, keyring, scope) {
        Ok(verdict) => Ok(verdict),
        Err(_) => Err(NoMemory),
    }
}

// Judges an offer on a repository, which stays; where there is none, on an empty one.
pub(crate) fn judge_at(
    alloc: Global,
    all: &mut BTreeMap<Rid, Repository>,
    rid: &Rid,
    offer: &Offer,
    keyring: &Keyring,
    scope: &Scope,
) -> Result<Result<Judged, Whole>, NoMemory>
    requires { HasFew (get rid_cmp all.old rid.now) }
    ensures others { (other : Rid) → other ≢ rid.now
        → get rid_cmp all.new other ≡ get rid_cmp all.old other }
    ensures same { get rid_cmp all.new rid.now ≡ get rid_cmp all.old rid.now }
    ensures told { IfOk result
        (IsVerdictAt (get rid_cmp all.old rid.now) keyring.now offer.now scope.now) }
{
    let mut empty = Slice::new(alloc, rid);
    match all.get_mut(rid) {
        None => {}
        Some(repository) => {
            return judge_slice(alloc, &mut repository.slice, offer, keyring, scope);
        }
    }
    judge_slice(alloc, &mut empty, offer, keyring, scope)
}

// Stages an install in a slice.
fn stage_install(alloc: Global, slice: &mut Slice, entry: &Entry) -> Result<(), NoMemory>
    requires { (id : Oid) × (remotes : List (Nid × Oid)) × (caller : ℕ)
        × (entry.now ≡ Entry.Install (state_of slice.old).rid id remotes caller) }
    ensures there { objects_of slice.new ≡ objects_of slice.old }
    ensures state { state_of slice.new ≡ state_of slice.old }
    ensures idle { OnErr result (HasNothingStaged slice.new) }
    ensures staged { OnOk result (StagesInstall slice.old slice.new entry.now) }
    ensures ready { OnOk result (IsReady slice.new entry.now × IsCertain slice.new entry.now) }
{
    let none = Batch::new(alloc);
    slice.stage(alloc, entry, &none)
}

// Stages an install in a repository, and makes its entry.
pub(crate) fn stage_install_at(
    alloc: Global,
    all: &mut BTreeMap<Rid, Repository>,
    rid: &Rid,
    caller: u64,
    offer: Offer,
) -> Result<Entry, NoMemory>
    ensures others { (other : Rid) → other ≢ rid.now
        → get rid_cmp all.new other ≡ get rid_cmp all.old other }
    ensures same { IsSame (get rid_cmp all.old rid.now) (get rid_cmp all.new rid.now) }
    ensures idle { OnErr result (IsIdle (get rid_cmp all.old rid.now)
        → IsIdle (get rid_cmp all.new rid.now)) }
    ensures entry { IfOk result (λ entry. entry ≡ Entry.Install
        (own_rid (get rid_cmp all.old rid.now) rid.now) offer.id offer.remotes caller) }
    ensures staged { OnOk result (HasStagedInstall offer.id offer.remotes
        (get rid_cmp all.old rid.now) (get rid_cmp all.new rid.now)) }
    ensures prepared { IfOk result (λ entry. IsPrepared entry (get rid_cmp all.new rid.now)) }
{
    let Offer { id, remotes } = offer;
    match all.get_mut(rid) {
        None => Ok(Entry::Install {
            rid: *rid,
            id,
            remotes,
            caller,
        }),
        Some(repository) => {
            let entry = Entry::Install {
                rid: *repository.slice.rid(),
                id,
                remotes,
                caller,
            };
            stage_install(alloc, &mut repository.slice, &entry)?;
            Ok(entry)
        }
    }
}

// Whether two lists have the same remotes.
fn are_same(these: &Remotes, those: &Remotes) -> bool
    ensures { IsTrue result ↔ (these.now ≡ those.now) }
{
    these.as_slice() == those.as_slice()
}

// Whether a verdict leaves no other identity, and advances each of these remotes.
pub(crate) fn is_whole_advance(verdict: &Result<Judged, Whole>, remotes: &Remotes) -> bool
    ensures { IsTrue result ↔ IsWholeAdvance remotes.now verdict.now }
{
    match verdict {
        Err(_) => false,
        Ok(judged) => {
            judged.id_outcome != IdOutcome::Stale && are_same(&judged.advanced, remotes)
        }
    }
}
