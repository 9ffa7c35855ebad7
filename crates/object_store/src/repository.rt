// The repositories of a store: each with its slice and who claimed it.
ghost use Rattle.std.specs.Prelude.{◌≡◌, ◌≢◌, ◌++◌, ℕ, IfErr, IfOk, OnErr, OnOk};
ghost use Rattle.std.specs.BTreeMap.{get};
ghost use Rattle.rad_base.specs.Order.{rid_cmp};
ghost use Rattle.rad_base.specs.declared.names.Rid.{Rid};
ghost use Rattle.commit_graph.specs.InMemory.{objects_in};
ghost use Rattle.repo_entries.specs.Items.{names_of};
ghost use Rattle.repo_slice.specs.Slices.{HasNothingStaged, IsCertain, IsReady, objects_of};
ghost use Rattle.repo_slice.specs.Slices.{Brings, pending_of, state_of};
ghost use Rattle.object_store.specs.Repositories.{HasStagedPut, IsAdmitted, IsCauseOf, IsClaimed};
ghost use Rattle.object_store.specs.Repositories.{IsIdle, IsPrepared, IsSame, claimant_at, own_rid};

use crate::ClaimFault;
use rad_base::{NoMemory, Rid};
use repo_slice::{Batch, Entry, Slice};
use std::alloc::Global;
use std::collections::BTreeMap;

/// A repository of a store.
#[derive(Drop)]
pub(crate) struct Repository {
    pub(crate) slice: Slice,
    // Who claimed it in this run, or 0.
    pub(crate) claimant: u64,
}

// The entry of a put.
fn put_entry(alloc: Global, rid: &Rid, caller: u64, batch: &Batch) -> Result<Entry, NoMemory>
    ensures { IfOk result (λ entry. entry ≡ Entry.Put rid.now (names_of batch.now) caller) }
{
    Ok(Entry::Put {
        rid: *rid,
        names: batch.names(alloc)?,
        caller,
    })
}

// Stages a put in a slice.
fn stage_put(alloc: Global, slice: &mut Slice, entry: &Entry, batch: &Batch) -> Result<(), NoMemory>
    requires { (caller : ℕ) ×
        (entry.now ≡ Entry.Put (state_of slice.old).rid (names_of batch.now) caller) }
    ensures there { objects_of slice.new ≡ objects_of slice.old }
    ensures state { state_of slice.new ≡ state_of slice.old }
    ensures idle { OnErr result (HasNothingStaged slice.new) }
    ensures staged { OnOk result
        (pending_of slice.new ≡ objects_in (slice.old.objects.objects ++ batch.now)) }
    ensures ready { OnOk result (IsReady slice.new entry.now × IsCertain slice.new entry.now) }
{
    slice.stage(alloc, entry, batch)
}

// Stages a put in a repository, and makes its entry.
pub(crate) fn stage_put_at(
    alloc: Global,
    all: &mut BTreeMap<Rid, Repository>,
    rid: &Rid,
    caller: u64,
    batch: &Batch,
) -> Result<Entry, NoMemory>
    ensures others { (other : Rid) → other ≢ rid.now
        → get rid_cmp all.new other ≡ get rid_cmp all.old other }
    ensures same { IsSame (get rid_cmp all.old rid.now) (get rid_cmp all.new rid.now) }
    ensures idle { OnErr result (IsIdle (get rid_cmp all.old rid.now)
        → IsIdle (get rid_cmp all.new rid.now)) }
    ensures entry { IfOk result (λ entry. entry
        ≡ Entry.Put (own_rid (get rid_cmp all.old rid.now) rid.now) (names_of batch.now) caller) }
    ensures staged { OnOk result (HasStagedPut batch.now (get rid_cmp all.old rid.now)
        (get rid_cmp all.new rid.now)) }
    ensures prepared { IfOk result (λ entry. IsPrepared entry (get rid_cmp all.new rid.now)) }
{
    match all.get_mut(rid) {
        None => put_entry(alloc, rid, caller, batch),
        Some(repository) => {
            let entry = put_entry(alloc, repository.slice.rid(), caller, batch)?;
            stage_put(alloc, &mut repository.slice, &entry, batch)?;
            Ok(entry)
        }
    }
}

// Lets what is staged in a slice stand. It takes no memory.
fn admit(alloc: Global, slice: &mut Slice, entry: &Entry)
    requires ready { IsReady slice.old entry.now }
    requires certain { IsCertain slice.old entry.now }
    ensures there { objects_of slice.new ≡ pending_of slice.old }
    ensures state { Brings (state_of slice.old) entry.now (state_of slice.new) }
    ensures none { HasNothingStaged slice.new }
{
    let _admitted = slice.admit(alloc, entry);
}

// Lets what is staged in a repository stand. It takes no memory.
pub(crate) fn admit_at(alloc: Global, all: &mut BTreeMap<Rid, Repository>, rid: &Rid, entry: &Entry)
    requires { IsPrepared entry.now (get rid_cmp all.old rid.now) }
    ensures others { (other : Rid) → other ≢ rid.now
        → get rid_cmp all.new other ≡ get rid_cmp all.old other }
    ensures admitted { IsAdmitted entry.now (get rid_cmp all.old rid.now)
        (get rid_cmp all.new rid.now) }
{
    if let Some(repository) = all.get_mut(rid) {
        admit(alloc, &mut repository.slice, entry);
    }
}

// Lets go of what is staged in a repository. It takes no memory.
pub(crate) fn unstage_at(all: &mut BTreeMap<Rid, Repository>, rid: &Rid)
    ensures others { (other : Rid) → other ≢ rid.now
        → get rid_cmp all.new other ≡ get rid_cmp all.old other }
    ensures same { IsSame (get rid_cmp all.old rid.now) (get rid_cmp all.new rid.now) }
    ensures idle { IsIdle (get rid_cmp all.new rid.now) }
{
    if let Some(repository) = all.get_mut(rid) {
        unstage(&mut repository.slice);
    }
}

// Lets go of what is staged in a slice. It takes no memory.
fn unstage(slice: &mut Slice)
    ensures there { objects_of slice.new ≡ objects_of slice.old }
    ensures state { state_of slice.new ≡ state_of slice.old }
    ensures none { HasNothingStaged slice.new }
{
    slice.unstage();
}

// Lets a caller claim a repository that nobody claimed, and makes it where there is none.
pub(crate) fn claim_at(
    alloc: Global,
    all: &mut BTreeMap<Rid, Repository>,
    rid: &Rid,
    caller: u64,
) -> Result<(), ClaimFault>
    ensures others { (other : Rid) → other ≢ rid.now
        → get rid_cmp all.new other ≡ get rid_cmp all.old other }
    ensures ok { OnOk result (claimant_at (get rid_cmp all.old rid.now) ≡ 0) }
    ensures claimed { OnOk result (IsClaimed rid.now caller (get rid_cmp all.old rid.now)
        (get rid_cmp all.new rid.now)) }
    ensures same { OnErr result (get rid_cmp all.new rid.now ≡ get rid_cmp all.old rid.now) }
    ensures by { IfErr result (λ fault. IsCauseOf (claimant_at (get rid_cmp all.old rid.now))
        fault) }
{
    let fresh = Repository {
        slice: Slice::new(alloc, rid),
        claimant: caller,
    };
    match all.get_mut(rid) {
        None => {}
        Some(repository) => return claim(repository, caller),
    }
    match all.insert(*rid, fresh) {
        Ok(_) => Ok(()),
        Err(_) => Err(ClaimFault::NoMemory),
    }
}

// Lets a caller claim a repository.
fn claim(repository: &mut Repository, caller: u64) -> Result<(), ClaimFault>
    ensures slice { repository.new.slice ≡ repository.old.slice }
    ensures claimed { OnOk result ((repository.old.claimant ≡ 0)
        × (repository.new.claimant ≡ caller)) }
    ensures same { OnErr result (repository.new ≡ repository.old) }
    ensures by { IfErr result (λ fault. IsCauseOf repository.old.claimant fault) }
{
    if repository.claimant != 0 {
        return Err(ClaimFault::Claimed(repository.claimant));
    }
    repository.claimant = caller;
    Ok(())
}
