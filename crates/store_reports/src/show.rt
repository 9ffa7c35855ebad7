// The repositories of a store, and what each has.
ghost use Rattle.std.specs.Prelude.{◌≡◌, List, Contains, Some, IfOk, OnOk};
ghost use Rattle.rad_base.specs.declared.names.Rid.{Rid};
ghost use Rattle.rad_base.specs.Order.{commit_of};
ghost use Rattle.keyring.specs.Contents.{Contents};
ghost use Rattle.repo_entries.specs.Items.{Item};
ghost use Rattle.repo_slice.specs.Good.{IsGood};
ghost use Rattle.repo_slice.specs.Slices.{objects_of, state_of};
ghost use Rattle.object_store.specs.Shown.{ShowsRepository};
ghost use Rattle.object_store.specs.Stores.{StandsFor};
ghost use Rattle.store_reports.specs.Parts.{AddsAll, AddsRemote, AddsRemotes, AddsRepository, AddsSlice};
ghost use Rattle.store_reports.specs.Reports.{IsShowReport};

use object_store::Store;
use rad_base::{Bytes, Nid, NoMemory, Oid, Rid};
use rad_outside::Disk;
use repo_slice::Slice;
use report_texts::{ShownRemote, push_remote, push_repository};
use std::alloc::Global;

/// What `show` prints: each repository that a put or an install names, rising, with its identity
/// and its remotes. `NoMemory`: memory was refused.
pub fn show_report<D: Disk>(alloc: Global, store: &Store<D>) -> Result<Bytes, NoMemory>
    ensures { (items : List Item) → StandsFor store.now items
        → IfOk result (IsShowReport items) }
{
    let rids = store.repositories(alloc)?;
    let mut text = Vec::new(alloc);
    push_all(alloc, &mut text, store, rids.as_slice())?;
    Ok(Bytes::of(text))
}

// Adds the lines of some repositories.
fn push_all<D: Disk>(
    alloc: Global,
    text: &mut Vec<u8>,
    store: &Store<D>,
    rids: &[Rid],
) -> Result<(), NoMemory>
    ensures { (items : List Item) → StandsFor store.now items
        → ((rid : Rid) → Contains rids.now rid → ShowsRepository rid items)
        → OnOk result (AddsAll items rids.now text.old.items text.new.items) }
{
    for rid in rids {
        push_one(alloc, text, store, rid)?;
    }
    Ok(())
}

// Adds the lines of a repository.
fn push_one<D: Disk>(
    alloc: Global,
    text: &mut Vec<u8>,
    store: &Store<D>,
    rid: &Rid,
) -> Result<(), NoMemory>
    ensures { (items : List Item) → StandsFor store.now items → ShowsRepository rid.now items
        → OnOk result (AddsRepository items rid.now text.old.items text.new.items) }
{
    match store.slice(rid) {
        Some(slice) => push_slice(alloc, text, slice),
        None => Ok(()),
    }
}

// Adds the lines of a slice that is good under some keyring.
fn push_slice(alloc: Global, text: &mut Vec<u8>, slice: &Slice) -> Result<(), NoMemory>
    ensures { (keyring : Contents) → IsGood (objects_of slice.now) keyring (state_of slice.now)
        → OnOk result (AddsSlice (objects_of slice.now) (state_of slice.now)
        text.old.items text.new.items) }
{
    push_repository(text, slice.rid(), slice.id())?;
    push_remotes(alloc, text, slice)
}

// Adds the lines of its remotes.
fn push_remotes(alloc: Global, text: &mut Vec<u8>, slice: &Slice) -> Result<(), NoMemory>
    ensures { (keyring : Contents) → IsGood (objects_of slice.now) keyring (state_of slice.now)
        → OnOk result (AddsRemotes (objects_of slice.now) (state_of slice.now).remotes
        text.old.items text.new.items) }
{
    for (node, commit) in slice.remotes().as_slice() {
        push_own_remote(alloc, text, slice, node, commit)?;
    }
    Ok(())
}

// Adds the line of one of its remotes.
fn push_own_remote(
    alloc: Global,
    text: &mut Vec<u8>,
    slice: &Slice,
    node: &Nid,
    commit: &Oid,
) -> Result<(), NoMemory>
    ensures { (keyring : Contents) → IsGood (objects_of slice.now) keyring (state_of slice.now)
        → commit_of (state_of slice.now).remotes node.now ≡ Some commit.now
        → OnOk result (AddsRemote (objects_of slice.now) (node.now, commit.now)
        text.old.items text.new.items) }
{
    match slice.refs_of(alloc, node) {
        Ok(Some(refs)) => {
            let remote = ShownRemote {
                node: *node,
                commit: *commit,
                lines: refs.as_slice().len(),
            };
            push_remote(text, &remote)
        }
        // Each remote of a good slice has refs.
        Ok(None) => Ok(()),
        Err(_) => Err(NoMemory),
    }
}
