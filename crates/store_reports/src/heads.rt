// The heads of the repositories of a store.
ghost use Rattle.std.specs.Prelude.{◌≡◌, ◌∷◌, [], List, IfOk, IsTrue, OnOk};
ghost use Rattle.std.specs.BTreeMap.{get};
ghost use Rattle.std.specs.Option.{is_some};
ghost use Rattle.rad_base.specs.Order.{rid_cmp};
ghost use Rattle.repo_entries.specs.Items.{Item};
ghost use Rattle.legal_history.specs.Replays.{replay};
ghost use Rattle.object_store.specs.Installs.{HasIdentityAt};
ghost use Rattle.object_store.specs.Stores.{StandsFor, StandsForSome};
ghost use Rattle.store_reports.specs.Parts.{AddsHeads};
ghost use Rattle.store_reports.specs.Reports.{IsHeadsReport};

use object_store::Store;
use rad_base::{Bytes, NoMemory, Rid};
use rad_outside::Disk;
use report_texts::push_head_of;
use std::alloc::Global;

/// What `heads` prints: each repository with an identity, rising, with its canonical head.
/// `NoMemory`: memory was refused.
pub fn heads_report<D: Disk>(alloc: Global, store: &mut Store<D>) -> Result<Bytes, NoMemory>
    requires { StandsForSome store.old }
    ensures same { store.new ≡ store.old }
    ensures report { (items : List Item) → StandsFor store.old items
        → IfOk result (IsHeadsReport store.old.keyring items) }
{
    let rids = store.repositories(alloc)?;
    let mut text = Vec::new(alloc);
    push_heads(alloc, &mut text, store, rids.as_slice())?;
    Ok(Bytes::of(text))
}

// Adds the lines of those of some repositories that have an identity.
fn push_heads<D: Disk>(
    alloc: Global,
    text: &mut Vec<u8>,
    store: &mut Store<D>,
    rids: &[Rid],
) -> Result<(), NoMemory>
    requires { StandsForSome store.old }
    ensures same { store.new ≡ store.old }
    ensures lines { (items : List Item) → StandsFor store.old items
        → OnOk result (AddsHeads store.old.keyring items rids.now text.old.items text.new.items) }
{
    for rid in rids {
        push_own_head(alloc, text, store, rid)?;
    }
    Ok(())
}

// Adds the line of a repository, if it has an identity.
fn push_own_head<D: Disk>(
    alloc: Global,
    text: &mut Vec<u8>,
    store: &mut Store<D>,
    rid: &Rid,
) -> Result<(), NoMemory>
    requires { StandsForSome store.old }
    ensures same { store.new ≡ store.old }
    ensures line { (items : List Item) → StandsFor store.old items
        → OnOk result (AddsHeads store.old.keyring items (rid.now ∷ [])
        text.old.items text.new.items) }
{
    if !has_identity(store, rid) {
        return Ok(());
    }
    match store.head(alloc, rid, 0) {
        Ok(head) => push_head_of(text, rid, &head),
        Err(_) => Err(NoMemory),
    }
}

/// Whether a repository has an identity.
pub(crate) fn has_identity<D: Disk>(store: &Store<D>, rid: &Rid) -> bool
    requires { StandsForSome store.now }
    ensures known { IsTrue result → HasIdentityAt (get rid_cmp store.now.repositories rid.now) }
    ensures told { (items : List Item) → StandsFor store.now items
        → result ≡ is_some (replay rid.now items).id }
{
    match store.slice(rid) {
        Some(slice) => slice.id().is_some(),
        None => false,
    }
}
