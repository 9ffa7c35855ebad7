// Each call of a keep over a store of four entries.
mod journal;

ghost use Rattle.std.specs.Prelude.{◌≡◌, IfOk, IsSome, IsTrue};
ghost use Rattle.rad_base.specs.declared.names.Rid.{Rid};
ghost use Rattle.repo_entries.specs.Batches.{IsBatch};
ghost use Rattle.object_store.specs.Held.{IsUnclaimed, held_at};
ghost use Rattle.object_store.specs.Stores.{StandsForSome};
ghost use Rattle.store_keep.specs.Kept.{constants_of};

use crate::*;
use canonical_head::answer::Head;
use git_object::Kind;
use journal::{JOURNAL, KEYRING};
use keyring::Keyring;
use object_store::Store;
use rad_base::{Bytes, Nid, Offer, Oid, Remotes, Rid, parse_oid};
use rad_outside::MemDisk;
use repo_entries::{Batch, Entry};
use repo_slice::{IdOutcome, Keep, Scope, Stage};
use std::alloc::Global;
use std::test::Fail;

// One blob.
fn blob(alloc: Global) -> Result<Batch, Fail>
    ensures { IfOk result IsBatch }
{
    let mut batch = Batch::new(alloc);
    batch.push(Kind::Blob, Bytes::copy_of(alloc, b"hello\n")?)?;
    Ok(batch)
}

// A name in digits.
fn name(text: &[u8]) -> Oid {
    parse_oid(text).unwrap_or(Oid([0; 20]))
}

// The letters of the entries of a store.
fn letters(alloc: Global, store: &Store<MemDisk>) -> Result<String, Fail> {
    let mut line = String::new(alloc);
    for entry in store.history().as_slice() {
        line.push_str(match entry {
            Entry::Claim { .. } => "C",
            Entry::Put { .. } => "P",
            Entry::Install { .. } => "I",
            Entry::Refused { .. } => "R",
            _ => "?",
        })?;
    }
    Ok(line)
}

// What the calls answer that any keep has.
fn asked<K: Keep>(alloc: Global, keep: &mut K, rid: &Rid, offer: &Offer) -> Result<String, Fail>
    requires { IsTrue ((K.constants keep.old).stands rid.now) }
{
    let have = keep.have(rid)?.as_slice().len();
    let wants = keep.wants(rid, offer, &Scope::All, Stage::Sigs);
    let wanted = wants.is_ok_and(|nodes| nodes.as_slice().is_empty());
    let put = keep.put(rid, &blob(alloc)?).is_ok();
    let same = match keep.install(rid, offer, &Scope::All) {
        Ok(Ok(judged)) => judged.id_outcome == IdOutcome::Same,
        _ => false,
    };
    Ok(format!(in alloc; "{have} {wanted} {put} {same}")?)
}

// Whether a store has an identity of a repository.
fn has_identity(store: &Store<MemDisk>, rid: &Rid) -> bool
    requires { StandsForSome store.now }
    ensures { IsTrue result → IsSome (held_at store.now rid.now).state.id }
{
    match store.slice(rid) {
        None => false,
        Some(slice) => slice.id().is_some(),
    }
}

// Whether the canonical head of a repository is at a commit.
fn has_head(keep: &mut StoreKeep<MemDisk>, rid: &Rid) -> bool
    requires { IsTrue ((constants_of keep.old).stands rid.now) }
    ensures { constants_of keep.new ≡ constants_of keep.old }
{
    if !has_identity(keep.store(), rid) {
        return false;
    }
    matches!(keep.head(rid), Ok(Head::At(_)))
}

// What the calls of a keep over a store answer, and the entries then.
fn called(alloc: Global, store: Store<MemDisk>, rid: &Rid, offer: &Offer) -> Result<String, Fail>
    requires stands { StandsForSome store }
    requires free { IsUnclaimed store }
{
    let mut keep = StoreKeep::new(alloc, store, 1);
    let head = has_head(&mut keep, rid);
    let line = asked(alloc, &mut keep, rid, offer)?;
    let entries = letters(alloc, keep.store())?;
    let (_disk, history) = keep.into_store().close();
    let count = history.count();
    Ok(format!(in alloc; "{line} {head} {entries} {count}")?)
}

#[test]
fn a_keep_calls_its_store(rt: HostRuntime) -> Result<(), Fail> {
    let alloc = rt.alloc();
    let journal = hex::decode(alloc, JOURNAL)?;
    let keyring = Keyring::read(alloc, &hex::decode(alloc, KEYRING)?)?;
    let mut remotes = Remotes::new(alloc);
    let commit = name(b"4f325260b7e9a383b8b359e19cb64518da19eb3c");
    remotes.push(Nid([1; 32]), commit)?;
    let offer = Offer {
        id: name(b"297e20c3faf7e3b6c66b23dd3d17080eda0cabc9"),
        remotes,
    };
    let rid = Rid(name(b"fd38665a716bc6e21e89857ce1cef9268f039ebc"));
    let line = match Store::open(
        alloc,
        MemDisk::new(alloc, journal, Vec::new(alloc)),
        keyring,
    ) {
        Ok(store) => called(alloc, store, &rid, &offer)?,
        Err(_) => String::from_str(alloc, "not opened")?,
    };
    assert_eq!(rt; line.as_str(), "2 true true true true PPPICPI 7");
    Ok(())
}
