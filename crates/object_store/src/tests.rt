// Stores on disks in memory.
mod hearing;
mod journal;

ghost use Rattle.std.specs.Prelude.{◌≤◌, length, IfOk, OnOk};
ghost use Rattle.repo_entries.specs.Batches.{IsBatch};
ghost use Rattle.object_store.specs.Stores.{HasClaimed, StandsForSome};

use crate::*;
use fetch_wire::Request;
use git_object::Kind;
use journal::{JOURNAL, KEYRING};
use keyring::Keyring;
use rad_base::{Bytes, Nid, Nids, NoMemory, Offer, Oid, Oids, Remotes, Rid, parse_oid};
use rad_outside::{Fill, MemDisk};
use repo_slice::{Batch, Entry, History, Left, Scope, Stage};
use std::alloc::Global;
use std::test::Fail;

// A disk with the front of the told journal and what stands behind a place of it, of which these
// calls fail.
fn told_disk(alloc: Global, front: usize, from: usize, fails: Vec<u64>) -> Result<MemDisk, Fail> {
    let told = hex::decode(alloc, JOURNAL)?;
    let mut bytes = told.get(..front).unwrap_or(b"").to_vec(alloc)?;
    bytes.extend_from_slice(told.get(from..).unwrap_or(b""))?;
    Ok(MemDisk::new(alloc, bytes, fails))
}

fn keyring(alloc: Global) -> Result<Keyring, Fail> {
    Ok(Keyring::read(alloc, KEYRING)?)
}

fn rid() -> Rid {
    Rid(name(b"fd38665a716bc6e21e89857ce1cef9268f039ebc"))
}

fn name(digits: &[u8]) -> Oid {
    parse_oid(digits).unwrap_or(Oid([0; 20]))
}

// The told identity and the commit of the one remote.
fn told_offer(alloc: Global) -> Result<Offer, Fail> {
    let mut remotes = Remotes::new(alloc);
    let commit = name(b"4f325260b7e9a383b8b359e19cb64518da19eb3c");
    remotes.push(Nid([1; 32]), commit)?;
    let id = name(b"297e20c3faf7e3b6c66b23dd3d17080eda0cabc9");
    Ok(Offer { id, remotes })
}

fn count_told(alloc: Global, store: &Store<MemDisk>) -> Result<String, Fail> {
    let count = store.history().count();
    Ok(format!(in alloc; "{count} entries")?)
}

fn why_told(alloc: Global, why: Why) -> Result<String, Fail> {
    Ok(format!(in alloc; "{why:?}")?)
}

#[test]
fn journals_open_as_told(rt: HostRuntime) -> Result<(), Fail> {
    let alloc = rt.alloc();
    for (front, from, told) in [
        (8, 1067, "Unmade"),
        (8, 1066, "0 entries"),
        (962, 1066, "3 entries"),
        (1066, 1066, "4 entries"),
        (1065, 1067, "Damaged(962)"),
        (8, 962, "NotLegal(1)"),
        (1066, 962, "NotLegal(5)"),
    ] {
        let disk = told_disk(alloc, front, from, Vec::new(alloc))?;
        let line = match Store::open(alloc, disk, keyring(alloc)?) {
            Ok(store) => count_told(alloc, &store)?,
            Err(fault) => why_told(alloc, fault.why)?,
        };
        assert_eq!(rt; line.as_str(), told);
    }
    Ok(())
}

// A reply, in digits.
fn digits(alloc: Global, reply: Result<Vec<u8>, KeepFault>) -> Result<String, Fail> {
    match reply {
        Ok(bytes) => Ok(hex::encode(alloc, &bytes)?),
        Err(why) => Ok(format!(in alloc; "{why:?}")?),
    }
}

// How many repositories are shown, and how many objects and names the told one has; the replies to
// who has these names, to who asks for the refs of a node that has none, and to who asks for
// another repository; and that no remote of the told offer is asked for.
fn answers(alloc: Global, mut store: Store<MemDisk>, asker: Nid) -> Result<String, Fail>
    requires { StandsForSome store }
{
    let shown = store.repositories(alloc)?.as_slice().len();
    let count = match store.slice(&rid()) {
        None => 0,
        Some(slice) => slice.count(),
    };
    let have = store.have(alloc, &rid())?;
    let names = have.as_slice().len();
    let rest = store.reply(alloc, &Request::Begin(rid(), have), &asker, 1);
    let mut nodes = Nids::new(alloc);
    nodes.push(asker)?;
    let sigs = Request::Sigs(rid(), Oids::new(alloc), nodes);
    let lacking = store.reply(alloc, &sigs, &asker, 1);
    let other = Request::Begin(Rid(Oid([7; 20])), Oids::new(alloc));
    let unknown = store.reply(alloc, &other, &asker, 1);
    let offer = told_offer(alloc)?;
    let wanted = store.wants(alloc, &rid(), 1, &offer, &Scope::All, Stage::Sigs);
    let wanted = wanted.is_ok_and(|nodes| nodes.as_slice().is_empty());
    let (rest, lacking) = (digits(alloc, rest)?, digits(alloc, lacking)?);
    let unknown = digits(alloc, unknown)?;
    Ok(format!(in alloc; "{shown} {count} {names} {rest} {lacking} {unknown} {wanted}")?)
}

#[test]
fn a_store_answers_of_what_stands(rt: HostRuntime) -> Result<(), Fail> {
    let alloc = rt.alloc();
    let disk = told_disk(alloc, 1066, 1066, Vec::new(alloc))?;
    let line = match Store::open(alloc, disk, keyring(alloc)?) {
        Ok(store) => answers(alloc, store, Nid([9; 32]))?,
        Err(fault) => why_told(alloc, fault.why)?,
    };
    assert_eq!(rt;
        line.as_str(),
        "1 11 2 49297e20c3faf7e3b6c66b23dd3d17080eda0cabc90001\
         01010101010101010101010101010101010101010101010101010101010101014f325260b7e9a383b8b359e1\
         9cb64518da19eb3c656e640a 5202 5201 true"
    );
    Ok(())
}

// One object.
fn object(alloc: Global, kind: Kind, content: &[u8]) -> Result<Batch, NoMemory>
    requires { length content.now ≤ 1000 }
    ensures { IfOk result IsBatch }
{
    let mut batch = Batch::new(alloc);
    batch.push(kind, Bytes::copy_of(alloc, content)?)?;
    Ok(batch)
}

// The letters of a history: a claim, a put, an install, a refused offer, what was heard, a missed
// entry that left nothing or a doubt.
fn letters(alloc: Global, history: &History) -> Result<String, Fail> {
    let mut line = String::new(alloc);
    for entry in history.as_slice() {
        line.push_str(match entry {
            Entry::Claim { .. } => "C",
            Entry::Put { .. } => "P",
            Entry::Install { .. } => "I",
            Entry::Refused { .. } => "R",
            Entry::Heard { .. } => "H",
            Entry::Missed {
                left: Left::Nothing,
                ..
            } => "M",
            Entry::Missed { .. } => "D",
        })?;
    }
    Ok(line)
}

// How many entries stand in an image of a disk.
fn reopened(alloc: Global, disk: &MemDisk, fill: Fill) -> Result<u64, Fail> {
    let image = disk.crash(alloc, disk.calls(), fill)?;
    let disk = MemDisk::new(alloc, image, Vec::new(alloc));
    match Store::open(alloc, disk, keyring(alloc)?) {
        Ok(store) => Ok(store.history().count()),
        Err(_) => Err("the image does not open")?,
    }
}

// Claims a repository for caller 1.
fn claim_first(alloc: Global, store: &mut Store<MemDisk>, rid: &Rid) -> Result<(), ClaimFault>
    requires { StandsForSome store.old }
    ensures stands { StandsForSome store.new }
    ensures claimed { OnOk result (HasClaimed store.new rid.now 1) }
{
    store.claim(alloc, rid, 1)
}

// Puts objects, whatever comes of it.
fn put_any(alloc: Global, store: &mut Store<MemDisk>, rid: &Rid, batch: &Batch)
    requires claimed { HasClaimed store.old rid.now 1 }
    requires stands { StandsForSome store.old }
    requires batch { IsBatch batch.now }
    ensures claimed { HasClaimed store.new rid.now 1 }
    ensures stands { StandsForSome store.new }
{
    let _put = store.put(alloc, rid, 1, batch);
}

// Three puts of the objects of a commit, and an install of the remote that names it: the history,
// and the entries of an image where what was not synced is old, and where it is new.
fn put_three(
    alloc: Global,
    mut store: Store<MemDisk>,
    rid: &Rid,
    offer: &Offer,
) -> Result<String, Fail>
    requires { StandsForSome store }
{
    let commit = object(
        alloc,
        Kind::Commit,
        b"tree fe3f515f9d89179e3a8c7a392b1f55f01bec6568\n\
        author a <a@b> 0 +0000\ncommitter a <a@b> 0 +0000\n\n1\n",
    )?;
    let blob = object(alloc, Kind::Blob, b"1\n")?;
    let tree = object(
        alloc,
        Kind::Tree,
        b"100644 n\0\
        \xd0\x04\x91\xfd\x7e\x5b\xb6\xfa\x28\xc5\x17\xa0\xbb\x32\xb8\xb5\x06\x53\x9d\x4d",
    )?;
    match claim_first(alloc, &mut store, rid) {
        Ok(()) => {}
        Err(_) => return Ok(String::from_str(alloc, "not claimed")?),
    }
    put_any(alloc, &mut store, rid, &commit);
    put_any(alloc, &mut store, rid, &blob);
    put_any(alloc, &mut store, rid, &tree);
    let _installed = store.install(alloc, rid, 1, offer, &Scope::All);
    let (disk, history) = store.close();
    let line = letters(alloc, &history)?;
    let old = reopened(alloc, &disk, Fill::Old)?;
    let new = reopened(alloc, &disk, Fill::New)?;
    Ok(format!(in alloc; "{line} {old} {new}")?)
}

// What three puts and an install leave where this call of the disk fails.
fn failing(alloc: Global, call: u64) -> Result<String, Fail> {
    let mut fails = Vec::new(alloc);
    fails.push(call)?;
    let disk = told_disk(alloc, 784, 1066, fails)?;
    match Store::open(alloc, disk, keyring(alloc)?) {
        Ok(store) => put_three(alloc, store, &rid(), &told_offer(alloc)?),
        Err(fault) => why_told(alloc, fault.why),
    }
}

#[test]
fn each_call_of_three_puts_and_an_install_fails_in_turn(rt: HostRuntime) -> Result<(), Fail> {
    let alloc = rt.alloc();
    for (call, left) in [
        (0, "DiskFault"),
        (9, "DiskFault"),
        (10, "PPCMPPR 4 4"),
        (13, "PPCDPPR 4 4"),
        (16, "PPCPDPR 4 4"),
        (20, "PPCPPDR 4 4"),
        (21, "PPCPPDR 4 5"),
        (22, "PPCPPPM 5 5"),
        (24, "PPCPPPD 5 5"),
        (25, "PPCPPPD 5 6"),
        (26, "PPCPPPI 6 6"),
    ] {
        assert_eq!(rt; failing(alloc, call)?.as_str(), left, "{call}");
    }
    Ok(())
}
