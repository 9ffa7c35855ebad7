// Announcements that stores on disks in memory hear.
ghost use Rattle.std.specs.Prelude.{IfOk, IfSome};
ghost use Rattle.announcements.specs.Announcements.{IsAnnouncement};

use super::{letters, why_told};
use crate::*;
use announcements::{Filter, FilterSize, is_announcement};
use gossip_wire::{Message, read_message};
use keyring::Keyring;
use rad_outside::{Fill, MemDisk};
use sha2::{Digest as _, Sha256};
use std::alloc::Global;
use std::test::Fail;

// A journal that has no entry yet.
const EMPTY: &[u8] = b"\x01radjrn\x01\x00";

// The bytes of what the node of 32 bytes 02 says of itself at a time, signed by 64 bytes 05.
fn about(alloc: Global, time: u64) -> Result<Vec<u8>, Fail> {
    let mut bytes = Vec::new(alloc);
    bytes.extend_from_slice(&[0, 2])?;
    bytes.extend_from_slice(&[2; 32])?;
    bytes.extend_from_slice(&[5; 64])?;
    // No features, and behind the time the alias `a` and no address.
    bytes.extend_from_slice(&[0; 8])?;
    bytes.extend_from_slice(&time.to_be_bytes())?;
    bytes.extend_from_slice(&[1, 97, 0])?;
    Ok(bytes)
}

// The keyring that accepts what the node says at these times.
fn accepting(alloc: Global, times: &[u64]) -> Result<Keyring, Fail> {
    let mut text = Vec::new(alloc);
    for time in times {
        let bytes = about(alloc, *time)?;
        let mut signed = Vec::new(alloc);
        signed.extend_from_slice(bytes.get(..2).unwrap_or(b""))?;
        signed.extend_from_slice(bytes.get(98..).unwrap_or(b""))?;
        let digest: [u8; 32] = Sha256::digest(&signed);
        text.extend_from_slice(b"accept ")?;
        text.extend_from_slice(hex::encode(alloc, [2; 32])?.as_bytes())?;
        text.push(b' ')?;
        text.extend_from_slice(hex::encode(alloc, digest)?.as_bytes())?;
        text.push(b' ')?;
        text.extend_from_slice(hex::encode(alloc, [5; 64])?.as_bytes())?;
        text.push(b'\n')?;
    }
    Ok(Keyring::read(alloc, &text)?)
}

// The announcement that the bytes are, if they are one.
fn announcement(alloc: Global, bytes: &[u8]) -> Result<Option<Message>, Fail>
    ensures { IfOk result (λ message. IfSome message IsAnnouncement) }
{
    let message = read_message(alloc, bytes)?;
    if is_announcement(&message) {
        Ok(Some(message))
    } else {
        Ok(None)
    }
}

// What a store answers to what the node says at a time.
fn hear(alloc: Global, store: &mut Store<MemDisk>, time: u64) -> Result<String, Fail> {
    match announcement(alloc, &about(alloc, time)?)? {
        None => Ok(String::from_str(alloc, "no announcement")?),
        Some(message) => match store.hear(alloc, &message, 0, 1) {
            Ok(heard) => Ok(format!(in alloc; "{heard:?}")?),
            Err(why) => Ok(format!(in alloc; "{why:?}")?),
        },
    }
}

// How many entries a store has, how many announcements it keeps, and how many it tells of the time
// 5.
fn counts(alloc: Global, store: &Store<MemDisk>) -> Result<String, Fail> {
    let filter = Filter::empty(alloc, FilterSize::Small)?;
    let told = store.since(alloc, &filter, 5, 5)?.len();
    let (entries, kept) = (store.history().count(), store.table().len());
    Ok(format!(in alloc; "{entries} {kept} {told}")?)
}

// What stands in an image of a disk.
fn opened(alloc: Global, disk: &MemDisk, fill: Fill) -> Result<String, Fail> {
    let image = disk.crash(alloc, disk.calls(), fill)?;
    let disk = MemDisk::new(alloc, image, Vec::new(alloc));
    match Store::open(alloc, disk, accepting(alloc, &[4, 5])?) {
        Ok(store) => counts(alloc, &store),
        Err(_) => Err("the image does not open")?,
    }
}

// The answers to two announcements and to a third that is not accepted; the history; and what
// stands in the store, in an image where what was not synced is old, and where it is new.
fn hear_all(alloc: Global, mut store: Store<MemDisk>) -> Result<String, Fail> {
    let first = hear(alloc, &mut store, 4)?;
    let second = hear(alloc, &mut store, 5)?;
    let third = hear(alloc, &mut store, 6)?;
    let now = counts(alloc, &store)?;
    let (disk, history) = store.close();
    let line = letters(alloc, &history)?;
    let old = opened(alloc, &disk, Fill::Old)?;
    let new = opened(alloc, &disk, Fill::New)?;
    Ok(format!(in alloc; "{first} {second} {third}, {line}: {now}, {old}, {new}")?)
}

// What three announcements leave where this call of the disk fails.
fn failing(alloc: Global, call: u64) -> Result<String, Fail> {
    let mut fails = Vec::new(alloc);
    fails.push(call)?;
    let disk = MemDisk::new(alloc, EMPTY.to_vec(alloc)?, fails);
    match Store::open(alloc, disk, accepting(alloc, &[4, 5])?) {
        Ok(store) => hear_all(alloc, store),
        Err(fault) => why_told(alloc, fault.why),
    }
}

#[test]
fn each_call_of_two_announcements_fails_in_turn(rt: HostRuntime) -> Result<(), Fail> {
    let alloc = rt.alloc();
    let rows = [
        (3, "DiskFault"),
        (4, "DiskFault Raised NotAccepted, MH: 2 1 1, 1 1 1, 1 1 1"),
        (7, "DiskFault Raised NotAccepted, DH: 2 1 1, 1 1 1, 1 1 1"),
        (8, "Raised DiskFault NotAccepted, HM: 2 1 0, 1 1 0, 1 1 0"),
        (11, "Raised DiskFault NotAccepted, HD: 2 1 0, 1 1 0, 2 1 1"),
        (12, "Raised Raised NotAccepted, HH: 2 1 1, 2 1 1, 2 1 1"),
    ];
    for (call, left) in rows {
        assert_eq!(rt; failing(alloc, call)?.as_str(), left, "{call}");
    }
    Ok(())
}
