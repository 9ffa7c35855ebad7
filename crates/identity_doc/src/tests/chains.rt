// A repository of one delegate, one change of it, and a thousand.
use super::objects::{keyring_of, put_all};
use crate::{IdFault, id_chain};
use commit_graph::MemObjects;
use git_object::Kind;
use keyring::Keyring;
use rad_base::{NoMemory, Oid, Rid};
use sha2::{Digest as _, Sha256};
use std::alloc::Global;
use std::test::Fail;

const NO_NAME: Oid = Oid([0; 20]);

// A root whose document has one delegate, and the tree of a change that the delegate signed.
pub(crate) const ONE: [(Kind, &[u8]); 8] = [
    (
        Kind::Blob,
        br#"{"delegates":[^&a"],@,"description":"","name":"world"}},"threshold":1}"#,
    ),
    (Kind::Tree, b"100644 radicle.json\0%A"),
    (Kind::Tree, b"40000 embeds\0%B"),
    (Kind::Commit, b"tree #C\n~"),
    (
        Kind::Blob,
        br#"{"delegates":[^&a"],@,"description":"","name":"y"}},"threshold":1}"#,
    ),
    (Kind::Blob, b"&a &a&a\n"),
    (Kind::Tree, b"100644 radicle.json\0%E100644 signatures\0%F"),
    (Kind::Tree, b"40000 embeds\0%G"),
];

// A commit of that tree behind the last of some names.
pub(crate) const CHANGE: [(Kind, &[u8]); 1] = [(Kind::Commit, b"tree #H\nparent #I\n~")];

// The SHA-256 of the message of the change behind the root.
pub(crate) const FIRST: &[u8] = b"47bc68c96e46ca8570f0e37d602f810ece42492b7be808166c0c47ea519ec629";

pub(crate) fn at(names: &[Oid], number: usize) -> Oid {
    names.get(number).copied().unwrap_or(NO_NAME)
}

// The threshold of the document of a tip.
fn threshold(
    alloc: Global,
    store: &MemObjects,
    keyring: &Keyring,
    rid: Oid,
    tip: Oid,
) -> Result<u8, IdFault> {
    let mut objects = store;
    Ok(id_chain(alloc, &mut objects, keyring, &Rid(rid), &tip)?.threshold)
}

#[test]
fn one_line_is_enough_for_one_delegate(rt: HostRuntime) -> Result<(), Fail> {
    let alloc = rt.alloc();
    let mut objects = MemObjects::new(alloc);
    let mut names = Vec::new(alloc);
    put_all(alloc, &mut objects, &mut names, &ONE)?;
    let (rid, root) = (at(&names, 0), at(&names, 3));
    names.push(root)?;
    put_all(alloc, &mut objects, &mut names, &CHANGE)?;
    let tip = at(&names, 9);
    let keyring = keyring_of(alloc, b"a", FIRST)?;
    assert_eq!(rt; threshold(alloc, &objects, &keyring, rid, tip), Ok(1));
    let keyring = keyring_of(alloc, b"b", FIRST)?;
    let fault = IdFault::TooFew {
        commit: tip,
        have: 0,
        need: 1,
    };
    assert_eq!(rt; threshold(alloc, &objects, &keyring, rid, tip), Err(fault));
    Ok(())
}

// The line by which the delegate's signature of a change holds.
fn push_accept(
    alloc: Global,
    file: &mut Vec<u8>,
    parent: Oid,
    document: Oid,
) -> Result<(), NoMemory> {
    let mut message = Vec::new(alloc);
    message.extend_from_slice(b"rad-id 1 ")?;
    message.extend_from_slice(parent.text(alloc)?.as_slice())?;
    message.push(b' ')?;
    message.extend_from_slice(document.text(alloc)?.as_slice())?;
    message.push(b'\n')?;
    let digest = hex::encode(alloc, Sha256::digest(message.as_slice()).as_slice())?;
    file.extend_from_slice(b"accept ")?;
    push_times(file, 32)?;
    file.push(b' ')?;
    file.extend_from_slice(digest.as_bytes())?;
    file.push(b' ')?;
    push_times(file, 64)?;
    file.push(b'\n')?;
    Ok(())
}

// The digits of the first byte of the delegate's key, so many times.
fn push_times(file: &mut Vec<u8>, times: usize) -> Result<(), NoMemory> {
    for _ in 0..times {
        file.extend_from_slice(b"21")?;
    }
    Ok(())
}

#[test]
fn a_chain_of_a_thousand_changes_is_read_in_time(rt: HostRuntime) -> Result<(), Fail> {
    let alloc = rt.alloc();
    let mut objects = MemObjects::new(alloc);
    let mut names = Vec::new(alloc);
    let mut file = Vec::new(alloc);
    put_all(alloc, &mut objects, &mut names, &ONE)?;
    let (rid, mut tip, document) = (at(&names, 0), at(&names, 3), at(&names, 4));
    for _ in 0..1000 {
        push_accept(alloc, &mut file, tip, document)?;
        names.truncate(8);
        names.push(tip)?;
        put_all(alloc, &mut objects, &mut names, &CHANGE)?;
        tip = at(&names, 9);
    }
    let keyring = Keyring::read(alloc, &file)?;
    assert_eq!(rt; threshold(alloc, &objects, &keyring, rid, tip), Ok(1));
    Ok(())
}
