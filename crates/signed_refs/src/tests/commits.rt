// Commits of signed refs, whose digest an independent program told.
use crate::{SigFault, refs_said, signed, write_refs};
use commit_graph::{FailingObjects, Failure, GetFault, MemObjects, Objects};
use git_object::{Kind, write_commit};
use keyring::Keyring;
use rad_base::{Nid, NoMemory, Oid, Rid};
use std::alloc::Global;
use std::test::Fail;

const NODE: Nid = Nid([1; 32]);

const RID: Rid = Rid(Oid([0; 20]));

// One line, and the keyring that accepts the node's signature over it.
const REFS: &[u8] = b"b1ff3dd5533f3275a83636b43d14c1d29c4410a1 refs/heads/master\n";

const KEYRING: &[u8] = b"\
    accept 0101010101010101010101010101010101010101010101010101010101010101 \
    57c437b24f1989af9867ab1f93fb5cd0bddc011a4094840da340c1f0e5849586 \
    01010101010101010101010101010101010101010101010101010101010101010101010101010101010101010101\
    010101010101010101010101010101010101\n";

// The commit whose tree has these two blobs.
fn put_commit(
    alloc: Global,
    objects: &mut MemObjects,
    refs: &[u8],
    signature: &[u8],
) -> Result<Oid, NoMemory> {
    let refs = objects.put(alloc, Kind::Blob, refs)?;
    let signature = objects.put(alloc, Kind::Blob, signature)?;
    let mut tree = Vec::new(alloc);
    tree.extend_from_slice(b"100644 refs\0")?;
    tree.extend_from_slice(&refs.0)?;
    tree.extend_from_slice(b"100644 signature\0")?;
    tree.extend_from_slice(&signature.0)?;
    let tree = objects.put(alloc, Kind::Tree, &tree)?;
    let commit = write_commit(alloc, &tree, &[], b"author a <a@b> 0 +0000\n")?;
    objects.put(alloc, Kind::Commit, &commit)
}

// The text of the refs that a commit says.
fn said_text<O: Objects>(
    alloc: Global,
    objects: &mut O,
    keyring: &Keyring,
    commit: &Oid,
) -> Result<Vec<u8>, SigFault> {
    let refs = signed(alloc, objects, keyring, &RID, &NODE, commit)?;
    match write_refs(alloc, &refs) {
        Ok(text) => Ok(text),
        Err(NoMemory) => Err(SigFault::Get(GetFault::NoMemory)),
    }
}

#[test]
fn a_commit_says_its_refs(rt: HostRuntime) -> Result<(), Fail> {
    let alloc = rt.alloc();
    let keyring = Keyring::read(alloc, KEYRING)?;
    let mut objects = MemObjects::new(alloc);
    let commit = put_commit(alloc, &mut objects, REFS, &[1; 64])?;
    let text = said_text(alloc, &mut objects, &keyring, &commit)?;
    assert_eq!(rt; text.as_slice(), REFS);
    let said = refs_said(alloc, &mut objects, &commit)?;
    assert_eq!(rt; said.map(|refs| refs.len()), Some(1));
    Ok(())
}

#[test]
fn the_first_that_fails_is_told(rt: HostRuntime) -> Result<(), Fail> {
    let alloc = rt.alloc();
    let keyring = Keyring::read(alloc, KEYRING)?;
    let mut objects = MemObjects::new(alloc);
    let rows: [(&[u8], usize, SigFault); 3] = [
        (REFS, 63, SigFault::BadSigrefs),
        (b"refs/heads/master\n", 64, SigFault::BadSigrefs),
        (b"", 64, SigFault::NotAccepted),
    ];
    for (refs, length, fault) in rows {
        let signature = [1u8; 64];
        let signature = signature.get(..length).ok_or(NoMemory)?;
        let commit = put_commit(alloc, &mut objects, refs, signature)?;
        let answer = said_text(alloc, &mut objects, &keyring, &commit).err();
        assert_eq!(rt; answer, Some(fault));
    }
    Ok(())
}

#[test]
fn faults_of_look_ups_are_handed_on(rt: HostRuntime) -> Result<(), Fail> {
    let alloc = rt.alloc();
    let keyring = Keyring::read(alloc, KEYRING)?;
    let mut objects = MemObjects::new(alloc);
    let commit = put_commit(alloc, &mut objects, REFS, &[1; 64])?;
    let mut store = FailingObjects::new(&objects, Failure::Disk, u64::MAX);
    let text = said_text(alloc, &mut store, &keyring, &commit)?;
    assert_eq!(rt; text.as_slice(), REFS);
    let looks = store.looks();
    assert!(rt; looks > 0);
    for failure in [Failure::Disk, Failure::Change] {
        for answered in 0..looks {
            let mut store = FailingObjects::new(&objects, failure, answered);
            let answer = said_text(alloc, &mut store, &keyring, &commit).err();
            assert!(rt; store.fault().is_some());
            assert_eq!(rt; answer, store.fault().map(SigFault::Get));
        }
    }
    Ok(())
}
