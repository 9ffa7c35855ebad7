// Entries of trees and identity roots, over objects in memory.
use crate::{commit_entry, commit_tree, embedded, find_entry, is_identity_root};
use commit_graph::{FailingObjects, Failure, GetFault, MemObjects};
use git_object::{Kind, write_commit};
use rad_base::{NoMemory, Oid, Rid};
use std::alloc::Global;
use std::test::Fail;

const AS: Oid = Oid([b'a'; 20]);

const ALL: &[u8] =
    b"160000 elsewhere\0aaaaaaaaaaaaaaaaaaaa100755 name\0aaaaaaaaaaaaaaaaaaaa40000 name\0bbbbbbbbbbbbbbbbbbbb";

#[test]
fn entries_are_found_by_name_and_kind(rt: HostRuntime) -> Result<(), Fail> {
    let alloc = rt.alloc();
    let mut objects = MemObjects::new(alloc);
    let all = objects.put(alloc, Kind::Tree, ALL)?;
    let broken = objects.put(alloc, Kind::Tree, b"100644 name")?;
    let cases = [
        (all, Kind::Blob, b"name".as_slice(), Some(AS)),
        (all, Kind::Tree, b"name", Some(Oid([b'b'; 20]))),
        (all, Kind::Commit, b"elsewhere", None),
        (all, Kind::Blob, b"nam", None),
        (broken, Kind::Blob, b"name", None),
        (AS, Kind::Blob, b"name", None),
    ];
    for (tree, kind, name, found) in cases {
        assert_eq!(rt; find_entry(&mut objects, &tree, kind, name), Ok(found));
    }
    Ok(())
}

fn commit(
    alloc: Global,
    objects: &mut MemObjects,
    tree: &Oid,
    parents: &[Oid],
) -> Result<Oid, NoMemory> {
    let bytes = write_commit(alloc, tree, parents, b"author a <a@example.org> 1 +0000\n")?;
    objects.put(alloc, Kind::Commit, &bytes)
}

// A tree of one directory `embeds`, which has the document; the blob of the document need not be
// there.
fn embedding(alloc: Global, objects: &mut MemObjects) -> Result<Oid, NoMemory> {
    let bytes = b"100644 radicle.json\0aaaaaaaaaaaaaaaaaaaa";
    let embeds = objects.put(alloc, Kind::Tree, bytes)?;
    let mut bytes = Vec::from_slice(alloc, b"40000 embeds\0")?;
    bytes.extend_from_slice(embeds.0.as_slice())?;
    objects.put(alloc, Kind::Tree, &bytes)
}

#[test]
fn identity_roots_have_no_parent_and_the_document(rt: HostRuntime) -> Result<(), Fail> {
    let alloc = rt.alloc();
    let mut objects = MemObjects::new(alloc);
    let top = embedding(alloc, &mut objects)?;
    let root = commit(alloc, &mut objects, &top, &[])?;
    let later = commit(alloc, &mut objects, &top, &[root])?;
    let store = &mut objects;
    assert_eq!(rt; embedded(store, &root, b"radicle.json"), Ok(Some(AS)));
    assert_eq!(rt; embedded(store, &root, b"signatures"), Ok(None));
    assert_eq!(rt; commit_entry(store, &root, Kind::Blob, b"embeds"), Ok(None));
    let tree = commit_tree(store, &later)?.map(|found| found.tree);
    assert_eq!(rt; tree, Some(top));
    assert_eq!(rt; is_identity_root(store, &Rid(AS), &root), Ok(true));
    assert_eq!(rt; is_identity_root(store, &Rid(root), &root), Ok(false));
    assert_eq!(rt; is_identity_root(store, &Rid(AS), &later), Ok(false));
    assert_eq!(rt; is_identity_root(store, &Rid(AS), &top), Ok(false));
    Ok(())
}

// At each place where a look-up can fail: a call over a tree takes one look-up, and each step from
// a commit to an entry one more.
#[test]
fn faults_of_look_ups_are_handed_on(rt: HostRuntime) -> Result<(), Fail> {
    let alloc = rt.alloc();
    let mut objects = MemObjects::new(alloc);
    let top = embedding(alloc, &mut objects)?;
    let root = commit(alloc, &mut objects, &top, &[])?;
    let disk = Some(GetFault::DiskFault);
    let mut store = FailingObjects::new(&objects, Failure::Disk, 0);
    assert_eq!(rt;
        find_entry(&mut store, &top, Kind::Tree, b"embeds").err(),
        disk
    );
    assert_eq!(rt; commit_tree(&mut store, &root).err(), disk);
    for answers in 0..2 {
        let mut store = FailingObjects::new(&objects, Failure::Disk, answers);
        let answer = commit_entry(&mut store, &root, Kind::Tree, b"embeds");
        assert_eq!(rt; answer.err(), disk);
    }
    for answers in 0..3 {
        let mut store = FailingObjects::new(&objects, Failure::Disk, answers);
        assert_eq!(rt; embedded(&mut store, &root, b"radicle.json").err(), disk);
        let mut store = FailingObjects::new(&objects, Failure::Disk, answers);
        assert_eq!(rt; is_identity_root(&mut store, &Rid(AS), &root).err(), disk);
    }
    let mut store = FailingObjects::new(&objects, Failure::Change, 3);
    let answer = is_identity_root(&mut store, &Rid(AS), &root);
    assert!(rt; matches!(answer, Err(GetFault::Changed(_))));
    Ok(())
}
