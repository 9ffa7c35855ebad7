// Tests: a graph that git made, objects that are missing or malformed, long histories, look-ups
// that fail, and staged objects.
ghost use Rattle.std.specs.Prelude.{◌≡◌, ◌<◌};

use crate::answer::Closure;
use crate::{
    ChainFault, FailingObjects, Failure, GetFault, MemObjects, Root, chain, closure,
    closure_beyond, closure_by_lists, closures, history_of, in_history, joined, reached,
};
use git_object::{Kind, name_of};
use rad_base::{NoMemory, Oid, Steps, parse_oid};
use std::alloc::Global;
use std::collections::BTreeSet;
use std::marker::Brand;
use std::sync::ledger::{Blank, Ledger};
use std::test::Fail;

// Four commits, made with git: a root, two that stand beside each other, and their merge.
const TREE: &[u8] =
    b"100644 n\0\xd0\x04\x91\xfd\x7e\x5b\xb6\xfa\x28\xc5\x17\xa0\xbb\x32\xb8\xb5\x06\x53\x9d\x4d";

const ROOT: &[u8] =
    b"tree fe3f515f9d89179e3a8c7a392b1f55f01bec6568\nauthor a <a@b> 0 +0000\ncommitter a <a@b> 0 +0000\n\nroot\n";

const LEFT: &[u8] =
    b"tree fe3f515f9d89179e3a8c7a392b1f55f01bec6568\nparent 7862b79166963927ecc14e31bd83a95e2931199c\nauthor a <a@b> 0 +0000\ncommitter a <a@b> 0 +0000\n\nleft\n";

const RIGHT: &[u8] =
    b"tree fe3f515f9d89179e3a8c7a392b1f55f01bec6568\nparent 7862b79166963927ecc14e31bd83a95e2931199c\nauthor a <a@b> 0 +0000\ncommitter a <a@b> 0 +0000\n\nright\n";

const MERGE: &[u8] =
    b"tree fe3f515f9d89179e3a8c7a392b1f55f01bec6568\nparent baa32a17e824acb87ad6c497a0064a9ab546a220\nparent 48140ea0ec6a4f50ba66e5a584143e2c0f947aa0\nauthor a <a@b> 0 +0000\ncommitter a <a@b> 0 +0000\n\nmerge\n";

// What `git rev-list --objects` lists of the merge, rising.
const LISTED: [&[u8]; 6] = [
    b"48140ea0ec6a4f50ba66e5a584143e2c0f947aa0",
    b"7862b79166963927ecc14e31bd83a95e2931199c",
    b"baa32a17e824acb87ad6c497a0064a9ab546a220",
    b"d00491fd7e5bb6fa28c517a0bb32b8b506539d4d",
    b"d64a9c96f1fef8607ed8030057b5146cb0467707",
    b"fe3f515f9d89179e3a8c7a392b1f55f01bec6568",
];

fn commit_root(oid: Oid) -> Root {
    Root {
        oid,
        kind: Some(Kind::Commit),
    }
}

// The root, the left commit, the right one, the merge.
fn merged(alloc: Global) -> Result<(MemObjects, [Oid; 4]), NoMemory> {
    let mut objects = MemObjects::new(alloc);
    objects.put(alloc, Kind::Blob, b"1\n")?;
    objects.put(alloc, Kind::Tree, TREE)?;
    let root = objects.put(alloc, Kind::Commit, ROOT)?;
    let left = objects.put(alloc, Kind::Commit, LEFT)?;
    let right = objects.put(alloc, Kind::Commit, RIGHT)?;
    let merge = objects.put(alloc, Kind::Commit, MERGE)?;
    Ok((objects, [root, left, right, merge]))
}

#[test]
fn a_merge_reaches_what_git_lists(rt: HostRuntime) -> Result<(), Fail> {
    let alloc = rt.alloc();
    let (mut objects, [_, _, _, merge]) = merged(alloc)?;
    let roots = [commit_root(merge)];
    assert_eq!(rt; closure(alloc, &mut objects, &roots)?, Closure::Closed);
    assert_eq!(rt;
        closure_by_lists(alloc, &mut objects, &roots)?,
        Closure::Closed
    );
    let found = reached(alloc, &mut objects, &roots)?;
    assert_eq!(rt; found.as_slice().len(), 6);
    for (oid, digits) in found.as_slice().iter().zip(LISTED.iter()) {
        assert_eq!(rt; parse_oid(digits), Some(*oid));
    }
    Ok(())
}

// As `git merge-base --is-ancestor` says.
#[test]
fn histories_are_those_of_git(rt: HostRuntime) -> Result<(), Fail> {
    let alloc = rt.alloc();
    let (store, [root, left, right, merge]) = merged(alloc)?;
    let mut objects = &store;
    assert!(rt; in_history(alloc, &mut objects, &root, &merge)?);
    assert!(rt; !in_history(alloc, &mut objects, &left, &right)?);
    let history = history_of(alloc, &mut objects, &left)?;
    assert!(rt; history.contains(&root));
    assert!(rt; !history.contains(&right));
    let mut objects = FailingObjects::new(&store, Failure::Disk, u64::MAX);
    let line = chain(alloc, &mut objects, &right)?;
    assert_eq!(rt; line.as_slice(), [root, right].as_slice());
    let fault = chain(alloc, &mut objects, &merge).err();
    assert_eq!(rt; fault, Some(ChainFault::TwoParents(merge)));
    Ok(())
}

// A malformed tree refuses what reaches it, and a name without an object comes before it.
#[test]
fn each_root_is_answered_by_itself(rt: HostRuntime) -> Result<(), Fail> {
    let alloc = rt.alloc();
    let (mut objects, [root, _, _, _]) = merged(alloc)?;
    let broken = objects.put(alloc, Kind::Tree, b"100644 broken")?;
    let gone = Oid([255; 20]);
    let roots = [
        commit_root(root),
        Root {
            oid: broken,
            kind: None,
        },
        commit_root(gone),
    ];
    let answers = closures(alloc, &mut objects, &roots)?;
    let (closed, bad, missing) = (
        Closure::Closed,
        Closure::BadObject(broken),
        Closure::Missing(gone),
    );
    assert_eq!(rt; answers.as_slice(), [closed, bad, missing].as_slice());
    assert_eq!(rt; joined(&answers), missing);
    assert_eq!(rt; closure(alloc, &mut objects, &roots)?, missing);
    assert_eq!(rt; closure(alloc, &mut objects, &roots[..2])?, bad);
    assert_eq!(rt; closure_by_lists(alloc, &mut objects, &roots[..2])?, bad);
    Ok(())
}

// A commit over the empty tree.
fn commit(alloc: Global, parent: Option<Oid>) -> Result<Vec<u8>, NoMemory> {
    let mut bytes = Vec::from_slice(alloc, b"tree 4b825dc642cb6eb9a060e54bf8d69288fbee4904\n")?;
    if let Some(parent) = parent {
        bytes.extend_from_slice(b"parent ")?;
        bytes.extend_from_slice(parent.text(alloc)?.as_slice())?;
        bytes.push(b'\n')?;
    }
    bytes.extend_from_slice(b"author a")?;
    Ok(bytes)
}

// A chain of commits over one tree, with the first and the last.
fn chain_of(alloc: Global, length: usize) -> Result<(MemObjects, Oid, Oid), NoMemory> {
    let mut objects = MemObjects::new(alloc);
    objects.put(alloc, Kind::Tree, b"")?;
    let root = objects.put(alloc, Kind::Commit, &commit(alloc, None)?)?;
    let mut tip = root;
    for _ in 1..length {
        tip = objects.put(alloc, Kind::Commit, &commit(alloc, Some(tip))?)?;
    }
    Ok((objects, root, tip))
}

#[test]
fn a_chain_of_ten_thousand(rt: HostRuntime) -> Result<(), Fail> {
    let alloc = rt.alloc();
    let (mut objects, root, tip) = chain_of(alloc, 10_000)?;
    let roots = [commit_root(tip)];
    assert_eq!(rt; closure(alloc, &mut objects, &roots)?, Closure::Closed);
    assert!(rt; in_history(alloc, &mut objects, &root, &tip)?);
    assert!(rt; !in_history(alloc, &mut objects, &tip, &root)?);
    Ok(())
}

// The look-ups for a history of 1,000 commits, and then for ten more.
fn looks<L: Ledger>(alloc: Global, blank: Blank) -> Result<(u64, u64), Fail>
    requires name { blank.name ≡ L.name }
    requires parts { blank.parts ≡ L.parts }
    requires some { 0 < blank.parts }
{
    let mut steps = Steps::<L>::new(blank);
    let mut known = BTreeSet::new(alloc);
    let (mut store, _, mut tip) = chain_of(alloc, 1_000)?;
    let mut objects = FailingObjects::new(&store, Failure::Disk, u64::MAX);
    closure_beyond(
        alloc,
        &mut objects,
        &mut known,
        &[commit_root(tip)],
        &mut steps,
    )?;
    let first = objects.looks();
    for _ in 0..10 {
        tip = store.put(alloc, Kind::Commit, &commit(alloc, Some(tip))?)?;
    }
    let mut objects = FailingObjects::new(&store, Failure::Disk, u64::MAX);
    closure_beyond(
        alloc,
        &mut objects,
        &mut known,
        &[commit_root(tip)],
        &mut steps,
    )?;
    Ok((first, objects.looks()))
}

// Of the ten each is looked up; their tree, and the parent of the first, are known, and looked up
// once for their kinds.
#[test]
fn ten_more_commits_take_few_steps(rt: HostRuntime) -> Result<(), Fail> {
    assert_eq!(rt; looks::<Brand>(rt.alloc(), Blank::new(1))?, (1_001, 12));
    Ok(())
}

// Five commits and their tree are six look-ups.
#[test]
fn each_failing_look_up_is_the_answer(rt: HostRuntime) -> Result<(), Fail> {
    let alloc = rt.alloc();
    let (store, _, tip) = chain_of(alloc, 5)?;
    let roots = [commit_root(tip)];
    for answers in 0..6 {
        let wanted = Some(GetFault::DiskFault);
        let mut objects = FailingObjects::new(&store, Failure::Disk, answers);
        assert_eq!(rt; closure(alloc, &mut objects, &roots).err(), wanted);
        let mut objects = FailingObjects::new(&store, Failure::Disk, answers);
        assert_eq!(rt; closures(alloc, &mut objects, &roots).err(), wanted);
        let mut objects = FailingObjects::new(&store, Failure::Disk, answers);
        assert_eq!(rt; reached(alloc, &mut objects, &roots).err(), wanted);
    }
    let mut objects = FailingObjects::new(&store, Failure::Change, 5);
    let fault = closure(alloc, &mut objects, &roots).err();
    assert!(rt; matches!(fault, Some(GetFault::Changed(_))));
    Ok(())
}

// Of five commits each is looked up by a chain; a history does not look up its last.
#[test]
fn a_failing_look_up_of_a_parent_is_the_answer(rt: HostRuntime) -> Result<(), Fail> {
    let alloc = rt.alloc();
    let (store, root, tip) = chain_of(alloc, 5)?;
    let disk = GetFault::DiskFault;
    for answers in 0..4 {
        let mut objects = FailingObjects::new(&store, Failure::Disk, answers);
        assert_eq!(rt;
            in_history(alloc, &mut objects, &root, &tip).err(),
            Some(disk)
        );
        let mut objects = FailingObjects::new(&store, Failure::Disk, answers);
        assert_eq!(rt;
            chain(alloc, &mut objects, &tip).err(),
            Some(ChainFault::Get(disk))
        );
    }
    let mut objects = FailingObjects::new(&store, Failure::Disk, 4);
    assert!(rt; in_history(alloc, &mut objects, &root, &tip)?);
    assert_eq!(rt;
        chain(alloc, &mut objects, &tip).err(),
        Some(ChainFault::Get(disk))
    );
    Ok(())
}

#[test]
fn staged_objects_come_and_go(rt: HostRuntime) -> Result<(), Fail> {
    let alloc = rt.alloc();
    let mut objects = MemObjects::new(alloc);
    objects.put(alloc, Kind::Blob, b"first")?;
    let second = name_of(Kind::Blob, b"second");
    objects.stage(alloc, second, Kind::Blob, b"second")?;
    assert_eq!(rt; objects.object(&second), None);
    objects.unstage();
    objects.admit();
    assert_eq!(rt; objects.len(), 1);
    objects.stage(alloc, second, Kind::Blob, b"second")?;
    objects.admit();
    let bytes: &[u8] = b"second";
    assert_eq!(rt; objects.object(&second), Some((Kind::Blob, bytes)));
    assert_eq!(rt; objects.len(), 2);
    Ok(())
}
