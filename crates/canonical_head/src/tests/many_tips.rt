// As many tips as there can be: over a long history, and all of them one.
use crate::answer::Head;
use crate::head;
use commit_graph::{FailingObjects, Failure, MemObjects};
use git_object::Kind;
use rad_base::{NoMemory, Oid};
use std::alloc::Global;
use std::test::Fail;

const EMPTY_TREE: &[u8] = b"tree 4b825dc642cb6eb9a060e54bf8d69288fbee4904\n";

fn commit(alloc: Global, parent: Option<Oid>) -> Result<Vec<u8>, NoMemory> {
    let mut bytes = Vec::from_slice(alloc, EMPTY_TREE)?;
    if let Some(parent) = parent {
        bytes.extend_from_slice(b"parent ")?;
        bytes.extend_from_slice(parent.text(alloc)?.as_slice())?;
        bytes.push(b'\n')?;
    }
    bytes.extend_from_slice(b"author a")?;
    Ok(bytes)
}

// A chain of commits, and the last of them, from the last but 254.
pub(crate) fn chain_of(alloc: Global, length: usize) -> Result<(MemObjects, Vec<Oid>), NoMemory> {
    let mut objects = MemObjects::new(alloc);
    let mut tips = Vec::new(alloc);
    let mut parent = None;
    for i in 0..length {
        let oid = objects.put(alloc, Kind::Commit, &commit(alloc, parent)?)?;
        parent = Some(oid);
        if length.saturating_sub(i) <= 255 {
            tips.push(oid)?;
        }
    }
    Ok((objects, tips))
}

#[test]
fn as_many_tips_as_there_can_be(rt: HostRuntime) -> Result<(), Fail> {
    let (mut objects, tips) = chain_of(rt.alloc(), 20_000)?;
    assert_eq!(rt; tips.len(), 255);
    let found = head(rt.alloc(), &mut objects, &tips, 128)?;
    assert_eq!(rt; Some(found), tips.get(127).copied().map(Head::At));
    Ok(())
}

// One walk looks up each commit once, for equal tips and for those in a line.
#[test]
fn tips_take_one_walk(rt: HostRuntime) -> Result<(), Fail> {
    let (objects, tips) = chain_of(rt.alloc(), 20)?;
    let tip = tips.last().copied().unwrap_or(Oid([0; 20]));
    let mut counting = FailingObjects::new(&objects, Failure::Disk, u64::MAX);
    let found = head(rt.alloc(), &mut counting, &[tip; 255], 255)?;
    assert_eq!(rt; found, Head::At(tip));
    assert_eq!(rt; counting.looks(), 20);
    let found = head(rt.alloc(), &mut counting, &tips, 1)?;
    assert_eq!(rt; found, Head::At(tip));
    assert_eq!(rt; counting.looks(), 40);
    Ok(())
}
