// Heads of a history that forks and is joined again, by both programs.
use crate::answer::Head;
use crate::{head, head_by_histories};
use commit_graph::MemObjects;
use git_object::{Kind, write_commit};
use rad_base::{NoMemory, Oid, parse_oid};
use std::alloc::Global;
use std::test::Fail;

// A commit of the empty tree.
fn put_commit(
    alloc: Global,
    objects: &mut MemObjects,
    parents: &[Oid],
    rest: &[u8],
) -> Result<Oid, NoMemory> {
    let mut text = b"author ".to_vec(alloc)?;
    text.extend_from_slice(rest)?;
    let tree = parse_oid(b"4b825dc642cb6eb9a060e54bf8d69288fbee4904").unwrap_or(Oid([0; 20]));
    let bytes = write_commit(alloc, &tree, parents, &text)?;
    objects.put(alloc, Kind::Commit, &bytes)
}

// The head, where both programs give the same.
fn both(
    alloc: Global,
    objects: &mut MemObjects,
    tips: &[Oid],
    threshold: u8,
) -> Result<Option<Head>, Fail> {
    let found = head(alloc, objects, tips, threshold)?;
    let plain = head_by_histories(alloc, objects, tips, threshold)?;
    Ok(if found == plain { Some(found) } else { None })
}

#[test]
fn heads_of_a_fork(rt: HostRuntime) -> Result<(), Fail> {
    let alloc = rt.alloc();
    let mut objects = MemObjects::new(alloc);
    let root = put_commit(alloc, &mut objects, &[], b"a")?;
    let left = put_commit(alloc, &mut objects, &[root], b"b")?;
    let right = put_commit(alloc, &mut objects, &[root], b"c")?;
    let merge = put_commit(alloc, &mut objects, &[left, right], b"d")?;
    let (least, other) = if left < right {
        (left, right)
    } else {
        (right, left)
    };
    let rows: [(&[Oid], u8, Head); 6] = [
        (&[], 1, Head::NoQuorum),
        (&[left, right], 1, Head::Diverging(least, other)),
        (&[left, right], 2, Head::NoQuorum),
        (&[left, right, root], 3, Head::At(root)),
        (&[merge, left], 2, Head::At(left)),
        (&[right, merge, left], 1, Head::At(merge)),
    ];
    for (tips, threshold, want) in rows {
        let found = both(alloc, &mut objects, tips, threshold)?;
        assert_eq!(rt; found, Some(want), "{threshold}");
    }
    Ok(())
}
