// Batches of objects, and histories.
use super::*;
use git_object::Kind;
use rad_base::{Bytes, Oid, Rid};
use std::test::Fail;

#[test]
fn a_copy_has_the_objects_and_their_names_in_order(rt: HostRuntime) -> Result<(), Fail> {
    let alloc = rt.alloc();
    let mut batch = Batch::new(alloc);
    batch.push(Kind::Blob, Bytes::copy_of(alloc, b"a")?)?;
    batch.push(Kind::Tree, Bytes::copy_of(alloc, b"")?)?;
    let copy = batch.copy(alloc)?;
    let names = batch.names(alloc)?;
    let [a, empty] = names.as_slice() else {
        assert!(rt; false);
        return Ok(());
    };
    assert_eq!(rt;
        *a,
        Oid(*b"\x2e\x65\xef\xe2\xa1\x45\xdd\xa7\xee\x51\xd1\x74\x12\x99\xf8\x48\xe5\xbf\x75\x2e")
    );
    assert_eq!(rt;
        *empty,
        Oid(*b"\x4b\x82\x5d\xc6\x42\xcb\x6e\xb9\xa0\x60\xe5\x4b\xf8\xd6\x92\x88\xfb\xee\x49\x04")
    );
    batch.clear();
    assert_eq!(rt; batch.len(), 0);
    assert_eq!(rt; copy.len(), 2);
    let [(first, content), (second, rest)] = copy.as_slice() else {
        assert!(rt; false);
        return Ok(());
    };
    assert_eq!(rt; (*first, content.as_slice()), (Kind::Blob, b"a".as_slice()));
    assert_eq!(rt; (*second, rest.as_slice()), (Kind::Tree, b"".as_slice()));
    Ok(())
}

fn claim(caller: u64) -> Entry {
    Entry::Claim {
        rid: Rid(Oid([7; 20])),
        caller,
    }
}

#[test]
fn a_history_has_its_entries_in_order(rt: HostRuntime) -> Result<(), Fail> {
    let mut history = History::new(rt.alloc());
    history.make_room()?;
    history.push(claim(1));
    history.make_room()?;
    history.push(claim(2));
    history.make_room()?;
    history.push(claim(3));
    assert_eq!(rt; history.count(), 3);
    let [
        Entry::Claim { caller: first, .. },
        Entry::Claim { caller: second, .. },
        Entry::Claim { caller: third, .. },
    ] = history.as_slice()
    else {
        assert!(rt; false);
        return Ok(());
    };
    assert_eq!(rt; [*first, *second, *third], [1, 2, 3]);
    Ok(())
}
