// A body of each kind, written and read.
use crate::*;
use git_object::Kind;
use rad_base::{Bytes, Nid, Oid, Remotes, Rid};
use repo_entries::Batch;
use std::test::Fail;

const RID: Rid = Rid(Oid([7; 20]));

#[test]
fn a_put_is_written_and_read(rt: HostRuntime) -> Result<(), Fail> {
    let alloc = rt.alloc();
    let mut batch = Batch::new(alloc);
    batch.push(Kind::Blob, Bytes::copy_of(alloc, b"1\n")?)?;
    let put = put_body(alloc, &RID, &batch)?;
    let digits = b"01070707070707070707070707070707070707070700000001\
      0300000002310a";
    assert_eq!(rt; put.as_slice(), hex::decode(alloc, digits)?.as_slice());
    match read_body(alloc, put.as_slice())? {
        Some(Body::Put(rid, batch)) => assert_eq!(rt; (rid, batch.len()), (RID, 1)),
        _ => return Err(Fail::new("no put")),
    }
    Ok(())
}

#[test]
fn an_install_is_written_and_read(rt: HostRuntime) -> Result<(), Fail> {
    let alloc = rt.alloc();
    let mut remotes = Remotes::new(alloc);
    remotes.push(Nid([1; 32]), Oid([2; 20]))?;
    let install = install_body(alloc, &RID, &Oid([3; 20]), &remotes)?;
    let digits =
        b"0207070707070707070707070707070707070707070303030303030303030303030303030303030303\
      00010101010101010101010101010101010101010101010101010101010101010101\
      0202020202020202020202020202020202020202";
    assert_eq!(rt; install.as_slice(), hex::decode(alloc, digits)?.as_slice());
    match read_body(alloc, install.as_slice())? {
        Some(Body::Install(_, offer)) => assert_eq!(rt; offer.remotes.as_slice().len(), 1),
        _ => return Err(Fail::new("no install")),
    }
    Ok(())
}

// What a node says of itself: a feature, the time 7, an alias and an address. A ping is no entry.
#[test]
fn an_announcement_is_read_and_written(rt: HostRuntime) -> Result<(), Fail> {
    let alloc = rt.alloc();
    let mut bytes = vec![in alloc; 3u8, 0, 2]?;
    bytes.extend_from_slice(&[0x21; 96])?;
    let about = b"0000000000000001000000000000000705616c6961730103613a31";
    bytes.extend_from_slice(&hex::decode(alloc, about)?)?;
    match read_body(alloc, &bytes)? {
        Some(Body::Heard(message)) => {
            let again = heard_body(alloc, &message)?;
            assert_eq!(rt; again.as_slice(), bytes.as_slice());
        }
        _ => return Err(Fail::new("not heard")),
    }
    assert!(rt; read_body(alloc, &[3, 0, 10, 0, 0, 0, 0])?.is_none());
    Ok(())
}
