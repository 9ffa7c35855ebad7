// Signed refs, read and written, and names in a namespace.
mod commits;

use super::*;
use crate::RefsFault::BadLine;
use rad_base::{Nid, Oid};
use std::alloc::{AllocError, Global};
use std::test::Fail;

// A line of a name's digits and a ref.
fn push_line(blob: &mut Vec<u8>, digits: &[u8], name: &[u8]) -> Result<(), AllocError> {
    for _ in 0..20 {
        blob.extend_from_slice(digits)?;
    }
    blob.push(b' ')?;
    blob.extend_from_slice(name)?;
    blob.push(b'\n')?;
    Ok(())
}

fn count(alloc: Global, blob: &[u8]) -> Result<usize, RefsFault> {
    let refs = read_refs(alloc, blob)?;
    Ok(refs.len())
}

#[test]
fn the_first_broken_line_is_told(rt: HostRuntime) -> Result<(), Fail> {
    let alloc = rt.alloc();
    let mut blob = Vec::new(alloc);
    assert_eq!(rt; count(alloc, &blob), Ok(0));
    push_line(&mut blob, b"11", b"refs/heads/a")?;
    push_line(&mut blob, b"22", b"refs/rad/root")?;
    assert_eq!(rt; count(alloc, &blob), Ok(2));
    push_line(&mut blob, b"33", b"refs/heads/b")?;
    assert_eq!(rt; count(alloc, &blob), Err(BadLine(3)));
    Ok(())
}

#[test]
fn what_is_read_is_written_back(rt: HostRuntime) -> Result<(), Fail> {
    let alloc = rt.alloc();
    let mut blob = Vec::new(alloc);
    push_line(&mut blob, b"11", b"refs/heads/a")?;
    push_line(&mut blob, b"22", b"refs/rad/root")?;
    let refs = read_refs(alloc, &blob)?;
    assert_eq!(rt; refs.get(b"refs/heads/a"), Some(Oid([0x11; 20])));
    assert_eq!(rt; refs.get(b"refs/rad/root"), Some(Oid([0x22; 20])));
    assert_eq!(rt; refs.get(b"refs/rad/roo"), None);
    assert_eq!(rt; write_refs(alloc, &refs)?.as_slice(), blob.as_slice());
    let none = Refs::new(alloc);
    assert_eq!(rt; write_refs(alloc, &none)?.len(), 0);
    assert_eq!(rt; Refs::of(refs.into_vec()).len(), 2);
    let name = RefName::of(b"refs/heads/a".to_vec(alloc)?);
    assert_eq!(rt; name.into_vec().as_slice(), b"refs/heads/a".as_slice());
    Ok(())
}

// A blob of n lines whose names rise.
fn many(alloc: Global, n: u32) -> Result<Vec<u8>, Fail> {
    let mut blob = Vec::new(alloc);
    for i in 0..n {
        let mut digits = [0u8; 8];
        hex::encode_to_slice(&i.to_be_bytes(), &mut digits)?;
        let mut name = b"refs/heads/".to_vec(alloc)?;
        name.extend_from_slice(&digits)?;
        push_line(&mut blob, b"ab", &name)?;
    }
    Ok(blob)
}

#[test]
fn there_are_at_most_65_536_lines(rt: HostRuntime) -> Result<(), Fail> {
    let alloc = rt.alloc();
    assert_eq!(rt; count(alloc, &many(alloc, 65_536)?), Ok(65_536));
    let mut blob = many(alloc, 65_537)?;
    assert_eq!(rt; count(alloc, &blob), Err(RefsFault::TooMany));
    blob.push(b'x')?;
    assert_eq!(rt; count(alloc, &blob), Err(RefsFault::TooMany));
    Ok(())
}

#[test]
fn a_name_stands_under_its_node(rt: HostRuntime) -> Result<(), Fail> {
    let alloc = rt.alloc();
    let name = RefName::copy_of(alloc, b"refs/heads/master")?;
    let long = namespace(alloc, &Nid([0x11; 32]), &name)?;
    let node = hex::encode(alloc, [0x11; 32])?;
    let want = format!(in alloc; "refs/namespaces/{node}/refs/heads/master")?;
    assert_eq!(rt; want.len(), 98);
    assert_eq!(rt; long.as_slice(), want.as_bytes());
    Ok(())
}
