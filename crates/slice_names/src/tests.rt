// The names of an identity and of two remotes.
use crate::*;
use rad_base::{Nid, Oid};
use std::test::Fail;

#[test]
fn each_name_is_told_once(rt: HostRuntime) -> Result<(), Fail> {
    let alloc = rt.alloc();
    let remotes = [
        (Nid([1; 32]), Oid([9; 20])),
        (Nid([2; 32]), Oid([3; 20])),
        (Nid([3; 32]), Oid([5; 20])),
    ];
    let names = names_of(alloc, Some(Oid([5; 20])), &remotes)?;
    assert_eq!(rt; names.as_slice().len(), 3);
    assert_eq!(rt; names.as_slice().first().copied(), Some(Oid([3; 20])));
    assert_eq!(rt; names.as_slice().last().copied(), Some(Oid([9; 20])));
    Ok(())
}
