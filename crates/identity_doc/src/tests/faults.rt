// Faults of look-ups, which are answered as they are.
use super::chains::{CHANGE, FIRST, ONE, at};
use super::objects::{keyring_of, put_all};
use crate::{IdFault, id_chain};
use commit_graph::{FailingObjects, Failure, GetFault, MemObjects};
use keyring::Keyring;
use rad_base::{Oid, Rid};
use std::alloc::Global;
use std::test::Fail;

// The fault of a look-up that is answered.
fn fault_answered(
    alloc: Global,
    store: &mut FailingObjects<'_>,
    keyring: &Keyring,
    rid: Oid,
    tip: Oid,
) -> Option<GetFault> {
    match id_chain(alloc, store, keyring, &Rid(rid), &tip) {
        Err(IdFault::Get(fault)) => Some(fault),
        _ => None,
    }
}

#[test]
fn faults_of_look_ups_are_handed_on(rt: HostRuntime) -> Result<(), Fail> {
    let alloc = rt.alloc();
    let mut objects = MemObjects::new(alloc);
    let mut names = Vec::new(alloc);
    put_all(alloc, &mut objects, &mut names, &ONE)?;
    let (rid, root) = (at(&names, 0), at(&names, 3));
    names.push(root)?;
    put_all(alloc, &mut objects, &mut names, &CHANGE)?;
    let tip = at(&names, 9);
    let keyring = keyring_of(alloc, b"a", FIRST)?;

    let mut store = FailingObjects::new(&objects, Failure::Disk, u64::MAX);
    let doc = id_chain(alloc, &mut store, &keyring, &Rid(rid), &tip)?;
    assert_eq!(rt; doc.threshold, 1);
    let looks = store.looks();
    assert!(rt; looks > 0);
    for failure in [Failure::Disk, Failure::Change] {
        for answered in 0..looks {
            let mut store = FailingObjects::new(&objects, failure, answered);
            let fault = fault_answered(alloc, &mut store, &keyring, rid, tip);
            assert!(rt; fault.is_some());
            assert_eq!(rt; fault, store.fault());
        }
    }
    Ok(())
}
