// A look-up that fails, at each place of the walks under `head`: its fault is the answer.
use super::many_tips::chain_of;
use crate::head;
use commit_graph::{FailingObjects, Failure, GetFault};
use rad_base::Oid;
use std::alloc::Global;
use std::test::Fail;

// The fault that the head of two tips answers, and whether it is that of the objects.
fn answered(
    alloc: Global,
    failure: Failure,
    answers: u64,
) -> Result<(Option<GetFault>, bool), Fail> {
    let (objects, tips) = chain_of(alloc, 5)?;
    let none = Oid([0; 20]);
    let root = tips.first().copied().unwrap_or(none);
    let tip = tips.last().copied().unwrap_or(none);
    let mut failing = FailingObjects::new(&objects, failure, answers);
    let fault = head(alloc, &mut failing, &[tip, root], 1).err();
    Ok((fault, fault == failing.fault()))
}

#[test]
fn each_failing_look_up_is_the_answer(rt: HostRuntime) -> Result<(), Fail> {
    for answers in 0..5 {
        let (fault, same) = answered(rt.alloc(), Failure::Disk, answers)?;
        assert_eq!(rt; fault, Some(GetFault::DiskFault));
        assert!(rt; same);
        let (fault, same) = answered(rt.alloc(), Failure::Change, answers)?;
        assert!(rt; matches!(fault, Some(GetFault::Changed(_))));
        assert!(rt; same);
    }
    Ok(())
}
