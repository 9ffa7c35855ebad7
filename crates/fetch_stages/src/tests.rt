// Which batches are put, and how sections end, over a keep in memory.
ghost use Rattle.std.specs.Prelude.{◌≤◌, IfOk, length};

use crate::*;
use fetch_wire::{Part, Which};
use git_object::Kind;
use rad_base::{Bytes, Oid, Rid};
use rad_outside::MemSource;
use repo_slice::{KeepFault, Made, MemKeep};
use std::alloc::Global;
use std::test::Fail;

const RID: Rid = Rid(Oid([7; 20]));

// So many zero bytes, 32 MiB at most.
fn zeros(alloc: Global, size: usize) -> Result<Bytes, Fail>
    ensures { IfOk result (λ content. length content ≤ 33554432) }
{
    Ok(Bytes::of(vec![in alloc; 0; size.min(33_554_432)]?))
}

// Adds so many blobs of a size, for each pair, and says that no more follow.
fn put_all(alloc: Global, keep: &mut MemKeep, runs: &[(usize, usize)]) -> Result<(), Fail> {
    let mut batcher = Batcher::new(alloc);
    for (count, size) in runs {
        add_run(alloc, &mut batcher, keep, *count, *size)?;
    }
    batcher.finish(keep, &RID)?;
    Ok(())
}

fn add_run(
    alloc: Global,
    batcher: &mut Batcher,
    keep: &mut MemKeep,
    count: usize,
    size: usize,
) -> Result<(), Fail> {
    for _ in 0..count {
        batcher.add(keep, &RID, Kind::Blob, zeros(alloc, size)?)?;
    }
    Ok(())
}

// How many objects each put has; 0 for a call that failed.
fn counts(alloc: Global, keep: &MemKeep) -> Result<Vec<usize>, Fail> {
    let mut counts = Vec::new(alloc);
    for made in keep.made() {
        counts.push(match made {
            Made::Put(_, batch) => batch.len(),
            Made::Missed(_) | Made::Refused(..) => 0,
        })?;
    }
    Ok(counts)
}

#[test]
fn batches_are_as_long_as_they_may_be(rt: HostRuntime) -> Result<(), Fail> {
    let alloc = rt.alloc();
    let rows: [(&[(usize, usize)], &[usize]); 3] = [
        (&[(1025, 0)], &[1024, 1]),
        (&[(2, 2_097_152), (1, 1)], &[2, 1]),
        (&[(2, 9), (1, 5_000_000), (2, 9)], &[2, 1, 2]),
    ];
    for (runs, wanted) in rows {
        let mut keep = MemKeep::new(alloc, 9);
        put_all(alloc, &mut keep, runs)?;
        assert_eq!(rt; counts(alloc, &keep)?.as_slice(), wanted);
    }
    Ok(())
}

#[test]
fn a_refused_put_is_the_answer(rt: HostRuntime) -> Result<(), Fail> {
    let alloc = rt.alloc();
    let mut keep = MemKeep::new(alloc, 1);
    let mut batcher = Batcher::new(alloc);
    add_run(alloc, &mut batcher, &mut keep, 1, 5_000_000)?;
    add_run(alloc, &mut batcher, &mut keep, 1, 1)?;
    assert_eq!(rt; counts(alloc, &keep)?.as_slice(), [1].as_slice());
    assert_eq!(rt; batcher.finish(&mut keep, &RID), Err(KeepFault::DiskFault));
    assert_eq!(rt; counts(alloc, &keep)?.as_slice(), [1, 0].as_slice());
    Ok(())
}

// Two objects of 2 and 0 bytes, whose units begin at 1 and 9, and the end word at 15.
const TIPS: &[u8] = b"DO\x03\0\0\0\x02abO\x04\0\0\0\0end\nmore";

// An input of these bytes, in pieces of 7.
fn input_of(alloc: Global, bytes: &[u8], fails: &[u64]) -> Result<Input<MemSource>, Fail> {
    let source = MemSource::new(bytes.to_vec(alloc)?, 7, fails.to_vec(alloc)?);
    Ok(Input::new(source, piece_buffer(alloc)?))
}

// How a section of tips ends over a source and a keep of which these calls fail, and how many
// objects each put has.
fn put_tips(
    alloc: Global,
    bytes: &[u8],
    fails: &[u64],
    calls: u64,
) -> Result<(Result<u64, SectionStop>, Vec<usize>), Fail> {
    let mut keep = MemKeep::new(alloc, calls);
    let mut input = input_of(alloc, bytes, fails)?;
    let section = put_section(alloc, &mut input, Which::Tips, &mut keep, &RID, 99);
    Ok((section.map(|section| section.used), counts(alloc, &keep)?))
}

#[test]
fn sections_are_put_as_far_as_they_go(rt: HostRuntime) -> Result<(), Fail> {
    let alloc = rt.alloc();
    let (end, puts) = put_tips(alloc, TIPS, &[], 9)?;
    assert_eq!(rt; end, Ok(19));
    assert_eq!(rt; puts.as_slice(), [2].as_slice());
    let (end, puts) = put_tips(alloc, b"DO\x03\0\0\0\x02abO\x04\0", &[], 9)?;
    assert_eq!(rt; end, Err(SectionStop::Ends(9)));
    assert_eq!(rt; puts.len(), 0);
    let (end, puts) = put_tips(alloc, TIPS, &[1], 9)?;
    assert_eq!(rt; end, Err(SectionStop::ReadFault));
    assert_eq!(rt; puts.len(), 0);
    let (end, puts) = put_tips(alloc, TIPS, &[], 0)?;
    assert_eq!(rt; end, Err(SectionStop::Keep(KeepFault::DiskFault)));
    assert_eq!(rt; puts.as_slice(), [0].as_slice());
    Ok(())
}

#[test]
fn what_follows_a_section_waits(rt: HostRuntime) -> Result<(), Fail> {
    let alloc = rt.alloc();
    let mut keep = MemKeep::new(alloc, 9);
    let mut input = input_of(alloc, TIPS, &[])?;
    let section = put_section(alloc, &mut input, Which::Tips, &mut keep, &RID, 99)?;
    assert!(rt; matches!(section.head, Some(Part::TipsHead)));
    assert_eq!(rt; input.rest(), b"mo".as_slice());
    Ok(())
}
