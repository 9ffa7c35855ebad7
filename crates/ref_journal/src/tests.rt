// Each public call with ample memory, and a disk that is lent and whose calls fail.
ghost use Rattle.std.specs.Prelude.{◌≡◌, ◌≤◌, ◌++◌, ◌∷◌, [], List, ℕ, None, IfErr, IfNone, IfOk};
ghost use Rattle.std.specs.Prelude.{IfSome, OnOk, OnSome};
ghost use Rattle.ref_journal.specs.Holds.{HasAppendCause, Holds};
ghost use Rattle.ref_journal.specs.Images.{IsJournal};
ghost use Rattle.ref_journal.specs.Moments.{HasBodies};

use crate::{AppendFault, Journal, MakeFault, OpenFault, Parcel};
use rad_outside::{Disk, MemDisk};
use std::alloc::Global;
use std::test::Fail;

const FRESH: [u8; 9] = [1, 0x72, 0x61, 0x64, 0x6a, 0x72, 0x6e, 1, 0];

// Appends two bodies, one after the other.
fn append_both<D: Disk>(
    journal: &mut Journal<D>,
    first: &Parcel,
    second: &Parcel,
) -> Result<u64, AppendFault>
    ensures stays { D.loan journal.new.disk ≡ D.loan journal.old.disk }
    ensures later { D.faults journal.old.disk ≤ D.faults journal.new.disk }
    ensures cause { IfErr result (HasAppendCause (D.faults journal.old.disk)
        (D.faults journal.new.disk)) }
    ensures holds { OnOk result ((bodies : List (List ℕ))
        → Holds D.reads_as D.images journal.old bodies None
        → Holds D.reads_as D.images journal.new ((bodies ++ first.now ∷ []) ++ second.now ∷ [])
        None) }
{
    journal.append(first)?;
    journal.append(second)
}

// Appends two bodies to the journal of a disk that is lent. None is that there is no journal.
fn append_to<D: Disk>(
    disk: &mut D,
    first: &Parcel,
    second: &Parcel,
) -> Result<Option<u64>, AppendFault>
    ensures later { D.faults disk.old ≤ D.faults disk.new }
    ensures cause { IfErr result (HasAppendCause (D.faults disk.old) (D.faults disk.new)) }
    ensures none { IfOk result (λ place. IfNone place
        (IfSome (D.reads_as disk.old) (λ bytes. IsJournal [] 8 bytes → ⊥))) }
    ensures images { IfOk result (λ place. OnSome place
        (IfSome (D.reads_as disk.old) (λ bytes. IsJournal [] 8 bytes
        → (image : List ℕ) → D.images disk.new image
        → HasBodies (first.now ∷ second.now ∷ []) image))) }
{
    let mut journal = match Journal::open(disk) {
        Ok(journal) => journal,
        Err(OpenFault::DiskFault(_disk)) => return Err(AppendFault::DiskFault { in_doubt: false }),
        Err(OpenFault::Unmade(_disk)) => return Ok(None),
        Err(OpenFault::Damaged(_disk, _)) => return Ok(None),
    };
    let added = append_both(&mut journal, first, second);
    let _disk = journal.close();
    match added {
        Ok(place) => Ok(Some(place)),
        Err(fault) => Err(fault),
    }
}

#[test]
fn each_call_of_a_lent_disk_fails_in_turn(rt: HostRuntime) -> Result<(), Fail> {
    let alloc = rt.alloc();
    let first = Parcel::of(alloc, &[0xaa])?;
    let second = Parcel::of(alloc, &[])?;
    for (n, end) in [8, 8, 8, 8, 8, 8, 8, 18, 18, 18, 18, 27]
        .into_iter()
        .enumerate()
    {
        let mut disk = MemDisk::new(alloc, FRESH.to_vec(alloc)?, vec![in alloc; n as u64]?);
        assert_eq!(rt;
            append_to(&mut disk, &first, &second),
            Err(AppendFault::DiskFault {
                in_doubt: [6, 7, 10, 11].contains(&n)
            }),
            "at {n}"
        );
        assert_eq!(rt; end_of(alloc, disk.bytes())?, Some(end), "at {n}");
    }
    let mut disk = MemDisk::new(alloc, FRESH.to_vec(alloc)?, Vec::new(alloc));
    assert_eq!(rt; append_to(&mut disk, &first, &second), Ok(Some(27)));
    assert_eq!(rt; end_of(alloc, disk.bytes())?, Some(27));
    Ok(())
}

// Where the journal of these bytes ends.
fn end_of(alloc: Global, bytes: &[u8]) -> Result<Option<u64>, Fail> {
    let disk = MemDisk::new(alloc, bytes.to_vec(alloc)?, Vec::new(alloc));
    match Journal::open(disk) {
        Ok(journal) => Ok(Some(journal.end())),
        Err(_) => Ok(None),
    }
}

#[test]
fn one_short_body(rt: HostRuntime) -> Result<(), Fail> {
    let alloc = rt.alloc();
    let disk = MemDisk::new(alloc, FRESH.to_vec(alloc)?, Vec::new(alloc));
    let Ok(mut journal) = Journal::open(disk) else {
        return Err(Fail::new("not open"));
    };
    assert_eq!(rt; journal.append(&Parcel::of(alloc, &[0xaa])?), Ok(17));
    assert_eq!(rt; journal.end(), 18);
    let mut body = Vec::new(alloc);
    assert_eq!(rt; journal.scan(8, &mut body), Ok(Some(18)));
    assert_eq!(rt; body.as_slice(), [0xaa].as_slice());
    assert_eq!(rt; journal.scan(18, &mut body), Ok(None));
    let text = hex::encode(alloc, journal.close().bytes())?;
    assert_eq!(rt; text.as_str(), "017261646a726e01010000000000000001aa00");
    Ok(())
}

#[test]
fn the_longest_body(rt: HostRuntime) -> Result<(), Fail> {
    let alloc = rt.alloc();
    let mut body = vec![in alloc; 7; 34_000_000]?;
    body.push(9)?;
    let parcel = Parcel::of(alloc, &body[1..])?;
    let disk = MemDisk::new(alloc, FRESH.to_vec(alloc)?, Vec::new(alloc));
    let Ok(mut journal) = Journal::open(disk) else {
        return Err(Fail::new("not open"));
    };
    assert_eq!(rt; journal.append(&parcel), Ok(17));
    let mut read = Vec::new(alloc);
    assert_eq!(rt; journal.scan(8, &mut read), Ok(Some(34_000_017)));
    assert!(rt; read.as_slice() == &body[1..]);
    Ok(())
}

// A disk of no bytes whose calls of these numbers fail, made a journal.
fn made(alloc: Global, fails: Vec<u64>) -> Option<Journal<MemDisk>> {
    match Journal::make(MemDisk::new(alloc, Vec::new(alloc), fails)) {
        Ok(journal) => Some(journal),
        Err(_) => None,
    }
}

// A making has five calls: the size, two writes and two syncs. The tenth call is an append's second
// sync, the eleventh the write of a mend.
#[test]
fn a_body_in_doubt_is_mended(rt: HostRuntime) -> Result<(), Fail> {
    let alloc = rt.alloc();
    let Some(mut journal) = made(alloc, vec![in alloc; 8u64, 9]?) else {
        return Err(Fail::new("not made"));
    };
    let first = Parcel::of(alloc, &[0xaa])?;
    let second = Parcel::of(alloc, &[0xbb, 0xbb])?;
    assert_eq!(rt;
        journal.append(&first),
        Err(AppendFault::DiskFault { in_doubt: true })
    );
    assert_eq!(rt; journal.end(), 8);
    assert_eq!(rt;
        journal.append(&second),
        Err(AppendFault::DiskFault { in_doubt: false })
    );
    assert!(rt; journal.mend().is_ok());
    assert!(rt; journal.mend().is_ok());
    assert_eq!(rt; journal.append(&second), Ok(17));
    let text = hex::encode(alloc, journal.close().bytes())?;
    assert_eq!(rt; text.as_str(), "017261646a726e01010000000000000002bbbb00");
    Ok(())
}

#[test]
fn a_journal_is_made_once(rt: HostRuntime) -> Result<(), Fail> {
    let alloc = rt.alloc();
    let Some(journal) = made(alloc, Vec::new(alloc)) else {
        return Err(Fail::new("not made"));
    };
    let disk = journal.close();
    assert_eq!(rt; disk.bytes(), FRESH.as_slice());
    match Journal::make(disk) {
        Err(MakeFault::AlreadyMade(disk)) => assert_eq!(rt; disk.bytes(), FRESH.as_slice()),
        _ => return Err(Fail::new("made twice")),
    }
    Ok(())
}
