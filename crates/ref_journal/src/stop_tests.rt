// What stands when a run stops at any call of its disk.
use crate::{AppendFault, Journal, Parcel};
use rad_outside::{Fill, MemDisk};
use std::alloc::Global;
use std::test::Fail;

// What stands on a disk: a journal of no body, one of the body `aa`, or anything else.
#[derive(Clone, Copy, Debug, PartialEq, Eq)]
enum Stands {
    Nothing,
    First,
    Other,
}

// What an opening finds in these bytes.
fn found(alloc: Global, bytes: Vec<u8>) -> Result<Stands, Fail> {
    let mut journal = match Journal::open(MemDisk::new(alloc, bytes, Vec::new(alloc))) {
        Ok(journal) => journal,
        Err(_) => return Ok(Stands::Other),
    };
    let mut all = Vec::new(alloc);
    let mut body = Vec::new(alloc);
    let mut place = 8;
    for _ in 0..3 {
        match journal.scan(place, &mut body)? {
            None => break,
            Some(next) => {
                all.extend_from_slice(&body)?;
                all.push(b'.')?;
                place = next;
            }
        }
    }
    Ok(match all.as_slice() {
        b"" => Stands::Nothing,
        b"\xaa." => Stands::First,
        _ => Stands::Other,
    })
}

// A journal of the nine bytes, which an opening reads by four calls.
fn opened(alloc: Global, fails: Vec<u64>) -> Result<Journal<MemDisk>, Fail> {
    let bytes = b"\x01radjrn\x01\0".to_vec(alloc)?;
    match Journal::open(MemDisk::new(alloc, bytes, fails)) {
        Ok(journal) => Ok(journal),
        Err(_) => Err(Fail::new("not open")),
    }
}

// What stands after each of an append's four calls, by what the ranges hold.
#[test]
fn an_append_stops_after_each_call(rt: HostRuntime) -> Result<(), Fail> {
    const NOTHING: [Stands; 4] = [Stands::Nothing; 4];
    let alloc = rt.alloc();
    let mut journal = opened(alloc, Vec::new(alloc))?;
    assert_eq!(rt; journal.append(&Parcel::of(alloc, &[0xaa])?), Ok(17));
    let gate = [
        Stands::Nothing,
        Stands::First,
        Stands::First,
        Stands::Nothing,
    ];
    for (call, stand) in [
        (4, NOTHING),
        (5, NOTHING),
        (6, NOTHING),
        (7, gate),
        (8, [Stands::First; 4]),
    ] {
        for (fill, want) in [Fill::Old, Fill::New, Fill::Byte(1), Fill::Byte(7)]
            .into_iter()
            .zip(stand)
        {
            let image = journal.disk().crash(alloc, call, fill)?;
            assert_eq!(rt; found(alloc, image)?, want, "{fill:?} after {call}");
        }
    }
    Ok(())
}

// The second sync of an append fails. What stands after each of a mend's two calls.
#[test]
fn a_mend_stops_after_each_call(rt: HostRuntime) -> Result<(), Fail> {
    let alloc = rt.alloc();
    let mut journal = opened(alloc, vec![in alloc; 7u64]?)?;
    assert_eq!(rt;
        journal.append(&Parcel::of(alloc, &[0xaa])?),
        Err(AppendFault::DiskFault { in_doubt: true })
    );
    assert!(rt; journal.mend().is_ok());
    for (call, fill, want) in [
        (9, Fill::Byte(1), Stands::First),
        (9, Fill::New, Stands::Nothing),
        (10, Fill::Byte(1), Stands::Nothing),
        (10, Fill::New, Stands::Nothing),
        (10, Fill::Old, Stands::Nothing),
    ] {
        let image = journal.disk().crash(alloc, call, fill)?;
        assert_eq!(rt; found(alloc, image)?, want, "{fill:?} after {call}");
    }
    Ok(())
}

// An open has four calls, of which one syncs. An append has four that write or sync, a mend two and
// none where nothing is in doubt, and an append that mends first as many as both.
#[test]
fn calls_are_few(rt: HostRuntime) -> Result<(), Fail> {
    let alloc = rt.alloc();
    let mut journal = opened(alloc, vec![in alloc; 11u64]?)?;
    let parcel = Parcel::of(alloc, &[0xaa])?;
    assert_eq!(rt; journal.disk().calls(), 4);
    assert!(rt; journal.mend().is_ok());
    assert_eq!(rt; journal.disk().calls(), 4);
    assert_eq!(rt; journal.append(&parcel), Ok(17));
    assert_eq!(rt; journal.disk().calls(), 8);
    assert_eq!(rt;
        journal.append(&parcel),
        Err(AppendFault::DiskFault { in_doubt: true })
    );
    assert_eq!(rt; journal.disk().calls(), 12);
    assert_eq!(rt; journal.append(&parcel), Ok(27));
    assert_eq!(rt; journal.disk().calls(), 18);
    Ok(())
}

// Parts of a journal of two bodies.
#[test]
fn pieces(rt: HostRuntime) -> Result<(), Fail> {
    let alloc = rt.alloc();
    let mut journal = opened(alloc, Vec::new(alloc))?;
    assert_eq!(rt; journal.append(&Parcel::of(alloc, b"body")?), Ok(17));
    let mut piece = [9; 5];
    assert_eq!(rt; journal.end(), 21);
    if journal.end() == 21 {
        assert_eq!(rt; journal.piece(16, &mut piece), Ok(()));
        assert_eq!(rt; piece, *b"\x04body");
        assert_eq!(rt; journal.piece(21, &mut []), Ok(()));
    }
    Ok(())
}
