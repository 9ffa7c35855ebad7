// Whole runs over objects in memory.
use crate::{Status, WhichSource, run_local};
use rad_outside::{Fill, MemDisk, MemSink, MemSource};
use rad_vectors::{Made, bundle_of};
use ref_journal::Journal;
use std::alloc::Global;
use std::test::Fail;

// A made store without entries.
const MADE: &[u8] = b"\x01radjrn\x01\x00";

// More entries than any store of these tests has.
const MOST_ENTRIES: u32 = 64;

const INIT: &[&str] = &["init", "store"];

const IMPORT: &[&str] = &["import", "store", "keyring", "bundle"];

const SHOW: &[&str] = &["show", "store", "keyring"];

const HEADS: &[&str] = &["heads", "store", "keyring"];

const AUDIT: &[&str] = &["audit", "store", "keyring"];

const FRAMES: &[&str] = &["frames", "file"];

const IMPORTED: &str = "job fd38665a716bc6e21e89857ce1cef9268f039ebc done
id first 297e20c3faf7e3b6c66b23dd3d17080eda0cabc9
remote 0101010101010101010101010101010101010101010101010101010101010101 advanced 4f325260b7e9a383b8b359e19cb64518da19eb3c
head at b1ff3dd5533f3275a83636b43d14c1d29c4410a1
";

const SHOWN: &str = "repo fd38665a716bc6e21e89857ce1cef9268f039ebc
id 297e20c3faf7e3b6c66b23dd3d17080eda0cabc9
remote 0101010101010101010101010101010101010101010101010101010101010101 4f325260b7e9a383b8b359e19cb64518da19eb3c 1
";

const HEAD: &str =
    "fd38665a716bc6e21e89857ce1cef9268f039ebc at b1ff3dd5533f3275a83636b43d14c1d29c4410a1\n";

// What a run is handed.
#[derive(Clone, Copy)]
struct Given<'a> {
    words: &'a [&'a str],
    store: &'a [u8],
    keyring: &'a [u8],
    bundle: &'a [u8],
    piece: usize,
    disk_fails: &'a [u64],
    keys_fails: &'a [u64],
    input_fails: &'a [u64],
    sink_fails: &'a [u64],
}

const GIVEN: Given<'static> = Given {
    words: IMPORT,
    store: MADE,
    keyring: &[],
    bundle: &[],
    piece: 65_536,
    disk_fails: &[],
    keys_fails: &[],
    input_fails: &[],
    sink_fails: &[],
};

// What a run leaves.
#[derive(Drop)]
struct Left {
    status: Status,
    disk: MemDisk,
    report: Vec<u8>,
}

fn words_of(alloc: Global, texts: &[&str]) -> Result<Vec<String>, Fail> {
    let mut words = Vec::new(alloc);
    for text in texts {
        words.push(String::from_str(alloc, text)?)?;
    }
    Ok(words)
}

fn run(alloc: Global, handed: &Given<'_>) -> Result<Left, Fail> {
    let words = words_of(alloc, handed.words)?;
    let piece = handed.piece.max(1);
    let mut disk = MemDisk::new(
        alloc,
        handed.store.to_vec(alloc)?,
        handed.disk_fails.to_vec(alloc)?,
    );
    let mut keys = MemSource::new(
        handed.keyring.to_vec(alloc)?,
        piece,
        handed.keys_fails.to_vec(alloc)?,
    );
    let mut input = MemSource::new(
        handed.bundle.to_vec(alloc)?,
        piece,
        handed.input_fails.to_vec(alloc)?,
    );
    let mut out = MemSink::new(alloc, handed.sink_fails.to_vec(alloc)?);
    let status = run_local(alloc, &words, &mut disk, &mut keys, &mut input, &mut out);
    Ok(Left {
        status,
        disk,
        report: out.bytes().to_vec(alloc)?,
    })
}

// A run over what was made of a repository.
fn run_on<'a>(
    alloc: Global,
    made: &'a Made,
    words: &'a [&'a str],
    store: &'a [u8],
) -> Result<Left, Fail> {
    let handed = Given {
        words,
        store,
        keyring: made.keyring.as_slice(),
        bundle: made.bundle.as_slice(),
        ..GIVEN
    };
    run(alloc, &handed)
}

// How many bodies a journal has, or none where the bytes are no journal.
fn entries_in(alloc: Global, store: &[u8]) -> Result<Option<usize>, Fail> {
    let disk = MemDisk::new(alloc, store.to_vec(alloc)?, Vec::new(alloc));
    let Ok(mut journal) = Journal::open(disk) else {
        return Ok(None);
    };
    let mut body = Vec::new(alloc);
    let mut place = 8;
    let mut count = 0_usize;
    for _ in 0..MOST_ENTRIES {
        if let Ok(Some(next)) = journal.scan(place, &mut body) {
            place = next;
            count = count.saturating_add(1);
        }
    }
    Ok(Some(count))
}

#[test]
fn each_command_prints_its_report(rt: HostRuntime) -> Result<(), Fail> {
    let alloc = rt.alloc();
    let made = bundle_of(alloc, 1)?;
    let cases: [(&[&str], Status, &str); 8] = [
        (&["show", "store"], Status::Usage, ""),
        (SHOW, Status::Unmade, ""),
        (INIT, Status::Ok, "made\n"),
        (IMPORT, Status::Ok, IMPORTED),
        (SHOW, Status::Ok, SHOWN),
        (HEADS, Status::Ok, HEAD),
        (
            AUDIT,
            Status::Ok,
            "entries 4 repositories 1 remotes 1 objects 11 announcements 0\n",
        ),
        (INIT, Status::AlreadyMade, ""),
    ];
    let mut store = Vec::new(alloc);
    for (words, status, report) in &cases {
        let left = run_on(alloc, &made, words, &store)?;
        assert_eq!(rt; left.status, *status);
        assert_eq!(rt; left.report.as_slice(), report.as_bytes());
        store = left.disk.bytes().to_vec(alloc)?;
    }
    Ok(())
}

#[test]
fn a_repository_is_made_by_rule(rt: HostRuntime) -> Result<(), Fail> {
    let handed = Given {
        words: &["gen", "store", "1"],
        ..GIVEN
    };
    let left = run(rt.alloc(), &handed)?;
    assert_eq!(rt; left.status, Status::Ok);
    assert_eq!(rt;
        left.report.as_slice(),
        b"commits 1\nobjects 11\nentries 4\nhead at b1ff3dd5533f3275a83636b43d14c1d29c4410a1\n".as_slice()
    );
    Ok(())
}

// `frames` asks no disk and no keyring. A file is read call by call; the second fails at last.
#[test]
fn frames_are_listed_or_refused_at_a_place(rt: HostRuntime) -> Result<(), Fail> {
    let ping: &[u8] = b"rad\x01\x02\x06\x00\x0a\x00\x04\x00\x00";
    let fault = Status::ReadFault(WhichSource::Input);
    let cases: [(&[u8], &[u64], Status, &str); 3] = [
        (ping, &[], Status::Ok, "0 gossip 0 0 6 ping\n"),
        (b"rad\x01\x40\x25", &[], Status::InputBad(4), ""),
        (ping, &[1], fault, ""),
    ];
    for (bytes, input_fails, status, report) in &cases {
        let handed = Given {
            words: FRAMES,
            bundle: bytes,
            piece: 5,
            keys_fails: &[0],
            disk_fails: &[0],
            input_fails,
            ..GIVEN
        };
        let left = run(rt.alloc(), &handed)?;
        assert_eq!(rt; left.status, *status);
        assert_eq!(rt; left.report.as_slice(), report.as_bytes());
        assert_eq!(rt; left.disk.calls(), 0);
    }
    Ok(())
}

// A file takes two calls of its source, the second of which finds the end.
#[test]
fn a_failing_call_is_told(rt: HostRuntime) -> Result<(), Fail> {
    let alloc = rt.alloc();
    let made = bundle_of(alloc, 1)?;
    let good = Given {
        keyring: made.keyring.as_slice(),
        bundle: made.bundle.as_slice(),
        ..GIVEN
    };
    for call in [0, 1] {
        let fails = [call];
        let keys = Given {
            keys_fails: &fails,
            ..good
        };
        let left = run(alloc, &keys)?;
        assert_eq!(rt; left.status, Status::ReadFault(WhichSource::Keys));
        assert_eq!(rt; left.disk.calls(), 0);
        let input = Given {
            input_fails: &fails,
            ..good
        };
        let left = run(alloc, &input)?;
        assert_eq!(rt; left.status, Status::ReadFault(WhichSource::Input));
        assert!(rt; left.report.is_empty());
    }
    let left = run(
        alloc,
        &Given {
            sink_fails: &[0],
            ..good
        },
    )?;
    assert_eq!(rt; left.status, Status::WriteFault);
    assert_eq!(rt; entries_in(alloc, left.disk.bytes())?, Some(4));
    assert!(rt; left.report.is_empty());
    Ok(())
}

// Each call of the disk fails in turn: those of the opening, and four for each of the four entries.
#[test]
fn a_failing_disk_leaves_a_front_of_the_entries(rt: HostRuntime) -> Result<(), Fail> {
    let alloc = rt.alloc();
    let made = bundle_of(alloc, 1)?;
    let good = Given {
        keyring: made.keyring.as_slice(),
        bundle: made.bundle.as_slice(),
        ..GIVEN
    };
    let calls = run(alloc, &good)?.disk.calls();
    let opening = calls.saturating_sub(16);
    for call in 0..calls {
        let left = run(
            alloc,
            &Given {
                disk_fails: &[call],
                ..good
            },
        )?;
        assert_eq!(rt; left.status, Status::DiskFault, "at call {call}");
        assert!(rt; left.report.is_empty());
        let acknowledged = call.saturating_sub(opening) / 4;
        let entries = entries_in(alloc, left.disk.bytes())?;
        let Some(entries) = entries else {
            return Err("the store does not open")?;
        };
        assert!(rt;
            entries as u64 == acknowledged || entries as u64 == acknowledged + 1,
            "at call {call}"
        );
    }
    Ok(())
}

// Whatever a crash makes of a write that was not synced, the store opens with every entry that was
// acknowledged before it, and at most one more.
#[test]
fn a_crash_keeps_what_was_acknowledged(rt: HostRuntime) -> Result<(), Fail> {
    let alloc = rt.alloc();
    let made = bundle_of(alloc, 1)?;
    let good = Given {
        keyring: made.keyring.as_slice(),
        bundle: made.bundle.as_slice(),
        ..GIVEN
    };
    let disk = run(alloc, &good)?.disk;
    let calls = disk.calls();
    let opening = calls.saturating_sub(16);
    for call in 0..=calls {
        let acknowledged = call.saturating_sub(opening) / 4;
        for fill in [Fill::Old, Fill::New, Fill::Byte(0), Fill::Byte(1)] {
            let image = disk.crash(alloc, call, fill)?;
            let audited = run(
                alloc,
                &Given {
                    words: AUDIT,
                    store: &image,
                    ..good
                },
            )?;
            assert_eq!(rt; audited.status, Status::Ok, "at call {call}");
            let entries = entries_in(alloc, &image)?.unwrap_or(0) as u64;
            assert!(rt; entries == acknowledged || entries == acknowledged + 1);
        }
    }
    Ok(())
}
