// The adapters over files that write down what they are asked.
use crate::fake_files::{Asked, FILE, Fails, Fake, FakeFiles};
use crate::{Disk, Failed, FileDisk, FileSource, Source};
use std::alloc::Global;
use std::process::Abort;
use std::test::Fail;

// What a file is opened for: reading, and what else stands there.
const TO_READ: [bool; 6] = [true, false, false, false, false, false];

const TO_WRITE: [bool; 6] = [true, true, false, false, false, false];

const TO_MAKE: [bool; 6] = [true, true, false, false, true, false];

// A call of a disk.
#[derive(Clone, Copy, Debug, PartialEq, Eq)]
enum Step {
    Size,
    Read(u64, usize),
    Write(u64, &'static [u8]),
    Sync,
}

// Does a step, and answers the size or how many bytes were read.
fn do_step<D: Disk>(disk: &mut D, step: Step, into: &mut [u8; 8]) -> Result<u64, Failed> {
    match step {
        Step::Size => disk.size(),
        Step::Read(place, count) => {
            let n = disk.read_at(place, &mut into[..count.min(8)])?;
            Ok(n as u64)
        }
        Step::Write(place, bytes) => {
            disk.write_at(place, bytes)?;
            Ok(0)
        }
        Step::Sync => {
            disk.sync()?;
            Ok(0)
        }
    }
}

// Steps over a file that is not there at first and moves three bytes at a time, what each answers,
// and what it asks of the files.
const STEPS: [(Step, u64, &[Asked]); 9] = [
    (Step::Size, 0, &[Asked::Open(TO_WRITE)]),
    (Step::Read(0, 4), 0, &[Asked::Open(TO_WRITE)]),
    (Step::Sync, 0, &[Asked::Open(TO_WRITE)]),
    (
        Step::Write(2, b"cdefg"),
        0,
        &[
            Asked::Open(TO_MAKE),
            Asked::Seek(2),
            Asked::Write(2, 5),
            Asked::Write(5, 2),
        ],
    ),
    (
        Step::Sync,
        0,
        &[Asked::Sync, Asked::OpenFolder(TO_READ), Asked::SyncFolder],
    ),
    (
        Step::Read(1, 8),
        6,
        &[
            Asked::Seek(1),
            Asked::Read(1, 8),
            Asked::Read(4, 5),
            Asked::Read(7, 2),
        ],
    ),
    (
        Step::Write(9, b""),
        0,
        &[Asked::SeekEnd, Asked::SetLength(9)],
    ),
    (Step::Sync, 0, &[Asked::Sync]),
    (Step::Size, 9, &[Asked::SeekEnd]),
];

const WRITTEN: &[u8] = b"\0\0cdefg\0\0";

fn made(alloc: Global, fails: Fails) -> Result<Fake, Fail> {
    Ok(Fake::new(alloc, vec![in alloc]?, 3, fails))
}

#[test]
fn a_disk_asks_its_files(rt: HostRuntime) -> Result<(), Fail> {
    let alloc = rt.alloc();
    let fake = made(alloc, Fails::Never)?;
    let mut disk = FileDisk::new(FakeFiles(&fake), FILE.to_string(alloc)?);
    let mut into = [9; 8];
    for (next, answer, asked) in STEPS {
        assert_eq!(rt; do_step(&mut disk, next, &mut into), Ok(answer), "{next:?}");
        assert_eq!(rt; fake.take_asked(alloc).as_slice(), asked, "{next:?}");
    }
    assert_eq!(rt; into, *b"\0cdefg\x09\x09");
    assert_eq!(rt; fake.bytes(alloc)?.as_slice(), WRITTEN);
    Ok(())
}

#[test]
fn a_file_that_is_there_is_opened_as_it_is(rt: HostRuntime) -> Result<(), Fail> {
    let alloc = rt.alloc();
    let full = Fake::new(alloc, b"abc".to_vec(alloc)?, 3, Fails::Never);
    let mut disk = FileDisk::new(FakeFiles(&full), FILE.to_string(alloc)?);
    assert_eq!(rt; disk.write_at(1, b"x"), Ok(()));
    assert_eq!(rt; full.bytes(alloc)?.as_slice(), b"axc".as_slice());
    Ok(())
}

// Does each step, and the one that fails once more. A sync that failed fails again, and so does
// each sync behind it. What is interrupted does not fail.
fn do_steps(rt: &impl Abort, alloc: Global, fails: Fails) -> Result<(), Fail> {
    let broken = match fails {
        Fails::Breaks(number) => number,
        _ => u64::MAX,
    };
    let fake = made(alloc, fails)?;
    let mut disk = FileDisk::new(FakeFiles(&fake), FILE.to_string(alloc)?);
    let mut into = [9; 8];
    let mut is_lost = false;
    for (next, answer, _) in STEPS {
        let before = fake.calls();
        let mut given = do_step(&mut disk, next, &mut into);
        if before <= broken && broken < fake.calls() {
            assert_eq!(rt; given, Err(Failed), "{next:?} by {fails:?}");
            is_lost |= next == Step::Sync;
            given = do_step(&mut disk, next, &mut into);
        }
        let want = if is_lost && next == Step::Sync {
            Err(Failed)
        } else {
            Ok(answer)
        };
        assert_eq!(rt; given, want, "{next:?} by {fails:?}");
    }
    assert_eq!(rt; fake.bytes(alloc)?.as_slice(), WRITTEN, "by {fails:?}");
    Ok(())
}

#[test]
fn each_call_to_the_files_fails_in_turn(rt: HostRuntime) -> Result<(), Fail> {
    for number in 0..40 {
        do_steps(&rt, rt.alloc(), Fails::Breaks(number))?;
        do_steps(&rt, rt.alloc(), Fails::Interrupted(number))?;
    }
    Ok(())
}

#[test]
fn a_source_asks_its_files(rt: HostRuntime) -> Result<(), Fail> {
    let alloc = rt.alloc();
    for (fails, answers) in [
        (Fails::Never, [Ok(3), Ok(2), Ok(0)]),
        (Fails::Breaks(0), [Err(Failed), Ok(3), Ok(2)]),
        (Fails::Breaks(2), [Ok(3), Err(Failed), Ok(2)]),
        (Fails::Interrupted(1), [Ok(3), Ok(2), Ok(0)]),
        (Fails::Interrupted(2), [Ok(3), Ok(2), Ok(0)]),
    ] {
        let fake = Fake::new(alloc, b"abcde".to_vec(alloc)?, 3, fails);
        let mut source = FileSource::new(FakeFiles(&fake), FILE.to_string(alloc)?);
        let mut into = [0; 4];
        for answer in answers {
            assert_eq!(rt; source.take(&mut into), answer, "{fails:?}");
        }
        let asked = fake.take_asked(alloc);
        assert_eq!(rt; asked.first(), Some(&Asked::Open(TO_READ)), "{fails:?}");
    }
    Ok(())
}
