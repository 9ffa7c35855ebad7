// A disk in memory, whose calls fail where a list says so. It keeps every call.
ghost use Rattle.std.specs.Prelude.{◌≡◌, ◌≤◌, ◌↔◌, Some, false, length, is_ok, IsOk, IfOk, OnOk};
ghost use Rattle.std.specs.Prelude.{if◌then◌else◌, OnErr};
ghost use Rattle.std.specs.Io.{ReadsAtMost};
ghost use Rattle.rad_outside.specs.Causes.{HasCause};
ghost use Rattle.rad_outside.specs.FailingCalls.{one_later};
ghost use Rattle.rad_outside.specs.Disks.{Changes, Elapses, Follows, Only, ReadsAt, Torn, Within};
ghost use Rattle.rad_outside.specs.Disks.{Writes};
ghost use Rattle.rad_outside.specs.MemoryDisk.{IsImage, synced, written};
ghost use Rattle.rad_outside.specs.MemoryDiskLaws.{reads_is_image};
ghost use Rattle.rad_outside.specs.MemoryDiskClock.{since_counts_now, since_only_now};
ghost use Rattle.rad_outside.specs.CallLog.{moment_of, since_of, state_of};

use crate::call_log::CallLog;
use crate::failed::count_fault;
use crate::failing_calls::FailingCalls;
use crate::{Disk, Failed, Fill};
use rad_base::NoMemory;
use std::alloc::{AllocError, Global};

/// Bytes in memory as a disk. A call that finds no memory fails, and is not counted as a call.
#[derive(Drop)]
pub struct MemDisk {
    log: CallLog,
    fails: FailingCalls,
    faults: u64,
}

impl MemDisk {
    ghost use Rattle.std.specs.Prelude.{min};
    ghost use Rattle.rad_outside.specs.Crashes.{filled_image, state_at};
    ghost use Rattle.rad_outside.specs.MemDisk.{fails_of};

    /// A disk with these bytes, all of them synced. The calls that `fails` lists, counted from 0,
    /// fail. A write that fails so has written the first half of its bytes, rounded down.
    pub fn new(alloc: Global, bytes: Vec<u8>, fails: Vec<u64>) -> Self
        ensures reads { ⟦<MemDisk as Disk>⟧.reads_as result ≡ Some bytes.items }
        ensures images { Only bytes.items (⟦<MemDisk as Disk>⟧.images result) }
        ensures faults { ⟦<MemDisk as Disk>⟧.faults result ≡ 0 }
        ensures fails { fails_of result ≡ record { listed = fails; had = 0 } }
    {
        MemDisk {
            log: CallLog::new(alloc, bytes),
            fails: FailingCalls::new(fails),
            faults: 0,
        }
    }

    /// What it reads as.
    pub fn bytes(&self) -> &[u8]
        ensures { ⟦<MemDisk as Disk>⟧.reads_as self.now ≡ Some result.now }
    {
        self.log.bytes()
    }

    /// How many calls it has had, sizes and reads among them.
    pub fn calls(&self) -> u64
        ensures { result ≡ moment_of self.now.log }
    {
        self.log.calls()
    }

    /// The image that a crash leaves after the first `call` of the calls that it has had, or after
    /// all where they are fewer: the ranges that were written since the last sync that succeeded
    /// hold what `fill` says. `NoMemory`: memory was refused.
    pub fn crash(&self, alloc: Global, call: u64, fill: Fill) -> Result<Vec<u8>, NoMemory>
        ensures image { IfOk result
            (λ image. image.items ≡ filled_image fill (state_at self.now.log call)) }
        ensures since { IfOk result (λ image. since_of self.now.log
            (min call (moment_of self.now.log)) image.items) }
    {
        Ok(self.log.crash(alloc, call as usize, fill)?)
    }

    // Counts a call that was kept. One that was not kept, or that is to fail, is a fault.
    fn end_call(&mut self, kept: Result<(), AllocError>, to_fail: bool) -> Result<(), Failed>
        ensures ok { IsOk result ↔ (IsOk kept × (to_fail ≡ false)) }
        ensures calls { self.new.fails
            ≡ (if is_ok kept then one_later self.old.fails else self.old.fails) }
        ensures cause { HasCause self.old.faults self.new.faults result }
        ensures log { self.new.log ≡ self.old.log }
    {
        if kept.is_ok() {
            self.fails.count_call();
        }
        if to_fail || kept.is_err() {
            count_fault(&mut self.faults);
            return Err(Failed);
        }
        Ok(())
    }
}

impl Disk for MemDisk {
    ghost use Rattle.rad_outside.specs.MemDisk.{HadDiskCall};

    ghost reads_as = { λ d. Some (state_of d.log).reads };

    ghost images = { λ d. IsImage (state_of d.log) };

    ghost faults = { λ d. d.faults };

    ghost loan = { λ _. 0 };

    ghost moment = { λ d. moment_of d.log };

    ghost images_since = { λ d. since_of d.log };

    ghost counts_now = { λ d t image low is.
        since_counts_now d.log.first.items d.log.calls.items t image low is };

    ghost only_now = { λ d image is. since_only_now d.log.first.items d.log.calls.items image is };

    ghost reads_image = { λ d. reads_is_image d.log.first.items d.log.calls.items };

    fn size(&mut self) -> Result<u64, Failed>
        ensures value { IfOk result (λ n. n ≡ length (state_of self.old.log).reads) }
        ensures same { (state_of self.new.log).reads ≡ (state_of self.old.log).reads }
        ensures images { Within (IsImage (state_of self.new.log))
            (IsImage (state_of self.old.log)) }
        ensures cause { HasCause self.old.faults self.new.faults result }
        ensures time { Elapses (moment_of self.old.log) (moment_of self.new.log)
            (since_of self.old.log) (since_of self.new.log) (IsImage (state_of self.new.log)) }
        ensures calls { HadDiskCall self.old self.new (λ _. state_of self.old.log) result }
    {
        let to_fail = self.fails.fails_next();
        let looked = self.log.look();
        self.end_call(looked, to_fail)?;
        Ok(self.bytes().len() as u64)
    }

    fn read_at(&mut self, place: u64, into: &mut [u8]) -> Result<usize, Failed>
        ensures bound { ReadsAtMost result into.new }
        ensures value { IfOk result (ReadsAt (state_of self.old.log).reads place into.new) }
        ensures same { (state_of self.new.log).reads ≡ (state_of self.old.log).reads }
        ensures images { Within (IsImage (state_of self.new.log))
            (IsImage (state_of self.old.log)) }
        ensures cause { HasCause self.old.faults self.new.faults result }
        ensures time { Elapses (moment_of self.old.log) (moment_of self.new.log)
            (since_of self.old.log) (since_of self.new.log) (IsImage (state_of self.new.log)) }
        ensures calls { HadDiskCall self.old self.new (λ _. state_of self.old.log) result }
    {
        let to_fail = self.fails.fails_next();
        let kept = self.log.look();
        self.end_call(kept, to_fail)?;
        Ok(copy_from(self.bytes(), place, into))
    }

    fn write_at(&mut self, place: u64, bytes: &[u8]) -> Result<(), Failed>
        ensures written { OnOk result (Changes (Writes place bytes.now)
            (Some (state_of self.old.log).reads) (Some (state_of self.new.log).reads)) }
        ensures broken { OnErr result (Torn place (length bytes.now)
            (state_of self.old.log).reads (state_of self.new.log).reads) }
        ensures images { Follows (Torn place (length bytes.now))
            (IsImage (state_of self.old.log)) (IsImage (state_of self.new.log)) }
        ensures cause { HasCause self.old.faults self.new.faults result }
        ensures time { Elapses (moment_of self.old.log) (moment_of self.new.log)
            (since_of self.old.log) (since_of self.new.log) (IsImage (state_of self.new.log)) }
        ensures calls { HadDiskCall self.old self.new
            (λ failed. written place bytes.now failed (state_of self.old.log)) result }
    {
        let to_fail = self.fails.fails_next();
        let kept = self.log.write(place, bytes, to_fail);
        self.end_call(kept, to_fail)
    }

    fn sync(&mut self) -> Result<(), Failed>
        ensures durable { OnOk result
            (Only (state_of self.old.log).reads (IsImage (state_of self.new.log))) }
        ensures same { (state_of self.new.log).reads ≡ (state_of self.old.log).reads }
        ensures images { Within (IsImage (state_of self.new.log))
            (IsImage (state_of self.old.log)) }
        ensures cause { HasCause self.old.faults self.new.faults result }
        ensures time { Elapses (moment_of self.old.log) (moment_of self.new.log)
            (since_of self.old.log) (since_of self.new.log) (IsImage (state_of self.new.log)) }
        ensures calls { HadDiskCall self.old self.new
            (λ failed. synced failed (state_of self.old.log)) result }
    {
        let to_fail = self.fails.fails_next();
        let kept = self.log.sync(to_fail);
        self.end_call(kept, to_fail)
    }
}

// Copies what stands at a place.
fn copy_from(bytes: &[u8], place: u64, into: &mut [u8]) -> usize
    ensures bound { result ≤ length into.new }
    ensures value { ReadsAt bytes.now place into.new result }
{
    let at = (place as usize).min(bytes.len());
    let n = (bytes.len() - at).min(into.len());
    into[..n].copy_from_slice(&bytes[at..at + n]);
    n
}

#[cfg(test)]
mod tests {
    use super::*;
    use std::test::Fail;

    #[test]
    fn a_crash_after_each_call(rt: HostRuntime) -> Result<(), Fail> {
        let alloc = rt.alloc();
        let fails = vec![in alloc; 4u64]?;
        let mut disk = MemDisk::new(alloc, b"abcd".to_vec(alloc)?, fails);
        assert_eq!(rt; disk.write_at(1, b"xy"), Ok(()));
        assert_eq!(rt; disk.write_at(6, b"z"), Ok(()));
        assert_eq!(rt; disk.size(), Ok(7));
        assert_eq!(rt; disk.sync(), Ok(()));
        assert_eq!(rt; disk.write_at(0, b"12"), Err(Failed));
        assert_eq!(rt; disk.calls(), 5);

        let images: [(u64, [&[u8]; 3]); 6] = [
            (0, [b"abcd", b"abcd", b"abcd"]),
            (1, [b"abcd", b"axyd", b"a99d"]),
            (2, [b"abcd", b"axyd\0\0z", b"a99d\0\09"]),
            (3, [b"abcd", b"axyd\0\0z", b"a99d\0\09"]),
            (4, [b"axyd\0\0z", b"axyd\0\0z", b"axyd\0\0z"]),
            (9, [b"axyd\0\0z", b"1xyd\0\0z", b"99yd\0\0z"]),
        ];
        for (call, [old, new, nines]) in images {
            for (fill, image) in [
                (Fill::Old, old),
                (Fill::New, new),
                (Fill::Byte(b'9'), nines),
            ] {
                let left = disk.crash(alloc, call, fill)?;
                assert_eq!(rt; left.as_slice(), image, "{fill:?} after {call}");
            }
        }
        Ok(())
    }

    #[test]
    fn calls_in_turn(rt: HostRuntime) -> Result<(), Fail> {
        let alloc = rt.alloc();
        let fails = vec![in alloc; 3u64, 4, 6, 8]?;
        let mut disk = MemDisk::new(alloc, b"abcdef".to_vec(alloc)?, fails);
        let mut into = [0u8; 4];

        assert_eq!(rt; disk.write_at(4, b"xyz"), Ok(()));
        assert_eq!(rt; disk.bytes(), b"abcdxyz".as_slice());
        assert_eq!(rt; disk.sync(), Ok(()));
        assert_eq!(rt; disk.read_at(5, &mut into), Ok(2));
        assert_eq!(rt; into, *b"yz\0\0");

        // The calls 3, 4, 6 and 8 fail. The write has then written two bytes of five.
        assert_eq!(rt; disk.size(), Err(Failed));
        assert_eq!(rt; disk.write_at(0, b"12345"), Err(Failed));
        assert_eq!(rt; disk.size(), Ok(7));
        assert_eq!(rt; disk.read_at(0, &mut into), Err(Failed));
        assert_eq!(rt; disk.read_at(0, &mut into), Ok(4));
        assert_eq!(rt; into, *b"12cd");
        assert_eq!(rt; disk.sync(), Err(Failed));
        assert_eq!(rt; disk.sync(), Ok(()));

        assert_eq!(rt; disk.write_at(9, b"!"), Ok(()));
        assert_eq!(rt; disk.bytes(), b"12cdxyz\0\0!".as_slice());
        assert_eq!(rt; disk.read_at(11, &mut into), Ok(0));
        Ok(())
    }
}
