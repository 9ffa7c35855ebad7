// The journal with the disk that it holds.
ghost use Rattle.std.specs.Prelude.{◌≡◌, ◌↔◌, ◌≤◌, ◌<◌, ◌^◌, ◌+◌, ◌++◌, []};
ghost use Rattle.std.specs.Prelude.{if◌then◌else◌, false, length, List, ℕ, Option, None, Err};
ghost use Rattle.std.specs.Prelude.{is_ok, IfErr, IfNone, IfOk, IfSome};
ghost use Rattle.std.specs.Prelude.{IsErrOf, IsNone, IsOk, OnErr, OnOk};
ghost use Rattle.rad_outside.specs.Causes.{HasCause};
ghost use Rattle.ref_journal.specs.Frames.{header, records};
ghost use Rattle.ref_journal.specs.Gates.{StandsAt};
ghost use Rattle.ref_journal.specs.Images.{IsUnmade};
ghost use Rattle.ref_journal.specs.Makes.{HasMakeCause, HasNoMark, IsMade, IsUnmadeOrEmpty};
ghost use Rattle.ref_journal.specs.Makes.{made_disk};
ghost use Rattle.rad_base.specs.Faults.{Rose};
ghost use Rattle.ref_journal.specs.Moments.{MayHave};

use crate::make::{is_made, lay_header};
use crate::record::{read_body, write_durably};
use crate::walk::{Shown, find_end};
use crate::{AppendFault, MakeFault, OpenFault, Parcel, ScanFault};
use rad_outside::{Disk, Failed};

/// The most bytes that a journal has.
const LIMIT: u64 = 1 << 40;

/// A journal on a disk that it holds.
///
/// Its bytes are the header `01 72 61 64 6a 72 6e 01`, one record for each body, and a closed gate,
/// which is any byte but 1. A record is an open gate, which is a byte 1, the body's length in 8
/// bytes, the most significant first, at most 34,000,000, and the body. What stands behind the
/// closed gate is unread. This format is the project's own.
#[derive(Drop)]
pub struct Journal<D> {
    disk: D,
    end: u64,
    // Whether a body is in doubt: an image may have it behind the end gate or not.
    in_doubt: bool,
}

impl<D: Disk> Journal<D> {
    ghost use Rattle.ref_journal.specs.Holds.{CrashLeaves, CrashLeavesFramedBody, HasAppendCause};
    ghost use Rattle.ref_journal.specs.Holds.{Holds, HoldsFramedBody, HoldsOneMore, LeavesBodies};
    ghost use Rattle.ref_journal.specs.Holds.{LeavesFramedBody, LeavesOnlyBetween, MendedMayHave};
    ghost use Rattle.ref_journal.specs.Holds.{OnlyReads, ReadsBodyAt, Tells};
    ghost use Rattle.ref_journal.specs.Opens.{HasOpenCause, IsOpened, opened_disk};

    /// Opens the journal that stands on a disk, after a sync. It writes nothing, and takes no
    /// memory. A refusal gives the disk back.
    pub fn open(mut disk: D) -> Result<Journal<D>, OpenFault<D>>
        ensures reads { OnlyReads D.loan D.faults D.reads_as D.images D.moment D.images_since
            disk (opened_disk result) }
        ensures cause { IfErr result (HasOpenCause (D.faults disk) D.faults) }
        ensures opened { IfSome (D.reads_as disk)
            (λ bytes. IsOpened D.reads_as D.images bytes result) }
    {
        match find_end(&mut disk) {
            Err(Failed) => Err(OpenFault::DiskFault(disk)),
            Ok(Shown::Unmade) => Err(OpenFault::Unmade(disk)),
            Ok(Shown::Damaged(place)) => Err(OpenFault::Damaged(disk, place)),
            Ok(Shown::End(end)) => Ok(Journal {
                disk,
                end,
                in_doubt: false,
            }),
        }
    }

    /// Makes a journal without a body on a disk that has none. `AlreadyMade`: the disk has 9 bytes
    /// or more and its first is 1. `DiskFault`: a call of the disk failed.
    /// Either gives the disk back. A journal that is made stays as it was. Where every image had a
    /// first byte other than 1 before, a crash at any moment leaves no journal or one without a
    /// body. It takes no memory.
    pub fn make(mut disk: D) -> Result<Journal<D>, MakeFault<D>>
        ensures stays { D.loan (made_disk result) ≡ D.loan disk }
        ensures later { D.faults disk ≤ D.faults (made_disk result) }
        ensures cause { IfErr result (HasMakeCause (D.faults disk) D.faults) }
        ensures made { IfSome (D.reads_as disk)
            (λ bytes. IsMade D.reads_as D.images bytes result) }
        ensures kept { (back : D) → result ≡ Err (MakeFault.AlreadyMade back)
            → OnlyReads D.loan D.faults D.reads_as D.images D.moment D.images_since disk back }
        ensures old_stays { IfSome (D.reads_as disk) (λ bytes. (IsUnmade bytes → ⊥)
            → OnlyReads D.loan D.faults D.reads_as D.images D.moment D.images_since
            disk (made_disk result)) }
        ensures moments { Tells HasNoMark (D.reads_as disk) (D.images disk)
            → LeavesOnlyBetween D.moment D.images_since disk (made_disk result) IsUnmadeOrEmpty }
    {
        match is_made(&mut disk) {
            Err(Failed) => return Err(MakeFault::DiskFault(disk)),
            Ok(true) => return Err(MakeFault::AlreadyMade(disk)),
            Ok(false) => {}
        }
        match lay_header(&mut disk) {
            Err(Failed) => Err(MakeFault::DiskFault(disk)),
            Ok(()) => Ok(Journal {
                disk,
                end: 8,
                in_doubt: false,
            }),
        }
    }

    /// Adds a body at the end, and answers the place where it stands. Where a body is in doubt it
    /// mends first. At Ok the body is on the disk for good, and a crash at any moment of the call
    /// leaves the bodies with it or without it; after a refusal that does not leave it in doubt, a
    /// crash at no moment of the call leaves it. `Full`: the journal would be longer than 2^40
    /// bytes; no call of the disk was made. `DiskFault`: a call of the disk failed; it says whether
    /// this body is in doubt now. It takes no memory.
    pub fn append(&mut self, parcel: &Parcel) -> Result<u64, AppendFault>
        ensures stays { D.loan self.new.disk ≡ D.loan self.old.disk }
        ensures later { D.faults self.old.disk ≤ D.faults self.new.disk }
        ensures cause { IfErr result (HasAppendCause (D.faults self.old.disk)
            (D.faults self.new.disk)) }
        ensures full { IsErrOf result AppendFault.Full
            ↔ (2 ^ 40 < self.old.end + 10 + length parcel.now) }
        ensures unchanged { IsErrOf result AppendFault.Full → self.new ≡ self.old }
        ensures place { IfOk result (λ place. place ≡ self.old.end + 9) }
        ensures end { self.new.end
            ≡ (if is_ok result then self.old.end + 9 + length parcel.now else self.old.end) }
        ensures holds { OnOk result
            (HoldsOneMore D.reads_as D.images self.old self.new parcel.now) }
        ensures left { IfErr result
            (LeavesBodies D.reads_as D.images self.old self.new parcel.now) }
        ensures moments { CrashLeaves D.reads_as D.images D.moment D.images_since
            self.old self.new (MendedMayHave result parcel.now) }
    {
        let frame = parcel.framed();
        let size = frame.len() as u64;
        if self.end > LIMIT - 1 - size {
            return Err(AppendFault::Full);
        }
        self.mend()?;
        let place = self.end + 9;
        self.enter(frame)?;
        Ok(place)
    }

    /// Where a body is in doubt it closes the gate behind which that body stands, and syncs: at Ok
    /// no image has it. Else it makes no call of the disk and answers Ok. It takes no memory.
    pub fn mend(&mut self) -> Result<(), Failed>
        ensures stays { D.loan self.new.disk ≡ D.loan self.old.disk }
        ensures cause { HasCause (D.faults self.old.disk) (D.faults self.new.disk) result }
        ensures end { self.new.end ≡ self.old.end }
        ensures idle { self.old.in_doubt ≡ false → IsOk result × (self.new ≡ self.old) }
        ensures mended { OnOk result ((bodies : List (List ℕ)) (doubt : Option (List ℕ))
            → Holds D.reads_as D.images self.old bodies doubt
            → Holds D.reads_as D.images self.new bodies None) }
        ensures kept { OnErr result ((bodies : List (List ℕ)) (doubt : Option (List ℕ))
            → Holds D.reads_as D.images self.old bodies doubt
            → Holds D.reads_as D.images self.new bodies doubt) }
        ensures moments { CrashLeaves D.reads_as D.images D.moment D.images_since
            self.old self.new MayHave }
    {
        if self.in_doubt {
            write_durably(&mut self.disk, self.end, &[0])?;
            self.in_doubt = false;
        }
        Ok(())
    }

    // Adds the body of a frame where none is in doubt.
    fn enter(&mut self, frame: &[u8]) -> Result<(), AppendFault>
        requires { self.old.end + length frame.now < 2 ^ 40 }
        ensures stays { D.loan self.new.disk ≡ D.loan self.old.disk }
        ensures later { D.faults self.old.disk ≤ D.faults self.new.disk }
        ensures cause { IfErr result (HasAppendCause (D.faults self.old.disk)
            (D.faults self.new.disk)) }
        ensures end { self.new.end
            ≡ (if is_ok result then self.old.end + length frame.now else self.old.end) }
        ensures not_full { IsErrOf result AppendFault.Full → ⊥ }
        ensures holds { OnOk result
            (HoldsFramedBody D.reads_as D.images self.old self.new frame.now) }
        ensures left { IfErr result
            (LeavesFramedBody D.reads_as D.images self.old self.new frame.now) }
        ensures moments { CrashLeavesFramedBody D.reads_as D.images D.moment D.images_since
            self.old self.new frame.now result }
    {
        write_durably(&mut self.disk, self.end + 1, frame)?;
        match write_durably(&mut self.disk, self.end, &[1]) {
            Ok(()) => {
                self.end += frame.len() as u64;
                Ok(())
            }
            Err(Failed) => {
                self.in_doubt = true;
                Err(AppendFault::DiskFault { in_doubt: true })
            }
        }
    }

    /// Reads the body behind the gate at a place, and answers the place of the next gate. The first
    /// gate stands at 8. At the end it answers None, and `into` is empty. After a refusal `into`
    /// may hold anything: `DiskFault` where a call of the disk failed, `NoMemory` where memory for
    /// the body was refused.
    pub fn scan(&mut self, place: u64, into: &mut Vec<u8>) -> Result<Option<u64>, ScanFault>
        ensures reads { OnlyReads D.loan D.faults D.reads_as D.images D.moment D.images_since
            self.old.disk self.new.disk }
        ensures end { self.new.end ≡ self.old.end }
        ensures cause { IsErrOf result ScanFault.DiskFault
            → Rose (D.faults self.old.disk) (D.faults self.new.disk) }
        ensures last { IfOk result (λ next. IsNone next ↔ (self.old.end < place + 9)) }
        ensures empty { IfOk result (λ next. IfNone next (into.new.items ≡ [])) }
        ensures rises { IfOk result (λ next. IfSome next
            (λ gate. (place < gate) × (gate ≤ self.old.end))) }
        ensures same { self.new.in_doubt ≡ self.old.in_doubt }
        ensures keeps { (bodies : List (List ℕ)) (doubt : Option (List ℕ))
            → Holds D.reads_as D.images self.old bodies doubt
            → Holds D.reads_as D.images self.new bodies doubt }
        ensures body { IfOk result
            (ReadsBodyAt D.reads_as D.images self.old place into.new.items) }
    {
        into.clear();
        let left = self.end.saturating_sub(place);
        if left < 9 {
            return Ok(None);
        }
        let size = read_body(&mut self.disk, place, left - 9, into)?;
        Ok(Some(place + 9 + size))
    }

    /// Reads the bytes of the journal from a place on that fill `into`, and end at the journal's
    /// end or before it. `Failed`: a call of the disk failed, and `into` may hold anything. It
    /// takes no memory. Of a disk that was cut short by another it fills only the front.
    pub fn piece(&mut self, place: u64, into: &mut [u8]) -> Result<(), Failed>
        requires { place + length into.old ≤ self.old.end }
        ensures reads { OnlyReads D.loan D.faults D.reads_as D.images D.moment D.images_since
            self.old.disk self.new.disk }
        ensures end { self.new.end ≡ self.old.end }
        ensures same { self.new.in_doubt ≡ self.old.in_doubt }
        ensures cause { HasCause (D.faults self.old.disk) (D.faults self.new.disk) result }
        ensures keeps { (bodies : List (List ℕ)) (doubt : Option (List ℕ))
            → Holds D.reads_as D.images self.old bodies doubt
            → Holds D.reads_as D.images self.new bodies doubt }
        ensures bytes { OnOk result ((bodies : List (List ℕ)) (doubt : Option (List ℕ))
            → Holds D.reads_as D.images self.old bodies doubt
            → StandsAt (header ++ records bodies) place into.new) }
    {
        self.disk.read_at(place, into)?;
        Ok(())
    }

    // The disk, for tests alone.
    #[cfg(test)]
    pub(crate) fn disk(&self) -> &D {
        &self.disk
    }

    /// The place of the end gate.
    pub fn end(&self) -> u64
        ensures { result ≡ self.now.end }
    {
        self.end
    }

    /// Gives the disk back.
    pub fn close(self) -> D
        ensures { result ≡ self.disk }
    {
        self.disk
    }
}
