// The record behind a gate: a write that lasts, and the body that is read.
ghost use Rattle.std.specs.Prelude.{◌≡◌, ◌≤◌, ◌<◌, ◌+◌, ◌^◌, List, ℕ, length, IfOk, IfSome};
ghost use Rattle.std.specs.Prelude.{IsErrOf, OnErr, OnOk};
ghost use Rattle.rad_base.specs.Faults.{Rose};
ghost use Rattle.rad_outside.specs.Causes.{HasCause};
ghost use Rattle.rad_outside.specs.Disks.{Changes, Follows, Torn};
ghost use Rattle.ref_journal.specs.Gates.{HasBody};
ghost use Rattle.ref_journal.specs.Holds.{OnlyReads};
ghost use Rattle.ref_journal.specs.Moments.{LeavesTorn, WritesDurably};

use crate::ScanFault;
use crate::gate::MOST_BODY;
use crate::place::number_at;
use rad_outside::{Disk, Failed};

// Writes bytes at a place, and syncs.
pub(crate) fn write_durably<D: Disk>(disk: &mut D, place: u64, bytes: &[u8]) -> Result<(), Failed>
    ensures cause { HasCause (D.faults disk.old) (D.faults disk.new) result }
    ensures stays { D.loan disk.new ≡ D.loan disk.old }
    ensures written { OnOk result (Changes (WritesDurably place bytes.now (D.images disk.new))
        (D.reads_as disk.old) (D.reads_as disk.new)) }
    ensures broken { OnErr result (Changes (Torn place (length bytes.now))
        (D.reads_as disk.old) (D.reads_as disk.new)) }
    ensures images { Follows (Torn place (length bytes.now))
        (D.images disk.old) (D.images disk.new) }
    ensures time { LeavesTorn place (length bytes.now) (D.moment disk.old) (D.moment disk.new)
        (D.images_since disk.old) (D.images_since disk.new) (D.images disk.old) }
{
    disk.write_at(place, bytes)?;
    disk.sync()?;
    Ok(())
}

// Reads the body behind the gate at a place, of at most so many bytes, and answers how many it has.
pub(crate) fn read_body<D: Disk>(
    disk: &mut D,
    place: u64,
    most: u64,
    into: &mut Vec<u8>,
) -> Result<u64, ScanFault>
    requires { place + 9 + most < 2 ^ 64 }
    ensures reads { OnlyReads D.loan D.faults D.reads_as D.images D.moment D.images_since
        disk.old disk.new }
    ensures cause { IsErrOf result ScanFault.DiskFault
        → Rose (D.faults disk.old) (D.faults disk.new) }
    ensures size { IfOk result (λ size. size ≤ most) }
    ensures body { IfOk result (λ size. IfSome (D.reads_as disk.old) (λ bytes. (body : List ℕ)
        → HasBody bytes place body → length body ≤ most
        → (size ≡ length body) × (into.new.items ≡ body))) }
{
    let number = number_at(disk, place + 1)?;
    let size = number.unwrap_or(0).min(MOST_BODY).min(most);
    into.resize(size as usize, 0)?;
    disk.read_at(place + 9, into)?;
    Ok(size)
}
