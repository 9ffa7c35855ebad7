// Reads at one place of a disk.
ghost use Rattle.std.specs.Prelude.{◌≡◌, ◌≤◌, ◌<◌, ◌+◌, length, IfOk, IfSome};
ghost use Rattle.std.specs.Bool.{OnFalse, OnTrue};
ghost use Rattle.std.specs.Int.{to_be_bytes, w64};
ghost use Rattle.rad_outside.specs.Causes.{HasCause};
ghost use Rattle.ref_journal.specs.Gates.{IsNumberAt, StandsAt};
ghost use Rattle.ref_journal.specs.Holds.{OnlyReads};

use rad_outside::{Disk, Failed};

// Fills the buffer from a place, where the disk has that many bytes there.
pub(crate) fn fills<D: Disk>(disk: &mut D, place: u64, into: &mut [u8]) -> Result<bool, Failed>
    ensures reads { OnlyReads D.loan D.faults D.reads_as D.images D.moment D.images_since
        disk.old disk.new }
    ensures cause { HasCause (D.faults disk.old) (D.faults disk.new) result }
    ensures bytes { IfOk result (λ whole. OnTrue whole
        (IfSome (D.reads_as disk.old) (λ bytes. StandsAt bytes place into.new))) }
    ensures short { IfOk result (λ whole. OnFalse whole
        (IfSome (D.reads_as disk.old) (λ bytes. length bytes < place + length into.new))) }
{
    let n = disk.read_at(place, into)?;
    Ok(n == into.len())
}

// The number in eight bytes at a place, or None where the disk ends before the eighth.
pub(crate) fn number_at<D: Disk>(disk: &mut D, place: u64) -> Result<Option<u64>, Failed>
    ensures reads { OnlyReads D.loan D.faults D.reads_as D.images D.moment D.images_since
        disk.old disk.new }
    ensures cause { HasCause (D.faults disk.old) (D.faults disk.new) result }
    ensures number { IfOk result (λ number. IfSome (D.reads_as disk.old)
        (λ bytes. IsNumberAt bytes place number)) }
{
    let mut long = [0; 8];
    if !fills(disk, place, &mut long)? {
        return Ok(None);
    }
    Ok(Some(number_of(&long)))
}

// The number that eight bytes spell, the most significant first.
pub(crate) fn number_of(long: &[u8; 8]) -> u64
    ensures { to_be_bytes w64 result ≡ long.now }
{
    u64::from_be_bytes(*long)
}
