// The making of a journal.
ghost use Rattle.std.specs.Prelude.{◌≡◌, List, ℕ, [], IfOk, IfSome, OnOk};
ghost use Rattle.std.specs.Bool.{OnFalse, OnTrue};
ghost use Rattle.rad_outside.specs.Causes.{HasCause};
ghost use Rattle.ref_journal.specs.Holds.{LeavesOnlyBetween, OnlyReads, Tells};
ghost use Rattle.ref_journal.specs.Images.{IsJournal, IsUnmade};
ghost use Rattle.ref_journal.specs.Makes.{HasNoMark, IsUnmadeOrEmpty};

use crate::place::fills;
use crate::record::write_durably;
use rad_outside::{Disk, Failed};

/// The header without its made mark, and a closed gate.
const BEHIND_MARK: [u8; 8] = [0x72, 0x61, 0x64, 0x6a, 0x72, 0x6e, 1, 0];

// Whether a journal is made: there are nine bytes, and the first is 1.
pub(crate) fn is_made<D: Disk>(disk: &mut D) -> Result<bool, Failed>
    ensures reads { OnlyReads D.loan D.faults D.reads_as D.images D.moment D.images_since
        disk.old disk.new }
    ensures cause { HasCause (D.faults disk.old) (D.faults disk.new) result }
    ensures made { IfOk result (λ made. OnTrue made
        (IfSome (D.reads_as disk.old) (λ bytes. IsUnmade bytes → ⊥))) }
    ensures unmade { IfOk result (λ made. OnFalse made
        (IfSome (D.reads_as disk.old) (λ bytes. IsUnmade bytes))) }
{
    if disk.size()? < 9 {
        return Ok(false);
    }
    let mut mark = [0; 1];
    if !fills(disk, 0, &mut mark)? {
        return Ok(false);
    }
    Ok(mark[0] == 1)
}

// Lays the header and a closed gate at the front: the made mark last.
pub(crate) fn lay_header<D: Disk>(disk: &mut D) -> Result<(), Failed>
    ensures stays { D.loan disk.new ≡ D.loan disk.old }
    ensures cause { HasCause (D.faults disk.old) (D.faults disk.new) result }
    ensures laid { OnOk result (IfSome (D.reads_as disk.old)
        (λ _. Tells (IsJournal [] 8) (D.reads_as disk.new) (D.images disk.new))) }
    ensures moments { Tells HasNoMark (D.reads_as disk.old) (D.images disk.old)
        → LeavesOnlyBetween D.moment D.images_since disk.old disk.new IsUnmadeOrEmpty }
{
    write_durably(disk, 1, &BEHIND_MARK)?;
    write_durably(disk, 0, &[1])?;
    Ok(())
}
