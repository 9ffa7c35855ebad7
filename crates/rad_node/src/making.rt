// The making of an empty store.
ghost use Rattle.std.specs.Prelude.{◌≡◌, ◌≤◌, IfSome, codes};
ghost use Rattle.std.specs.Io.KnownBytes.{Keeps};
ghost use Rattle.rad_base.specs.Faults.{Rose};
ghost use Rattle.ref_journal.specs.Images.{IsUnmade};
ghost use Rattle.rad_node.specs.Runs.{HasReport, IsKept, IsMadeStore, IsMakingEnd};
ghost use Rattle.rad_node.specs.Transfers.{GivesBy};

use crate::status::Status;
use crate::transfer::give_all;
use rad_outside::{Disk, Failed, Sink};
use ref_journal::{Journal, MakeFault};

/// Makes a store without entries on a disk that has none, and says so. The disk comes back.
/// `AlreadyMade`: the disk has 9 bytes or more and its first is 1. `DiskFault`: a call of the disk
/// failed. `WriteFault`: the sink failed; the store is made. A store that was made stays as it was.
pub(crate) fn make_store<D: Disk, W: Sink>(disk: D, out: &mut W) -> (Status, D)
    ensures stays { D.loan result.1 ≡ D.loan disk }
    ensures later { D.faults disk ≤ D.faults result.1 }
    ensures end { IsMakingEnd (D.reads_as disk) (Rose (D.faults disk) (D.faults result.1))
        (Rose (W.faults out.old) (W.faults out.new)) result.0 }
    ensures kept { result.0 ≡ Status.AlreadyMade → IsKept (D.reads_as disk) (D.reads_as result.1)
        (D.images disk) (D.images result.1) (D.images_since result.1 (D.moment disk)) }
    ensures old_stays { IfSome (D.reads_as disk) (λ bytes. (IsUnmade bytes → ⊥)
        → IsKept (D.reads_as disk) (D.reads_as result.1) (D.images disk) (D.images result.1)
        (D.images_since result.1 (D.moment disk))) }
    ensures made { HasReport result.0
        → IsMadeStore (D.reads_as disk) (D.images result.1) }
    ensures report { HasReport result.0
        → GivesBy result.0 (W.given out.old) (W.given out.new) (codes "made\n") }
    ensures silent { (HasReport result.0 → ⊥) → Keeps (W.given out.old) (W.given out.new) }
{
    let journal = match Journal::make(disk) {
        Ok(journal) => journal,
        Err(MakeFault::AlreadyMade(disk)) => return (Status::AlreadyMade, disk),
        Err(MakeFault::DiskFault(disk)) => return (Status::DiskFault, disk),
    };
    match give_all(out, b"made\n") {
        Ok(()) => (Status::Ok, journal.close()),
        Err(Failed) => (Status::WriteFault, journal.close()),
    }
}
