// The import of a repository that is made by rule.
ghost use Rattle.std.specs.Prelude.{◌≡◌, ◌≤◌, ◌⊎◌, Some};
ghost use Rattle.std.specs.Io.KnownBytes.{Keeps};
ghost use Rattle.rad_base.specs.Faults.{Rose};
ghost use Rattle.rad_node.specs.Done.{MayBeUnopened};
ghost use Rattle.rad_node.specs.Generating.{ImportsGenerated};
ghost use Rattle.rad_node.specs.Runs.{HasReport, IsKept, LeavesAlso};
ghost use Rattle.rad_node.specs.Statuses.{IsCaused, IsOpeningEnd, IsSaid, generated_keyring};
ghost use Rattle.rad_node.specs.Transfers.{GivesBy};
ghost use Rattle.rad_node.specs.declared.command.Command.TheVariants as command;

use crate::import::import;
use crate::status::Status;
use crate::whole_bytes::WholeBytes;
use rad_outside::{Disk, Sink};
use rad_vectors::bundle_of;
use std::alloc::Global;

/// Makes the repository of so many commits, imports its bundle under its keyring into the store on a
/// disk, and reports what stands of it. The disk comes back.
pub(crate) fn generate<D: Disk, W: Sink>(
    alloc: Global,
    commits: u32,
    disk: D,
    out: &mut W,
) -> (Status, D)
    requires some { 1 ≤ commits }
    requires few { commits ≤ 100000 }
    ensures stays { D.loan result.1 ≡ D.loan disk }
    ensures cause { IsCaused result.0 ⊥ ⊥ (Rose (D.faults disk) (D.faults result.1))
        (Rose (W.faults out.old) (W.faults out.new)) }
    ensures said { IsSaid (command.Gen commits)
        (record { keyring = Some (generated_keyring commits); store = D.reads_as disk }) result.0 }
    ensures kept { IsOpeningEnd result.0 → IsKept (D.reads_as disk) (D.reads_as result.1)
        (D.images disk) (D.images result.1) (D.images_since result.1 (D.moment disk)) }
    ensures done { ImportsGenerated commits (D.reads_as disk) (D.images result.1)
        (LeavesAlso (D.images disk) (D.images_since result.1 (D.moment disk)))
        (GivesBy result.0 (W.given out.old) (W.given out.new)) result.0
        ⊎ (MayBeUnopened result.0 × IsKept (D.reads_as disk) (D.reads_as result.1)
        (D.images disk) (D.images result.1) (D.images_since result.1 (D.moment disk))) }
    ensures silent { (HasReport result.0 → ⊥) → Keeps (W.given out.old) (W.given out.new) }
{
    let Ok(made) = bundle_of(alloc, commits) else {
        return (Status::NoMemory, disk);
    };
    let mut keys = WholeBytes::new(made.keyring.as_slice());
    let mut input = WholeBytes::new(made.bundle.as_slice());
    import(alloc, Some(commits), disk, &mut keys, &mut input, out)
}
