// The run of a command over what it is handed.
ghost use Rattle.std.specs.Prelude.{◌≡◌, ◌≤◌, List, Result};
ghost use Rattle.std.specs.Io.KnownBytes.{Consumes, IsAtEnd, Keeps};
ghost use Rattle.rad_base.specs.Faults.{Rose};
ghost use Rattle.keyring.specs.Contents.{Contents};
ghost use Rattle.repo_entries.specs.Items.{Item};
ghost use Rattle.repo_entries.specs.declared.whole.Whole.{Whole};
ghost use Rattle.repo_slice.specs.declared.verdict.Judged.{Judged};
ghost use Rattle.fetch_wire.specs.Bundles.{Bundle};
ghost use Rattle.rad_node.specs.Commands.{IsInRange, Says};
ghost use Rattle.rad_node.specs.Completeness.{AreInOrder, EndsWell, IsBundle, IsEntered};
ghost use Rattle.rad_node.specs.Completeness.{IsFaultless, IsInOrder, TakesSuch, counted_by};
ghost use Rattle.rad_node.specs.Done.{IsDone};
ghost use Rattle.rad_node.specs.Runs.{HasReport, IsKept, LeavesAlso, OnlyReadsDisk};
ghost use Rattle.rad_node.specs.Statuses.{IsCaused, IsOrdered, IsSaid, IsUsage, TakesBundle, files_of};
ghost use Rattle.rad_node.specs.Transfers.{GivesBy};
ghost use Rattle.rad_node.specs.declared.command.Command.{Command as IsCommand};

use crate::command::{Command, command_of};
use crate::generating::generate;
use crate::import::import;
use crate::listing::list_frames;
use crate::making::make_store;
use crate::printing::{Report, print_store};
use crate::status::Status;
use rad_outside::{Disk, Sink, Source};
use std::alloc::Global;

// Runs a command on a disk, which comes back.
fn run_command<D: Disk, S: Source, I: Source, W: Sink>(
    alloc: Global,
    command: Command,
    disk: D,
    keys: &mut S,
    input: &mut I,
    out: &mut W,
) -> (Status, D)
    requires { IsInRange command }
    ensures stays { D.loan result.1 ≡ D.loan disk }
    ensures cause { IsCaused result.0 (Rose (S.faults keys.old) (S.faults keys.new))
        (Rose (I.faults input.old) (I.faults input.new))
        (Rose (D.faults disk) (D.faults result.1)) (Rose (W.faults out.old) (W.faults out.new)) }
    ensures order { IsOrdered command result.0 (result.1 ≡ disk)
        (keys.new ≡ keys.old) (input.new ≡ input.old) }
    ensures said { IsSaid command (files_of command
        (record { keyring = S.left keys.old; store = D.reads_as disk })) result.0 }
    ensures kept { OnlyReadsDisk command result.0
        → IsKept (D.reads_as disk) (D.reads_as result.1) (D.images disk) (D.images result.1)
        (D.images_since result.1 (D.moment disk)) }
    ensures done { IsDone command (record { keyring = S.left keys.old; store = D.reads_as disk })
        (Consumes (I.left input.old) (I.left input.new)) (IsAtEnd (I.left input.new))
        (D.images result.1) (LeavesAlso (D.images disk) (D.images_since result.1 (D.moment disk)))
        (GivesBy result.0 (W.given out.old) (W.given out.new))
        (IsKept (D.reads_as disk) (D.reads_as result.1) (D.images disk) (D.images result.1)
        (D.images_since result.1 (D.moment disk)) × (input.new ≡ input.old)) result.0 }
    ensures silent { (HasReport result.0 → ⊥) → Keeps (W.given out.old) (W.given out.new) }
{
    match command {
        Command::Init => make_store(disk, out),
        Command::Import => import(alloc, None, disk, keys, input, out),
        Command::Show => print_store(alloc, Report::Show, disk, keys, out),
        Command::Heads => print_store(alloc, Report::Heads, disk, keys, out),
        Command::Audit => print_store(alloc, Report::Audit, disk, keys, out),
        Command::Frames => (list_frames(alloc, input, out), disk),
        Command::Gen(commits) => generate(alloc, commits, disk, out),
    }
}

/// Runs the command that the words give: it reads the words, the keyring, the store and the bundle,
/// in this order, and gives the report last. The first refusal ends it. `gen` makes its keyring and its
/// bundle in place of reading them. `frames` reads its file in the bundle's place, and asks neither
/// the keyring nor the disk.
///
/// - `Ok`: all was done, and the report was given.
/// - `Usage`: the words are no command. Nothing was asked.
/// - `ReadFault`: a take from that source failed.
/// - `WriteFault`: the sink failed. The store has what was done, and a prefix of the report was
///   given.
/// - `DiskFault`: a call of the disk failed.
/// - `Unmade`: no store is made: the disk has fewer than 9 bytes, or its first is not 1.
/// - `Damaged`: the disk's bytes are no journal, from this least place on; or a journal whose least
///   body that is no entry's stands behind this gate.
/// - `KeyringBad`: the keyring file's first broken line, or 0 where the file has more than
///   268,435,456 bytes.
/// - `InputBad`: the bundle is broken, ends inside a unit, or has ended and bytes follow; the place
///   of that unit. The store has the entries from before it. Of `frames`: a frame is broken, or the
///   file ends inside it; the place of that unit, or 1,073,741,824 where the file is longer.
/// - `SomeRefused`: the offer or one of its remotes was refused, or its sections are too long. The
///   report of an import says why.
/// - `Full`: the store has no room for the next entry.
/// - `NotLegal`: the store's first entry that is not legal under the keyring.
/// - `AlreadyMade`: a store is made. It stays as it was.
/// - `Changed`: never.
/// - `NoMemory`: memory was refused.
pub fn run_local<D: Disk, S: Source, I: Source, W: Sink>(
    alloc: Global,
    words: &[String],
    disk: &mut D,
    keys: &mut S,
    input: &mut I,
    out: &mut W,
) -> Status
    ensures cause { IsCaused result (Rose (S.faults keys.old) (S.faults keys.new))
        (Rose (I.faults input.old) (I.faults input.new))
        (Rose (D.faults disk.old) (D.faults disk.new))
        (Rose (W.faults out.old) (W.faults out.new)) }
    ensures usage { IsUsage words.now result }
    ensures untouched { result ≡ Status.Usage → (disk.new ≡ disk.old) × (keys.new ≡ keys.old)
        × (input.new ≡ input.old) × (out.new ≡ out.old) }
    ensures order { (command : IsCommand) → Says words.now command
        → IsOrdered command result (disk.new ≡ disk.old)
        (keys.new ≡ keys.old) (input.new ≡ input.old) }
    ensures said { (command : IsCommand) → Says words.now command → IsSaid command
        (files_of command (record { keyring = S.left keys.old; store = D.reads_as disk.old }))
        result }
    ensures kept { (command : IsCommand) → Says words.now command → OnlyReadsDisk command result
        → IsKept (D.reads_as disk.old) (D.reads_as disk.new)
        (D.images disk.old) (D.images disk.new) (D.images_since disk.new (D.moment disk.old)) }
    ensures done { (command : IsCommand) → Says words.now command → IsDone command
        (record { keyring = S.left keys.old; store = D.reads_as disk.old })
        (Consumes (I.left input.old) (I.left input.new)) (IsAtEnd (I.left input.new))
        (D.images disk.new)
        (LeavesAlso (D.images disk.old) (D.images_since disk.new (D.moment disk.old)))
        (GivesBy result (W.given out.old) (W.given out.new))
        (IsKept (D.reads_as disk.old) (D.reads_as disk.new) (D.images disk.old) (D.images disk.new)
        (D.images_since disk.new (D.moment disk.old)) × (input.new ≡ input.old)) result }
    ensures silent { (HasReport result → ⊥) → Keeps (W.given out.old) (W.given out.new) }
    ensures complete { (command : IsCommand) → Says words.now command → IsInOrder command
        (record { keyring = S.left keys.old; store = D.reads_as disk.old }) (I.left input.old)
        → IsFaultless (Rose (S.faults keys.old) (S.faults keys.new))
        (Rose (I.faults input.old) (I.faults input.new))
        (Rose (D.faults disk.old) (D.faults disk.new)) (Rose (W.faults out.old) (W.faults out.new))
        → EndsWell command result }
    ensures entered { (command : IsCommand) → Says words.now command
        → (keyring : Contents) (stored entries : List Item) (bundle : Bundle)
        (verdict : Result Judged Whole) → TakesBundle command → AreInOrder (files_of command
        (record { keyring = S.left keys.old; store = D.reads_as disk.old })) keyring stored
        → TakesSuch command (I.left input.old) (IsBundle keyring stored bundle verdict entries)
        → HasReport result
        → IsEntered (counted_by command) keyring stored bundle verdict entries (D.images disk.new)
        (GivesBy result (W.given out.old) (W.given out.new)) result }
{
    let Some(command) = command_of(words) else {
        return Status::Usage;
    };
    let (status, _disk) = run_command(alloc, command, &mut *disk, keys, input, out);
    status
}
