// The commands that print what a store has.
ghost use Rattle.std.specs.Prelude.{◌≡◌, ℕ, List, IfOk};
ghost use Rattle.std.specs.Io.KnownBytes.{Keeps};
ghost use Rattle.rad_base.specs.Faults.{Rose};
ghost use Rattle.repo_entries.specs.Items.{Item};
ghost use Rattle.object_store.specs.Stores.{StandsFor, StandsForSome};
ghost use Rattle.rad_node.specs.Printing.{IsPrintingEnd, IsReportOf, Printed, command_for};
ghost use Rattle.rad_node.specs.Runs.{HasReport, IsKept};
ghost use Rattle.rad_node.specs.Statuses.{IsCaused, IsKeyringEnd, IsSaid};
ghost use Rattle.rad_node.specs.Transfers.{GivesBy};

use crate::opening::open_store;
use crate::report::give_report;
use crate::status::Status;
use object_store::Store;
use rad_base::{Bytes, NoMemory};
use rad_outside::{Disk, Sink, Source};
use std::alloc::Global;
use store_reports::{audit_report, heads_report, show_report};

/// What is printed of a store.
#[derive(Clone, Copy, Debug, PartialEq, Eq)]
pub(crate) enum Report {
    /// Its repositories, with their identities and remotes.
    Show,
    /// Their canonical heads.
    Heads,
    /// Its counts.
    Audit,
}

// The report of an open store.
fn report_on<D: Disk>(alloc: Global, which: Report, store: &mut Store<D>) -> Result<Bytes, NoMemory>
    requires { StandsForSome store.old }
    ensures same { store.new ≡ store.old }
    ensures report { (items : List Item) → StandsFor store.old items
        → IfOk result (IsReportOf which store.old.keyring items) }
{
    match which {
        Report::Show => show_report(alloc, store),
        Report::Heads => heads_report(alloc, store),
        Report::Audit => audit_report(alloc, store),
    }
}

// Prints the report of an open store. The disk comes back.
fn print_on<D: Disk, W: Sink>(
    alloc: Global,
    which: Report,
    mut store: Store<D>,
    out: &mut W,
) -> (Status, D)
    requires { StandsForSome store }
    ensures same { result.1 ≡ store.journal.disk }
    ensures end { IsPrintingEnd (Rose (W.faults out.old) (W.faults out.new)) result.0 }
    ensures report { (items : List Item) → StandsFor store items → HasReport result.0
        → (text : List ℕ) × IsReportOf which store.keyring items text
        × GivesBy result.0 (W.given out.old) (W.given out.new) text }
    ensures silent { (HasReport result.0 → ⊥) → Keeps (W.given out.old) (W.given out.new) }
{
    let status = match report_on(alloc, which, &mut store) {
        Ok(text) => give_report(out, text.as_slice(), false),
        Err(_) => Status::NoMemory,
    };
    let (disk, _history) = store.close();
    (status, disk)
}

/// Opens the store on a disk under the keyring, and prints a report of it. It writes nothing to the
/// disk, which comes back.
pub(crate) fn print_store<D: Disk, S: Source, W: Sink>(
    alloc: Global,
    which: Report,
    disk: D,
    keys: &mut S,
    out: &mut W,
) -> (Status, D)
    ensures stays { D.loan result.1 ≡ D.loan disk }
    ensures cause { IsCaused result.0 (Rose (S.faults keys.old) (S.faults keys.new)) ⊥
        (Rose (D.faults disk) (D.faults result.1)) (Rose (W.faults out.old) (W.faults out.new)) }
    ensures order { IsKeyringEnd result.0 → result.1 ≡ disk }
    ensures said { IsSaid (command_for which)
        (record { keyring = S.left keys.old; store = D.reads_as disk }) result.0 }
    ensures kept { IsKept (D.reads_as disk) (D.reads_as result.1)
        (D.images disk) (D.images result.1) (D.images_since result.1 (D.moment disk)) }
    ensures done { HasReport result.0
        → Printed which (record { keyring = S.left keys.old; store = D.reads_as disk })
        (GivesBy result.0 (W.given out.old) (W.given out.new)) }
    ensures silent { (HasReport result.0 → ⊥) → Keeps (W.given out.old) (W.given out.new) }
{
    match open_store(alloc, disk, keys) {
        Ok(store) => print_on(alloc, which, store, out),
        Err(refusal) => (refusal.status, refusal.disk),
    }
}
