// The import of a bundle, and its report.
ghost use Rattle.std.specs.Prelude.{◌≡◌, ◌≤◌, ◌⊎◌, ℕ, List, IfOk};
ghost use Rattle.std.specs.Io.KnownBytes.{Consumes, IsAtEnd, Keeps};
ghost use Rattle.rad_base.specs.Faults.{Rose};
ghost use Rattle.object_store.specs.Held.{IsUnclaimed};
ghost use Rattle.object_store.specs.Stores.{StandsForSome};
ghost use Rattle.rad_node.specs.Done.{MayBeUnopened};
ghost use Rattle.rad_node.specs.Imports.{Imported, IsImportEnd, IsJobReportEnd, IsStatusOf};
ghost use Rattle.rad_node.specs.Imports.{TellsImport, TellsJob};
ghost use Rattle.rad_node.specs.Opening.{HasOpened};
ghost use Rattle.rad_node.specs.Runs.{HasReport, IsKept, LeavesAlso};
ghost use Rattle.ref_journal.specs.Holds.{LeavesOnlyBetween};
ghost use Rattle.rad_node.specs.Statuses.{Files, IsCaused, IsKeyringEnd, IsOpeningEnd, IsSaid};
ghost use Rattle.rad_node.specs.Transfers.{GivesBy};
ghost use Rattle.rad_node.specs.declared.command.Command.TheVariants as command;
ghost use Rattle.fetch_stages.specs.declared.job_end.ImportEnd.TheVariants as import;

use crate::job::{is_refused, run_job};
use crate::opening::open_store;
use crate::report::give_report;
use crate::status::{Status, WhichSource};
use fetch_stages::{ImportEnd, JobEnd};
use object_store::Store;
use rad_base::{Bytes, NoMemory, Rid};
use rad_outside::{Disk, Sink, Source};
use report_texts::push_job;
use std::alloc::Global;
use store_reports::generated_report;

// The report of a job that ended so: its block, or, where its commits were counted, what stands of the
// repository.
fn report_of<D: Disk>(
    alloc: Global,
    counted: Option<u32>,
    store: &mut Store<D>,
    rid: &Rid,
    end: &JobEnd,
) -> Result<Bytes, NoMemory>
    requires { StandsForSome store.old }
    ensures same { store.new ≡ store.old }
    ensures report { IfOk result (TellsJob counted store.old rid.now end.now) }
{
    if let Some(commits) = counted {
        return generated_report(alloc, store, rid, commits);
    }
    let mut text = Vec::new(alloc);
    push_job(&mut text, rid, end)?;
    Ok(Bytes::of(text))
}

// Reports how the job of a repository ended.
fn report_job<D: Disk, W: Sink>(
    alloc: Global,
    counted: Option<u32>,
    store: &mut Store<D>,
    rid: &Rid,
    end: &JobEnd,
    out: &mut W,
) -> Status
    requires { StandsForSome store.old }
    ensures same { store.new ≡ store.old }
    ensures end { IsJobReportEnd end.now (Rose (W.faults out.old) (W.faults out.new)) result }
    ensures gives { HasReport result
        → (text : List ℕ) × TellsJob counted store.old rid.now end.now text
        × GivesBy result (W.given out.old) (W.given out.new) text }
    ensures silent { (HasReport result → ⊥) → Keeps (W.given out.old) (W.given out.new) }
{
    match report_of(alloc, counted, store, rid, end) {
        Ok(text) => give_report(out, text.as_slice(), is_refused(end)),
        Err(NoMemory) => Status::NoMemory,
    }
}

// Reports how the job of a repository ended, unless a call of the store was refused.
fn report_end<D: Disk, W: Sink>(
    alloc: Global,
    counted: Option<u32>,
    store: &mut Store<D>,
    rid: &Rid,
    end: &JobEnd,
    out: &mut W,
) -> Status
    requires { StandsForSome store.old }
    ensures same { store.new ≡ store.old }
    ensures status { IsStatusOf (Rose (W.faults out.old) (W.faults out.new))
        (import.Ended rid.now end.now) result }
    ensures gives { HasReport result
        → (text : List ℕ) × TellsJob counted store.old rid.now end.now text
        × GivesBy result (W.given out.old) (W.given out.new) text }
    ensures silent { (HasReport result → ⊥) → Keeps (W.given out.old) (W.given out.new) }
{
    match end {
        JobEnd::Done(_, _) => report_job(alloc, counted, store, rid, end, out),
        JobEnd::Refused(_) => report_job(alloc, counted, store, rid, end, out),
        JobEnd::TooLong => report_job(alloc, counted, store, rid, end, out),
        JobEnd::DiskFault => Status::DiskFault,
        JobEnd::Full => Status::Full,
        JobEnd::Changed(change) => Status::Changed(*change),
        JobEnd::NoMemory => Status::NoMemory,
    }
}

// Reports how an import ended, unless that is how the run ends.
fn report_import<D: Disk, W: Sink>(
    alloc: Global,
    counted: Option<u32>,
    store: &mut Store<D>,
    end: &ImportEnd,
    out: &mut W,
) -> Status
    requires { StandsForSome store.old }
    ensures same { store.new ≡ store.old }
    ensures status { IsStatusOf (Rose (W.faults out.old) (W.faults out.new)) end.now result }
    ensures gives { HasReport result
        → (text : List ℕ) × TellsImport counted store.old end.now text
        × GivesBy result (W.given out.old) (W.given out.new) text }
    ensures silent { (HasReport result → ⊥) → Keeps (W.given out.old) (W.given out.new) }
{
    match end {
        ImportEnd::Ended(rid, end) => report_end(alloc, counted, store, rid, end, out),
        ImportEnd::ReadFault => Status::ReadFault(WhichSource::Input),
        ImportEnd::InputBad(place) => Status::InputBad(*place),
        ImportEnd::NoMemory => Status::NoMemory,
    }
}

// Imports the bundle that an input has into a store that nobody claims, and reports it.
fn import_bundle<D: Disk, I: Source, W: Sink>(
    alloc: Global,
    counted: Option<u32>,
    store: Store<D>,
    input: &mut I,
    out: &mut W,
) -> (Status, D)
    requires stands { StandsForSome store }
    requires unclaimed { IsUnclaimed store }
    ensures stays { D.loan result.1 ≡ D.loan store.journal.disk }
    ensures later { D.faults store.journal.disk ≤ D.faults result.1 }
    ensures end { IsImportEnd result.0 }
    ensures cause { IsCaused result.0 ⊥ (Rose (I.faults input.old) (I.faults input.new))
        (Rose (D.faults store.journal.disk) (D.faults result.1))
        (Rose (W.faults out.old) (W.faults out.new)) }
    ensures imported { (files : Files) → HasOpened D.reads_as D.images files store
        → Imported counted files (Consumes (I.left input.old) (I.left input.new))
        (IsAtEnd (I.left input.new)) (D.images result.1)
        (LeavesOnlyBetween D.moment D.images_since store.journal.disk result.1)
        (GivesBy result.0 (W.given out.old) (W.given out.new)) result.0 }
    ensures silent { (HasReport result.0 → ⊥) → Keeps (W.given out.old) (W.given out.new) }
{
    let (end, mut store) = run_job(alloc, store, input);
    let status = report_import(alloc, counted, &mut store, &end, out);
    let (disk, _history) = store.close();
    (status, disk)
}

/// Opens the store on a disk under the keyring, imports the bundle that an input has, and reports
/// how its job ended, or, where its commits were counted, what stands of the repository. The disk
/// comes back.
pub(crate) fn import<D: Disk, S: Source, I: Source, W: Sink>(
    alloc: Global,
    counted: Option<u32>,
    disk: D,
    keys: &mut S,
    input: &mut I,
    out: &mut W,
) -> (Status, D)
    ensures stays { D.loan result.1 ≡ D.loan disk }
    ensures cause { IsCaused result.0 (Rose (S.faults keys.old) (S.faults keys.new))
        (Rose (I.faults input.old) (I.faults input.new))
        (Rose (D.faults disk) (D.faults result.1)) (Rose (W.faults out.old) (W.faults out.new)) }
    ensures order { (IsKeyringEnd result.0 → result.1 ≡ disk)
        × (IsOpeningEnd result.0 → input.new ≡ input.old) }
    ensures said { IsSaid command.Import
        (record { keyring = S.left keys.old; store = D.reads_as disk }) result.0 }
    ensures kept { IsOpeningEnd result.0 → IsKept (D.reads_as disk) (D.reads_as result.1)
        (D.images disk) (D.images result.1) (D.images_since result.1 (D.moment disk)) }
    ensures done { Imported counted (record { keyring = S.left keys.old; store = D.reads_as disk })
        (Consumes (I.left input.old) (I.left input.new)) (IsAtEnd (I.left input.new))
        (D.images result.1) (LeavesAlso (D.images disk) (D.images_since result.1 (D.moment disk)))
        (GivesBy result.0 (W.given out.old) (W.given out.new)) result.0
        ⊎ (MayBeUnopened result.0 × IsKept (D.reads_as disk) (D.reads_as result.1) (D.images disk)
        (D.images result.1) (D.images_since result.1 (D.moment disk)) × (input.new ≡ input.old)) }
    ensures silent { (HasReport result.0 → ⊥) → Keeps (W.given out.old) (W.given out.new) }
{
    match open_store(alloc, disk, keys) {
        Ok(store) => import_bundle(alloc, counted, store, input, out),
        Err(refusal) => (refusal.status, refusal.disk),
    }
}
