// The job of a bundle, over a store.
ghost use Rattle.std.specs.Prelude.{◌≡◌, ◌↔◌, ◌≤◌, IsTrue};
ghost use Rattle.std.specs.Io.KnownBytes.{Consumes, IsAtEnd};
ghost use Rattle.rad_base.specs.Faults.{Rose};
ghost use Rattle.object_store.specs.Held.{IsUnclaimed};
ghost use Rattle.object_store.specs.Stores.{StandsForSome};
ghost use Rattle.rad_node.specs.Imports.{AreTaken, IsRefusedEnd, IsTaken};
ghost use Rattle.rad_node.specs.Jobs.{HasRun, IsEndCaused};
ghost use Rattle.rad_node.specs.Opening.{HasOpened};
ghost use Rattle.rad_node.specs.Statuses.{Files};

use fetch_stages::{ImportEnd, JobEnd, import_job};
use object_store::Store;
use rad_base::Nid;
use rad_outside::{Disk, Source};
use repo_slice::Outcome;
use std::alloc::Global;
use store_keep::StoreKeep;

/// The caller of a run's one job. It claims the repository.
const CALLER: u64 = 1;

// Whether what became of a remote is no refusal.
fn is_taken(outcome: &Outcome) -> bool
    ensures { IsTrue result ↔ IsTaken outcome.now }
{
    match outcome {
        Outcome::OutOfScope => true,
        Outcome::Same => true,
        Outcome::Stale => true,
        Outcome::Advanced => true,
        _ => false,
    }
}

// Whether no remote was refused.
fn are_taken(outcomes: &[(Nid, Outcome)]) -> bool
    ensures { IsTrue result ↔ AreTaken outcomes.now }
{
    outcomes.iter().all(|remote| is_taken(&remote.1))
}

/// Whether the offer of a job or one of its remotes was refused.
pub(crate) fn is_refused(end: &JobEnd) -> bool
    ensures { IsTrue result ↔ IsRefusedEnd end.now }
{
    match end {
        JobEnd::Done(judged, _) => !are_taken(judged.outcomes.as_slice()),
        _ => true,
    }
}

/// Runs the job of the bundle that an input has, over a store that nobody claims. The store comes
/// back.
pub(crate) fn run_job<D: Disk, I: Source>(
    alloc: Global,
    store: Store<D>,
    input: &mut I,
) -> (ImportEnd, Store<D>)
    requires stands { StandsForSome store }
    requires unclaimed { IsUnclaimed store }
    ensures stands { StandsForSome result.1 }
    ensures stays { D.loan result.1.journal.disk ≡ D.loan store.journal.disk }
    ensures later { D.faults store.journal.disk ≤ D.faults result.1.journal.disk }
    ensures input { I.faults input.old ≤ I.faults input.new }
    ensures cause { IsEndCaused (Rose (I.faults input.old) (I.faults input.new))
        (Rose (D.faults store.journal.disk) (D.faults result.1.journal.disk)) result.0 }
    ensures run { (files : Files) → HasOpened D.reads_as D.images files store
        → HasRun D.reads_as D.images D.moment D.images_since store.journal.disk files (Consumes (I.left input.old) (I.left input.new))
        (IsAtEnd (I.left input.new)) result.1 result.0 }
{
    let mut keep = StoreKeep::new(alloc, store, CALLER);
    let end = import_job(alloc, input, &mut keep);
    (end, keep.into_store())
}
