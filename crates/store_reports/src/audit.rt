// The counts of a store.
ghost use Rattle.std.specs.Prelude.{◌≡◌, List, Contains, length, sum_by, IfOk};
ghost use Rattle.rad_base.specs.declared.names.Rid.{Rid};
ghost use Rattle.repo_entries.specs.Items.{Item};
ghost use Rattle.legal_history.specs.Replays.{replay};
ghost use Rattle.object_store.specs.Shown.{ShowsRepository};
ghost use Rattle.object_store.specs.Stores.{StandsFor};
ghost use Rattle.store_reports.specs.Reports.{AreCounts, IsAuditReport, remote_count};

use crate::entries::{count_kept, count_objects};
use object_store::Store;
use rad_base::{Bytes, NoMemory, Rid};
use rad_outside::Disk;
use report_texts::{Counts, push_audit};
use std::alloc::Global;

/// What `audit` prints: the entries of the journal, the repositories, their remotes, the names of
/// their objects, and the announcements that are kept. `NoMemory`: memory was refused.
pub fn audit_report<D: Disk>(alloc: Global, store: &Store<D>) -> Result<Bytes, NoMemory>
    ensures { (items : List Item) → StandsFor store.now items
        → IfOk result (IsAuditReport items) }
{
    let counts = counts_of(alloc, store)?;
    let mut text = Vec::new(alloc);
    push_audit(&mut text, &counts)?;
    Ok(Bytes::of(text))
}

/// What `audit` counts: the entries that the journal has, the repositories that a put or an
/// install names, their remotes, the names of their objects, each once for a repository, and the
/// announcements that are kept. `NoMemory`: memory was refused.
pub fn counts_of<D: Disk>(alloc: Global, store: &Store<D>) -> Result<Counts, NoMemory>
    ensures { (items : List Item) → StandsFor store.now items → IfOk result (AreCounts items) }
{
    let rids = store.repositories(alloc)?;
    let named = rids.as_slice();
    let entries = store.history().as_slice();
    Ok(Counts {
        entries: count_kept(entries) as u128,
        repositories: named.len() as u128,
        remotes: count_remotes(store, named),
        objects: count_objects(alloc, entries)? as u128,
        announcements: store.table().len() as u128,
    })
}

// How many remotes some repositories have.
fn count_remotes<D: Disk>(store: &Store<D>, rids: &[Rid]) -> u128
    ensures { (items : List Item) → StandsFor store.now items
        → ((rid : Rid) → Contains rids.now rid → ShowsRepository rid items)
        → result ≡ sum_by (remote_count items) rids.now }
{
    let mut count: u128 = 0;
    for rid in rids {
        count += count_remotes_of(store, rid) as u128;
    }
    count
}

// How many remotes a repository has.
fn count_remotes_of<D: Disk>(store: &Store<D>, rid: &Rid) -> usize
    ensures { (items : List Item) → StandsFor store.now items → ShowsRepository rid.now items
        → result ≡ remote_count items rid.now }
{
    match store.slice(rid) {
        Some(slice) => slice.remotes().as_slice().len(),
        None => 0,
    }
}
