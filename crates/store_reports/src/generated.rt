// What `gen` prints of the repository that it made.
ghost use Rattle.std.specs.Prelude.{◌≡◌, List, IfOk};
ghost use Rattle.repo_entries.specs.Items.{Item};
ghost use Rattle.legal_history.specs.Replays.{replay, replayed_state};
ghost use Rattle.repo_slice.specs.Heads.{IsHeadOf};
ghost use Rattle.object_store.specs.Stores.{StandsFor, StandsForSome};
ghost use Rattle.store_reports.specs.Reports.{IsGeneratedReport};

use crate::entries::{count_kept, count_objects_of};
use crate::heads::has_identity;
use canonical_head::answer::Head;
use object_store::Store;
use rad_base::{Bytes, NoMemory, Rid};
use rad_outside::Disk;
use report_texts::{Generated, push_generated};
use std::alloc::Global;

/// What `gen` prints of a repository that was made with so many commits: these, the names of its
/// objects, the entries of the journal, and its canonical head where it has an identity.
/// `NoMemory`: memory was refused.
pub fn generated_report<D: Disk>(
    alloc: Global,
    store: &mut Store<D>,
    rid: &Rid,
    commits: u32,
) -> Result<Bytes, NoMemory>
    requires { StandsForSome store.old }
    ensures same { store.new ≡ store.old }
    ensures report { (items : List Item) → StandsFor store.old items
        → IfOk result (IsGeneratedReport store.old.keyring items rid.now commits) }
{
    let entries = store.history().as_slice();
    let counts = Generated {
        commits,
        objects: count_objects_of(alloc, entries, rid)? as u128,
        entries: count_kept(entries) as u128,
    };
    let head = head_if(alloc, store, rid)?;
    let mut text = Vec::new(alloc);
    push_generated(&mut text, &counts, head)?;
    Ok(Bytes::of(text))
}

// The head of a repository, if it has an identity.
fn head_if<D: Disk>(
    alloc: Global,
    store: &mut Store<D>,
    rid: &Rid,
) -> Result<Option<Head>, NoMemory>
    requires { StandsForSome store.old }
    ensures same { store.new ≡ store.old }
    ensures head { (items : List Item) → StandsFor store.old items
        → IfOk result (IsHeadOf (replay rid.now items).objects store.old.keyring
        (replayed_state rid.now items)) }
{
    if !has_identity(store, rid) {
        return Ok(None);
    }
    match store.head(alloc, rid, 0) {
        Ok(head) => Ok(Some(head)),
        Err(_) => Err(NoMemory),
    }
}
