// What the entries of a history count.
ghost use Rattle.std.specs.Prelude.{◌≡◌, ◌∷◌, [], List, count_by, length, map, IfOk, OnOk};
ghost use Rattle.repo_entries.specs.Items.{Item, entry_of};
ghost use Rattle.std.specs.BTreeSet.{IsOrdered};
ghost use Rattle.legal_history.specs.Replays.{is_same};
ghost use Rattle.store_reports.specs.Parts.{AddsKeys, HasPairs, is_durable, pairs_of, pairs_with};
ghost use Rattle.store_reports.specs.Reports.{CountsObjects, CountsOwn, pair_cmp};

use rad_base::{NoMemory, Oid, Rid};
use repo_slice::Entry;
use std::alloc::Global;
use std::collections::BTreeSet;

/// Whether a journal has the entry.
fn is_kept(entry: &Entry) -> bool
    ensures { result ≡ is_durable entry.now }
{
    matches!(
        entry,
        Entry::Put { .. } | Entry::Install { .. } | Entry::Heard { .. }
    )
}

/// How many of the entries a journal has.
pub(crate) fn count_kept(entries: &[Entry]) -> usize
    ensures { result ≡ count_by is_durable entries.now }
{
    entries.iter().filter(|entry| is_kept(entry)).count()
}

// Adds a repository with each of these names.
fn add_names(pairs: &mut BTreeSet<(Rid, Oid)>, rid: &Rid, names: &[Oid]) -> Result<(), NoMemory>
    ensures { OnOk result (AddsKeys pair_cmp (pairs_with rid.now names.now) pairs.old pairs.new) }
{
    for name in names {
        pairs.insert((*rid, *name))?;
    }
    Ok(())
}

// Adds the repository of a put with the name of each of its objects.
fn add_entry(pairs: &mut BTreeSet<(Rid, Oid)>, entry: &Entry) -> Result<(), NoMemory>
    ensures { OnOk result (AddsKeys pair_cmp (pairs_of entry.now) pairs.old pairs.new) }
{
    match entry {
        Entry::Put { rid, names, .. } => add_names(pairs, rid, names.as_slice()),
        _ => Ok(()),
    }
}

// The repositories that puts name, each with the names of the objects that were put.
fn put_names(alloc: Global, entries: &[Entry]) -> Result<BTreeSet<(Rid, Oid)>, NoMemory>
    ensures { IfOk result (HasPairs entries.now) }
{
    let mut pairs = BTreeSet::new(alloc);
    for entry in entries {
        add_entry(&mut pairs, entry)?;
    }
    Ok(pairs)
}

/// How many names of objects the repositories have, each name counted once for each repository.
pub(crate) fn count_objects(alloc: Global, entries: &[Entry]) -> Result<usize, NoMemory>
    ensures { (items : List Item) → entries.now ≡ map entry_of items
        → IfOk result (CountsObjects items) }
{
    let pairs = put_names(alloc, entries)?;
    Ok(pairs.len())
}

// How many of the pairs are of a repository.
fn count_of(pairs: &BTreeSet<(Rid, Oid)>, rid: &Rid) -> usize
    ensures count { result ≡ count_by (λ pair. is_same pair.0 rid.now) pairs.now.keys }
    ensures ordered { IsOrdered pair_cmp pairs.now }
{
    pairs.iter().filter(|pair| pair.0.cmp(rid).is_eq()).count()
}

/// How many names of objects one repository has.
pub(crate) fn count_objects_of(
    alloc: Global,
    entries: &[Entry],
    rid: &Rid,
) -> Result<usize, NoMemory>
    ensures { (items : List Item) → entries.now ≡ map entry_of items
        → IfOk result (CountsOwn items rid.now) }
{
    let pairs = put_names(alloc, entries)?;
    Ok(count_of(&pairs, rid))
}
