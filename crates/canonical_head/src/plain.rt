// A plain and slow head, by the history of each different tip.
ghost use Rattle.std.specs.Prelude.{◌≡◌, ◌++◌, ◌∷◌, [], List, IfOk, OnOk, IsTrue, ◌↔◌, Contains};
ghost use Rattle.std.specs.Option.{ForSome};
ghost use Rattle.std.specs.BTreeSet.{contains};
ghost use Rattle.rad_base.specs.Order.{oid_cmp};
ghost use Rattle.commit_graph.specs.Faults.{KeepsObjects};
ghost use Rattle.commit_graph.specs.Histories.{ListsCommit};
ghost use Rattle.canonical_head.specs.Heads.{IsHead};
ghost use Rattle.canonical_head.specs.Tables.{AreRows, IsTable};

use crate::answer::Head;
use crate::heads::head_by;
use crate::table::Table;
use commit_graph::{GetFault, History, Objects, history_of};
use rad_base::Oid;
use std::alloc::{AllocError, Global};
use std::collections::{BTreeMap, BTreeSet};

// Those of the tips that are commits of the history.
fn row(alloc: Global, history: &History, tips: &[Oid]) -> Result<BTreeSet<Oid>, AllocError>
    ensures { IfOk result (λ row. (old : Oid) → Contains tips.now old
        → IsTrue (contains oid_cmp row old) ↔ ListsCommit history.now old) }
{
    let mut row = BTreeSet::new(alloc);
    for tip in tips {
        if history.contains(tip) {
            row.insert(*tip)?;
        }
    }
    Ok(row)
}

// Adds the row of a tip, by one walk, unless it is there.
fn add_row<O: Objects>(
    alloc: Global,
    objects: &mut O,
    tips: &[Oid],
    rows: &mut BTreeMap<Oid, BTreeSet<Oid>>,
    tip: &Oid,
) -> Result<(), GetFault>
    ensures told { ForSome (O.content objects.old) (λ m. OnOk result ((news : List Oid)
        → AreRows m tips.now news rows.old → AreRows m tips.now (news ++ tip.now ∷ []) rows.new)) }
    ensures keeps { KeepsObjects O.content O.beside O.places O.faults Some objects.old objects.new
        result }
{
    if rows.contains_key(tip) {
        return Ok(());
    }
    let history = history_of(alloc, objects, tip)?;
    let row = row(alloc, &history, tips)?;
    rows.insert(*tip, row)?;
    Ok(())
}

// The table of the tips, by one walk for each different one.
fn table_by_histories<O: Objects>(
    alloc: Global,
    objects: &mut O,
    tips: &[Oid],
) -> Result<Table, GetFault>
    ensures told { ForSome (O.content objects.old) (λ m. IfOk result (IsTable m tips.now)) }
    ensures keeps { KeepsObjects O.content O.beside O.places O.faults Some objects.old objects.new
        result }
{
    let mut rows = BTreeMap::new(alloc);
    for tip in tips {
        add_row(alloc, objects, tips, &mut rows, tip)?;
    }
    Ok(Table { rows })
}

/// What `head` answers, by one history for each different tip, in time of the number of tips times
/// that of commits. `Err` is the fault of a look-up, or `NoMemory`.
pub fn head_by_histories<O: Objects>(
    alloc: Global,
    objects: &mut O,
    tips: &[Oid],
    threshold: u8,
) -> Result<Head, GetFault>
    ensures told { ForSome (O.content objects.old)
        (λ m. IfOk result (IsHead m tips.now threshold)) }
    ensures branch { IfOk result (λ head. head ≡ Head.NoBranch → ⊥) }
    ensures keeps { KeepsObjects O.content O.beside O.places O.faults Some objects.old objects.new
        result }
{
    let table = table_by_histories(alloc, objects, tips)?;
    let head = head_by(alloc, &table, tips, threshold)?;
    Ok(head)
}
