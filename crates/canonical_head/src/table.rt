// Which tips lie in the histories of which.
ghost use Rattle.std.specs.Prelude.{◌≡◌, ◌≤◌, ◌+◌, ◌↔◌, List, length, IfOk, IsTrue};
ghost use Rattle.std.specs.Option.{ForSome};
ghost use Rattle.std.specs.BTreeSet.{contains};
ghost use Rattle.rad_base.specs.declared.names.Oid.{Oid};
ghost use Rattle.rad_base.specs.Lists.{AllDiffer};
ghost use Rattle.rad_base.specs.Order.{oid_cmp};
ghost use Rattle.commit_graph.specs.Faults.{KeepsObjects};
ghost use Rattle.commit_graph.specs.Objects.{ObjectMap};
ghost use Rattle.canonical_head.specs.Ancestries.{IsAncestry, IsFoundTip, IsWellNumbered};
ghost use Rattle.canonical_head.specs.Heads.{CoversHistories};
ghost use Rattle.canonical_head.specs.Tables.{tells, AreRows, IsTable};

use crate::ancestry::{Ancestry, ancestry_of};
use crate::nearest::nearest_tips;
use crate::search::{Marked, search};
use commit_graph::{GetFault, Objects};
use rad_base::Oid;
use std::alloc::{AllocError, Global};
use std::collections::{BTreeMap, BTreeSet};

/// For each tip the tips in its history.
#[derive(Drop)]
pub(crate) struct Table {
    pub(crate) rows: BTreeMap<Oid, BTreeSet<Oid>>,
}

impl Table {
    /// Whether the first lies in the history of the second.
    pub(crate) fn tells(&self, old: &Oid, new: &Oid) -> bool
        ensures { result ≡ tells self.now old.now new.now }
    {
        match self.rows.get(new) {
            None => false,
            Some(row) => row.contains(old),
        }
    }
}

// Those of the tips whose numbers were found.
fn row(alloc: Global, tips: &[Oid], marked: &Marked) -> Result<BTreeSet<Oid>, AllocError>
    requires { AllDiffer tips.now }
    ensures { IfOk result (λ row. (oid : Oid) → IsTrue (contains oid_cmp row oid)
        ↔ IsFoundTip tips.now marked.now.found oid) }
{
    let mut row = BTreeSet::new(alloc);
    for number in 0..tips.len() {
        if marked.contains(number) {
            row.insert(tips[number])?;
        }
    }
    Ok(row)
}

// The rows of the different tips, by one search over tips for each.
fn rows_of(alloc: Global, ancestry: &Ancestry) -> Result<BTreeMap<Oid, BTreeSet<Oid>>, AllocError>
    requires { IsWellNumbered ancestry.now }
    ensures { IfOk result (λ rows. (m : ObjectMap) (tips : List Oid)
        → IsAncestry m tips ancestry.now → AreRows m tips ancestry.now.tips.items rows) }
{
    let nearest = nearest_tips(alloc, ancestry)?;
    let mut rows = BTreeMap::new(alloc);
    for number in 0..ancestry.tips.len() {
        let marked = search(alloc, &nearest, number, 0)?;
        let row = row(alloc, &ancestry.tips, &marked)?;
        rows.insert(ancestry.tips[number], row)?;
    }
    Ok(rows)
}

/// The table of the tips, by one walk over all their histories, which looks each commit of them up
/// at most once.
pub(crate) fn table_of<O: Objects>(
    alloc: Global,
    objects: &mut O,
    tips: &[Oid],
) -> Result<Table, GetFault>
    ensures told { ForSome (O.content objects.old) (λ m. IfOk result (IsTable m tips.now)) }
    ensures keeps { KeepsObjects O.content O.beside O.places O.faults Some objects.old objects.new
        result }
    ensures looked { ForSome (O.content objects.old) (λ m. (commits : List Oid)
        → CoversHistories m tips.now commits
        → O.looks objects.new ≤ O.looks objects.old + length commits) }
{
    let ancestry = ancestry_of(alloc, objects, tips)?;
    let rows = rows_of(alloc, &ancestry)?;
    Ok(Table { rows })
}
