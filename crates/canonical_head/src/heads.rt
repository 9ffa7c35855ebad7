// The canonical head.
ghost use Rattle.std.specs.Prelude.{◌≡◌, ℕ, ◌≤◌, ◌+◌, nat_le, IfOk, List, length, filter};
ghost use Rattle.std.specs.Option.{ForSome};
ghost use Rattle.commit_graph.specs.Faults.{KeepsObjects};
ghost use Rattle.commit_graph.specs.Objects.{ObjectMap};
ghost use Rattle.rad_base.specs.declared.names.Oid.{Oid};
ghost use Rattle.canonical_head.specs.Heads.{CoversHistories, IsHead};
ghost use Rattle.canonical_head.specs.Divergence.{IsDivergence, rivaled_in, rivals_in};
ghost use Rattle.canonical_head.specs.Tables.{IsTable, votes_in, candidates_in, is_top, is_beside};
ghost use Rattle.canonical_head.specs.Tables.{has_rival, tells};

use crate::answer::Head;
use crate::least::least;
use crate::table::{Table, table_of};
use commit_graph::{GetFault, Objects};
use rad_base::Oid;
use std::alloc::{AllocError, Global};

fn votes(table: &Table, tips: &[Oid], oid: &Oid) -> usize
    ensures { result ≡ votes_in table.now tips.now oid.now }
{
    tips.iter().filter(|tip| table.tells(oid, tip)).count()
}

fn has_votes(table: &Table, tips: &[Oid], threshold: u8, oid: &Oid) -> bool
    ensures { result ≡ nat_le threshold (votes_in table.now tips.now oid.now) }
{
    usize::from(threshold) <= votes(table, tips, oid)
}

// The tips that have votes enough, as often as they stand.
fn candidates(
    alloc: Global,
    table: &Table,
    tips: &[Oid],
    threshold: u8,
) -> Result<Vec<Oid>, AllocError>
    ensures { IfOk result (λ list. list.items ≡ candidates_in table.now tips.now threshold) }
{
    tips.iter()
        .copied()
        .filter(|oid| has_votes(table, tips, threshold, oid))
        .collect(alloc)
}

fn is_top(table: &Table, candidates: &[Oid], oid: &Oid) -> bool
    ensures { result ≡ is_top table.now candidates.now oid.now }
{
    candidates.iter().all(|other| table.tells(other, oid))
}

fn is_beside(table: &Table, a: &Oid, b: &Oid) -> bool
    ensures { result ≡ is_beside table.now a.now b.now }
{
    !table.tells(a, b) && !table.tells(b, a)
}

fn has_rival(table: &Table, candidates: &[Oid], oid: &Oid) -> bool
    ensures { result ≡ has_rival table.now candidates.now oid.now }
{
    candidates.iter().any(|other| is_beside(table, oid, other))
}

// The candidates that have all candidates in their history.
fn tops(alloc: Global, table: &Table, candidates: &[Oid]) -> Result<Vec<Oid>, AllocError>
    ensures { IfOk result
        (λ list. list.items ≡ filter (is_top table.now candidates.now) candidates.now) }
{
    candidates
        .iter()
        .copied()
        .filter(|oid| is_top(table, candidates, oid))
        .collect(alloc)
}

// The candidates that have another beside them.
fn rivaled(alloc: Global, table: &Table, candidates: &[Oid]) -> Result<Vec<Oid>, AllocError>
    ensures { IfOk result
        (λ list. list.items ≡ rivaled_in table.now candidates.now) }
{
    candidates
        .iter()
        .copied()
        .filter(|oid| has_rival(table, candidates, oid))
        .collect(alloc)
}

// The candidates beside one.
fn rivals(
    alloc: Global,
    table: &Table,
    candidates: &[Oid],
    oid: &Oid,
) -> Result<Vec<Oid>, AllocError>
    ensures { IfOk result
        (λ list. list.items ≡ rivals_in table.now candidates.now oid.now) }
{
    candidates
        .iter()
        .copied()
        .filter(|other| is_beside(table, oid, other))
        .collect(alloc)
}

// The least candidate that has another beside it, with the least beside that.
fn divergence(alloc: Global, table: &Table, candidates: &[Oid]) -> Result<Head, AllocError>
    ensures { IfOk result (IsDivergence table.now candidates.now) }
{
    let rivaled = rivaled(alloc, table, candidates)?;
    match least(&rivaled) {
        None => Ok(Head::NoQuorum),
        Some(first) => {
            let rivals = rivals(alloc, table, candidates, &first)?;
            match least(&rivals) {
                Some(second) => Ok(Head::Diverging(first, second)),
                // It has a rival, so this never comes.
                None => Ok(Head::NoQuorum),
            }
        }
    }
}

/// The head, as the table tells the histories.
pub(crate) fn head_by(
    alloc: Global,
    table: &Table,
    tips: &[Oid],
    threshold: u8,
) -> Result<Head, AllocError>
    ensures told { IfOk result (λ head. (m : ObjectMap) → IsTable m tips.now table.now
        → IsHead m tips.now threshold head) }
    ensures branch { IfOk result (λ head. head ≡ Head.NoBranch → ⊥) }
{
    let candidates = candidates(alloc, table, tips, threshold)?;
    let tops = tops(alloc, table, &candidates)?;
    match least(&tops) {
        Some(oid) => Ok(Head::At(oid)),
        None => divergence(alloc, table, &candidates),
    }
}

/// The head that enough of the tips agree on. There is one tip for each delegate that has one,
/// which is closed as a commit; the threshold is the number of votes that make a candidate, from 1.
///
/// A tip has a vote for each of the tips that has it in its history, itself included; equal tips
/// count as often as they stand. At most 255 tips.
///
/// `NoQuorum` where there is no candidate; `At` the least candidate that has all candidates in its
/// history; else `Diverging`. It never answers `NoBranch`. Each commit of the histories is looked
/// up at most once, however many tips have it in theirs. `Err` is the fault of a look-up, or
/// `NoMemory`.
pub fn head<O: Objects>(
    alloc: Global,
    objects: &mut O,
    tips: &[Oid],
    threshold: u8,
) -> Result<Head, GetFault>
    ensures told { ForSome (O.content objects.old)
        (λ m. IfOk result (IsHead m tips.now threshold)) }
    ensures branch { IfOk result (λ head. head ≡ Head.NoBranch → ⊥) }
    ensures keeps { KeepsObjects O.content O.beside O.places O.faults Some objects.old objects.new
        result }
    ensures looked { ForSome (O.content objects.old) (λ m. (commits : List Oid)
        → CoversHistories m tips.now commits
        → O.looks objects.new ≤ O.looks objects.old + length commits) }
{
    let table = table_of(alloc, objects, tips)?;
    let head = head_by(alloc, &table, tips, threshold)?;
    Ok(head)
}
