// What becomes of an offered remote.
ghost use Rattle.std.specs.Prelude.{◌≡◌, ◌∷◌, [], IfErr, IfOk, OnOk, None, Ok};
ghost use Rattle.std.specs.Option.{ForSome};
ghost use Rattle.rad_base.specs.declared.names.Oid.{Oid};
ghost use Rattle.commit_graph.specs.Closures.{IsClosedCommit, IsClosure};
ghost use Rattle.commit_graph.specs.Faults.{KeepsObjects};
ghost use Rattle.commit_graph.specs.Objects.{ObjectMap};
ghost use Rattle.commit_graph.specs.Pairs.{as_commit};
ghost use Rattle.repo_slice.specs.Good.{line_roots};
ghost use Rattle.repo_slice.specs.Outcomes.{IsCrowded, IsLater, IsNews, IsOutcome};
ghost use Rattle.repo_slice.specs.Parts.{IsEarly, IsHalt, IsLastOutcome};
ghost use Rattle.repo_slice.specs.Parts.{IsNoLater, IsNoNews, IsReachHalt, case_in, halt_fault_in};
ghost use Rattle.repo_slice.specs.Rounds.{IsEarlyReach, IsReach};

use crate::stop::Halt;
use crate::terms::{Terms, is_in_scope};
use crate::{Outcome, Stage};
use commit_graph::answer::Closure;
use commit_graph::{Objects, Root, in_history};
use rad_base::{Nid, Oid};
use signed_refs::{Refs, signed_closed};
use std::alloc::{AllocError, Global};

/// The most remotes of a repository.
pub(crate) const LIMIT: usize = 1024;

/// Whether a remote is in scope and offers a commit that does not lie in the history of a stored
/// one.
pub(crate) fn check_news<O: Objects>(
    alloc: Global,
    objects: &mut O,
    terms: &Terms<'_>,
    node: &Nid,
    commit: &Oid,
) -> Result<(), Halt>
    ensures told { ForSome (O.content objects.old)
        (λ m. OnOk result (IsNews m (case_in terms.now) node.now commit.now)) }
    ensures refused { ForSome (O.content objects.old)
        (λ m. IfErr result (IsHalt m (case_in terms.now) node.now commit.now)) }
    ensures none { ForSome (O.content objects.old)
        (λ m. IfErr result (IsNoNews m (case_in terms.now) node.now commit.now)) }
    ensures early { IfErr result IsEarly }
    ensures keeps { KeepsObjects O.content O.beside O.places O.faults halt_fault_in
        objects.old objects.new result }
{
    if !is_in_scope(terms, node) {
        return Err(Halt::Outcome(Outcome::OutOfScope));
    }
    let Some(stored) = terms.state.remotes.get(node) else {
        return Ok(());
    };
    if stored == *commit {
        return Err(Halt::Outcome(Outcome::Same));
    }
    let is_old = in_history(alloc, objects, commit, &stored)?;
    if is_old {
        return Err(Halt::Outcome(Outcome::Stale));
    }
    Ok(())
}

/// Whether all that a commit reaches is there and well formed, by its closure.
fn check_reach(closure: Closure) -> Result<(), Halt>
    ensures told { (m : ObjectMap) (commit : Oid) → IsClosure m (as_commit commit ∷ []) closure
        → OnOk result (IsClosedCommit m commit) }
    ensures refused { (m : ObjectMap) (commit : Oid) → IsClosure m (as_commit commit ∷ []) closure
        → IfErr result (IsReachHalt m commit) }
    ensures early { IfErr result IsEarly }
    ensures met { IfErr result (λ halt. halt_fault_in halt ≡ None) }
{
    match closure {
        Closure::Closed => Ok(()),
        Closure::Missing(oid) => Err(Halt::Outcome(Outcome::Missing(oid))),
        Closure::BadObject(oid) => Err(Halt::Outcome(Outcome::BadObject(oid))),
    }
}

/// The refs of a remote that is news, by the closure of its commit: where they are signed, and the
/// commit follows a stored one.
pub(crate) fn check_later<O: Objects>(
    alloc: Global,
    objects: &mut O,
    terms: &Terms<'_>,
    closure: Closure,
    node: &Nid,
    commit: &Oid,
) -> Result<Refs, Halt>
    requires news { ForSome (O.content objects.old)
        (λ m. IsNews m (case_in terms.now) node.now commit.now) }
    requires closure { ForSome (O.content objects.old)
        (λ m. IsClosure m (as_commit commit.now ∷ []) closure) }
    ensures told { ForSome (O.content objects.old)
        (λ m. IfOk result (IsLater m (case_in terms.now) node.now commit.now)) }
    ensures refused { ForSome (O.content objects.old)
        (λ m. IfErr result (IsHalt m (case_in terms.now) node.now commit.now)) }
    ensures none { ForSome (O.content objects.old)
        (λ m. IfErr result (IsNoLater m (case_in terms.now) node.now commit.now)) }
    ensures early { IfErr result IsEarly }
    ensures keeps { KeepsObjects O.content O.beside O.places O.faults halt_fault_in
        objects.old objects.new result }
{
    check_reach(closure)?;
    let rid = &terms.state.rid;
    let refs = signed_closed(alloc, objects, terms.keyring, rid, node, commit)?;
    let Some(stored) = terms.state.remotes.get(node) else {
        return Ok(refs);
    };
    let follows = in_history(alloc, objects, &stored, commit)?;
    if !follows {
        return Err(Halt::Outcome(Outcome::Forked));
    }
    Ok(refs)
}

/// What refs name, of any kind.
pub(crate) fn roots_of(alloc: Global, refs: &Refs) -> Result<Vec<Root>, AllocError>
    ensures { IfOk result (λ roots. roots.items ≡ line_roots refs.now) }
{
    refs.as_slice()
        .iter()
        .map(|line| Root {
            oid: line.1,
            kind: None,
        })
        .collect(alloc)
}

/// The outcome of a remote that is whole, where so many remotes stand before it.
fn last_outcome(terms: &Terms<'_>, count: usize, node: &Nid) -> Outcome
    ensures { IsLastOutcome (case_in terms.now) count node.now result }
{
    let is_new = terms.state.remotes.get(node).is_none();
    if is_new && count == LIMIT {
        return Outcome::Crowded;
    }
    Outcome::Advanced
}

/// The outcome of a remote that is signed and later, by the closure of what its refs name, where
/// so many remotes stand before it.
fn closed_outcome(terms: &Terms<'_>, count: usize, node: &Nid, closure: Closure) -> Outcome
    ensures told { (m : ObjectMap) (commit : Oid)
        → IsReach m (case_in terms.now) Stage.Tips (node.now, commit) (Ok closure)
        → IsOutcome m (case_in terms.now) count node.now commit result }
    ensures room { result ≡ Outcome.Advanced → IsCrowded (case_in terms.now) count node.now → ⊥ }
{
    match closure {
        Closure::Closed => last_outcome(terms, count, node),
        Closure::Missing(oid) => Outcome::Incomplete(oid),
        Closure::BadObject(oid) => Outcome::BadObject(oid),
    }
}

/// The outcome of a remote, by the closure of what its refs name, or by its outcome, where so many
/// remotes stand before it.
pub(crate) fn outcome_of(
    terms: &Terms<'_>,
    count: usize,
    node: &Nid,
    reach: Result<Closure, Outcome>,
) -> Outcome
    ensures told { (m : ObjectMap) (commit : Oid)
        → IsReach m (case_in terms.now) Stage.Tips (node.now, commit) reach
        → IsOutcome m (case_in terms.now) count node.now commit result }
    ensures room { IsEarlyReach reach → result ≡ Outcome.Advanced
        → IsCrowded (case_in terms.now) count node.now → ⊥ }
{
    match reach {
        Ok(closure) => closed_outcome(terms, count, node, closure),
        Err(outcome) => outcome,
    }
}
