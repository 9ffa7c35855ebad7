// The judging of an offer over any objects.
ghost use Rattle.std.specs.Prelude.{◌≡◌, ◌≤◌, ◌++◌, [], List, length, None, Some};
ghost use Rattle.std.specs.Prelude.{IfErr, IfOk, OnOk};
ghost use Rattle.std.specs.Option.{ForSome};
ghost use Rattle.rad_base.specs.Order.{IsAbove, commit_of};
ghost use Rattle.commit_graph.specs.Faults.{KeepsObjects};
ghost use Rattle.commit_graph.specs.Many.{AreClosures};
ghost use Rattle.commit_graph.specs.Objects.{ObjectMap};
ghost use Rattle.commit_graph.specs.declared.root.Root.{Root};
ghost use Rattle.identity_doc.specs.IdentityChains.{HasIdentity};
ghost use Rattle.repo_slice.specs.Good.{IsGood};
ghost use Rattle.repo_slice.specs.Outcomes.{AreOutcomes, advanced_in, count_after, if_advanced};
ghost use Rattle.repo_slice.specs.Parts.{case_in};
ghost use Rattle.repo_slice.specs.Rounds.{AreEarly, AreProgress};
ghost use Rattle.repo_slice.specs.Conclusions.{Concludes};
ghost use Rattle.repo_slice.specs.Standing.{delegates_in};
ghost use Rattle.repo_slice.specs.Verdicts.{IsChecked, IsVerdict};

use crate::identity::judge_id;
use crate::progress::{Progress, reach_of};
use crate::remote::outcome_of;
use crate::rounds::round_at;
use crate::stop::Stop;
use crate::terms::{Terms, followed_of};
use crate::{Judged, Outcome, Outcomes, Scope, Stage, State, Whole};
use commit_graph::answer::Closure;
use commit_graph::{GetFault, Objects, closures};
use keyring::Keyring;
use rad_base::{Nid, NoMemory, Offer, Oid, Remotes};
use std::alloc::Global;

/// The outcomes of offered remotes, and those that advance.
#[derive(Drop)]
struct Remarks {
    outcomes: Outcomes,
    advanced: Remotes,
}

/// Notes a remote that advances, and that one more stands if it is new.
fn note(
    stored: &Remotes,
    advanced: &mut Remotes,
    count: &mut usize,
    node: &Nid,
    commit: &Oid,
    outcome: Outcome,
) -> Result<(), NoMemory>
    requires above { IsAbove advanced.old node.now }
    requires few { count.old ≤ 1024 }
    requires room { outcome ≡ Outcome.Advanced
        → (commit_of stored.now node.now ≡ None) × (count.old ≡ 1024) → ⊥ }
    ensures advanced { OnOk result (advanced.new
        ≡ advanced.old ++ if_advanced outcome (node.now, commit.now) []) }
    ensures counted { OnOk result
        (count.new ≡ count_after stored.now count.old node.now outcome) }
    ensures few { count.new ≤ 1024 }
{
    let Outcome::Advanced = outcome else {
        return Ok(());
    };
    advanced.push(*node, *commit)?;
    if stored.get(node).is_none() {
        *count += 1;
    }
    Ok(())
}

/// The outcome of each remote, by the closures of what the refs of those name that wait.
fn conclude(
    alloc: Global,
    terms: &Terms<'_>,
    remotes: &Remotes,
    found: &[Progress],
    answers: &[Closure],
) -> Result<Remarks, NoMemory>
    requires few { length terms.now.state.now.remotes ≤ 1024 }
    requires long { length found.now ≡ length remotes.now }
    requires early { AreEarly found.now }
    ensures told { Concludes (case_in terms.now) (length terms.now.state.now.remotes)
        remotes.now found.now answers.now result }
    ensures advanced { IfOk result
        (λ remarks. remarks.advanced ≡ advanced_in remotes.now remarks.outcomes) }
{
    let mut outcomes = Outcomes::new(alloc);
    let mut advanced = Remotes::new(alloc);
    let mut count = terms.state.remotes.as_slice().len();
    let pairs = remotes.as_slice();
    for i in 0..pairs.len() {
        let (node, commit) = &pairs[i];
        let outcome = outcome_of(terms, count, node, reach_of(answers, found[i]));
        outcomes.push(*node, outcome)?;
        note(
            &terms.state.remotes,
            &mut advanced,
            &mut count,
            node,
            commit,
            outcome,
        )?;
    }
    Ok(Remarks { outcomes, advanced })
}

/// Judges each offered remote.
fn judge_remotes<O: Objects>(
    alloc: Global,
    objects: &mut O,
    terms: &Terms<'_>,
    remotes: &Remotes,
) -> Result<Remarks, GetFault>
    requires { length terms.now.state.now.remotes ≤ 1024 }
    ensures told { ForSome (O.content objects.old) (λ m. IfOk result (λ found. AreOutcomes m
        (case_in terms.now) (length terms.now.state.now.remotes) remotes.now found.outcomes)) }
    ensures advanced { IfOk result
        (λ found. found.advanced ≡ advanced_in remotes.now found.outcomes) }
    ensures keeps { KeepsObjects O.content O.beside O.places O.faults Some objects.old objects.new
        result }
{
    let round = round_at(alloc, objects, terms, remotes, Stage::Tips)?;
    let answers = closures(alloc, objects, &round.roots)?;
    let remarks = conclude(alloc, terms, remotes, &round.found, &answers)?;
    Ok(remarks)
}

/// How many of the delegates have a remote once some are replaced or added.
fn delegates_in(old: &Remotes, advanced: &Remotes, delegates: &[Nid]) -> usize
    ensures { result ≡ delegates_in old.now advanced.now delegates.now }
{
    delegates
        .iter()
        .filter(|node| advanced.get(node).or(old.get(node)).is_some())
        .count()
}

/// Judges an offer over any objects. Where the state is good the verdict is the one that the
/// definition gives.
pub(crate) fn judge_over<O: Objects>(
    alloc: Global,
    objects: &mut O,
    state: &State,
    offer: &Offer,
    keyring: &Keyring,
    scope: &Scope,
) -> Result<Result<Judged, Whole>, GetFault>
    requires { length state.now.remotes ≤ 1024 }
    ensures told { ForSome (O.content objects.old) (λ m. IsGood m keyring.now state.now
        → IfOk result (IsVerdict m keyring.now state.now offer.now scope.now)) }
    ensures checked { IfOk result (λ verdict. IfErr verdict IsChecked) }
    ensures keeps { KeepsObjects O.content O.beside O.places O.faults Some objects.old objects.new
        result }
{
    let identity = match judge_id(alloc, objects, state, keyring, &offer.id) {
        Ok(identity) => identity,
        Err(Stop::Whole(why)) => return Ok(Err(why)),
        Err(Stop::Get(why)) => return Err(why),
    };
    let followed = followed_of(alloc, scope)?;
    let terms = Terms {
        state,
        keyring,
        doc: &identity.doc,
        scope,
        followed: &followed,
    };
    let found = judge_remotes(alloc, objects, &terms, &offer.remotes)?;
    let delegates = identity.doc.delegates.as_slice();
    let have = delegates_in(&state.remotes, &found.advanced, delegates);
    let need = usize::from(identity.doc.threshold);
    if have < need {
        return Ok(Err(Whole::TooFewDelegates { have, need }));
    }
    Ok(Ok(Judged {
        id_outcome: identity.outcome,
        outcomes: found.outcomes,
        next_id: identity.next,
        advanced: found.advanced,
    }))
}
