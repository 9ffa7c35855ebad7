// The offered remotes, judged by all of them at a time: so what several reach is walked once.
ghost use Rattle.std.specs.Prelude.{◌≡◌, ◌++◌, length, IfErr, IfOk, OnOk, Some};
ghost use mathlib.Core.List.{IsPrefix};
ghost use Rattle.std.specs.Option.{ForSome};
ghost use Rattle.commit_graph.specs.Faults.{KeepsObjects};
ghost use Rattle.repo_slice.specs.Parts.{case_in};
ghost use Rattle.repo_slice.specs.Rounds.{AreEarly, AreProgress};
ghost use Rattle.repo_slice.specs.Rounds.{IsEarlyProgress, IsEarlyReach, IsProgress, IsReach};

use crate::progress::{Progress, Round, reach_of};
use crate::remote::{check_later, check_news, roots_of};
use crate::stop::Halt;
use crate::terms::Terms;
use crate::{Outcome, Stage};
use commit_graph::answer::Closure;
use commit_graph::{GetFault, Objects, Root, closures};
use git_object::Kind;
use rad_base::{Nid, Oid, Remotes};
use std::alloc::{AllocError, Global};

/// Adds the roots for which a remote waits behind those of others.
fn wait(roots: &mut Vec<Root>, more: &[Root]) -> Result<Progress, AllocError>
    ensures grown { OnOk result (roots.new.items ≡ roots.old.items ++ more.now) }
    ensures is { IfOk result (λ progress. progress
        ≡ Progress.Waits (length roots.old.items) (length roots.new.items)) }
{
    let from = roots.len();
    roots.extend_from_slice(more)?;
    Ok(Progress::Waits {
        from,
        to: roots.len(),
    })
}

/// Whether a remote is news. If it is, it waits for the closure of its commit.
fn begin<O: Objects>(
    alloc: Global,
    objects: &mut O,
    terms: &Terms<'_>,
    roots: &mut Vec<Root>,
    node: &Nid,
    commit: &Oid,
) -> Result<Progress, GetFault>
    ensures told { ForSome (O.content objects.old) (λ m. IfOk result (IsProgress m
        (case_in terms.now) Stage.Sigs roots.new.items (node.now, commit.now))) }
    ensures early { IfOk result IsEarlyProgress }
    ensures grown { OnOk result (IsPrefix roots.old.items roots.new.items) }
    ensures keeps { KeepsObjects O.content O.beside O.places O.faults Some objects.old objects.new
        result }
{
    match check_news(alloc, objects, terms, node, commit) {
        Ok(()) => {
            let root = Root {
                oid: *commit,
                kind: Some(Kind::Commit),
            };
            let progress = wait(roots, &[root])?;
            Ok(progress)
        }
        Err(Halt::Outcome(outcome)) => Ok(Progress::Over(outcome)),
        Err(Halt::Get(why)) => Err(why),
    }
}

/// Which remotes are news.
fn begin_all<O: Objects>(
    alloc: Global,
    objects: &mut O,
    terms: &Terms<'_>,
    remotes: &Remotes,
) -> Result<Round, GetFault>
    ensures told { ForSome (O.content objects.old) (λ m. IfOk result (λ round. AreProgress m
        (case_in terms.now) Stage.Sigs round.roots.items remotes.now round.found.items)) }
    ensures early { IfOk result (λ round. AreEarly round.found.items) }
    ensures long { IfOk result (λ round. length round.found.items ≡ length remotes.now) }
    ensures keeps { KeepsObjects O.content O.beside O.places O.faults Some objects.old objects.new
        result }
{
    let mut roots = Vec::new(alloc);
    let mut found = Vec::new(alloc);
    let pairs = remotes.as_slice();
    for (node, commit) in pairs {
        let progress = begin(alloc, objects, terms, &mut roots, node, commit)?;
        found.push(progress)?;
    }
    Ok(Round { roots, found })
}

/// Whether a remote that is news is later than a stored one, and says refs that the keyring
/// accepts. If so, it waits for the closure of what they name.
fn go_on<O: Objects>(
    alloc: Global,
    objects: &mut O,
    terms: &Terms<'_>,
    roots: &mut Vec<Root>,
    remote: &(Nid, Oid),
    reach: Result<Closure, Outcome>,
) -> Result<Progress, GetFault>
    requires { ForSome (O.content objects.old)
        (λ m. IsReach m (case_in terms.now) Stage.Sigs remote.now reach) }
    ensures told { ForSome (O.content objects.old) (λ m. IfOk result (IsProgress m
        (case_in terms.now) Stage.Tips roots.new.items remote.now)) }
    ensures early { IsEarlyReach reach → IfOk result IsEarlyProgress }
    ensures grown { OnOk result (IsPrefix roots.old.items roots.new.items) }
    ensures keeps { KeepsObjects O.content O.beside O.places O.faults Some objects.old objects.new
        result }
{
    let closure = match reach {
        Ok(closure) => closure,
        Err(outcome) => return Ok(Progress::Over(outcome)),
    };
    match check_later(alloc, objects, terms, closure, &remote.0, &remote.1) {
        Ok(refs) => {
            let more = roots_of(alloc, &refs)?;
            let progress = wait(roots, &more)?;
            Ok(progress)
        }
        Err(Halt::Outcome(outcome)) => Ok(Progress::Over(outcome)),
        Err(Halt::Get(why)) => Err(why),
    }
}

/// Which of the remotes that are news are signed and later.
fn go_on_all<O: Objects>(
    alloc: Global,
    objects: &mut O,
    terms: &Terms<'_>,
    remotes: &Remotes,
    news: &Round,
) -> Result<Round, GetFault>
    requires told { ForSome (O.content objects.old) (λ m. AreProgress m
        (case_in terms.now) Stage.Sigs news.now.roots.items remotes.now news.now.found.items) }
    requires early { AreEarly news.now.found.items }
    requires long { length news.now.found.items ≡ length remotes.now }
    ensures told { ForSome (O.content objects.old) (λ m. IfOk result (λ round. AreProgress m
        (case_in terms.now) Stage.Tips round.roots.items remotes.now round.found.items)) }
    ensures early { IfOk result (λ round. AreEarly round.found.items) }
    ensures long { IfOk result (λ round. length round.found.items ≡ length remotes.now) }
    ensures keeps { KeepsObjects O.content O.beside O.places O.faults Some objects.old objects.new
        result }
{
    let answers = closures(alloc, objects, &news.roots)?;
    let mut roots = Vec::new(alloc);
    let mut found = Vec::new(alloc);
    let pairs = remotes.as_slice();
    for i in 0..pairs.len() {
        let reach = reach_of(&answers, news.found[i]);
        let progress = go_on(alloc, objects, terms, &mut roots, &pairs[i], reach)?;
        found.push(progress)?;
    }
    Ok(Round { roots, found })
}

/// Which remotes get through a stage, and with which roots, and the outcomes of the others.
pub(crate) fn round_at<O: Objects>(
    alloc: Global,
    objects: &mut O,
    terms: &Terms<'_>,
    remotes: &Remotes,
    stage: Stage,
) -> Result<Round, GetFault>
    ensures told { ForSome (O.content objects.old) (λ m. IfOk result (λ round. AreProgress m
        (case_in terms.now) stage round.roots.items remotes.now round.found.items)) }
    ensures early { IfOk result (λ round. AreEarly round.found.items) }
    ensures long { IfOk result (λ round. length round.found.items ≡ length remotes.now) }
    ensures keeps { KeepsObjects O.content O.beside O.places O.faults Some objects.old objects.new
        result }
{
    let news = begin_all(alloc, objects, terms, remotes)?;
    match stage {
        Stage::Sigs => Ok(news),
        Stage::Tips => go_on_all(alloc, objects, terms, remotes, &news),
    }
}
