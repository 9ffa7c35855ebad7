// Which of the offered remotes are asked for.
ghost use Rattle.std.specs.Prelude.{◌≡◌, ◌∷◌, ◌++◌, [], if◌then◌else◌, length, List};
ghost use Rattle.std.specs.Prelude.{IfOk, OnOk, Some};
ghost use Rattle.std.specs.Option.{ForSome};
ghost use Rattle.commit_graph.specs.Faults.{KeepsObjects};
ghost use Rattle.commit_graph.specs.Objects.{ObjectMap};
ghost use Rattle.commit_graph.specs.declared.root.Root.{Root};
ghost use Rattle.repo_slice.specs.Good.{IsGood};
ghost use Rattle.repo_slice.specs.Outcomes.{Case};
ghost use Rattle.repo_slice.specs.Rounds.{AreProgress};
ghost use Rattle.repo_slice.specs.Wanted.{AreAmong, AreWanted, IsWanted, IsWantedList, Picks};

use crate::identity::judge_id;
use crate::progress::{Progress, is_waiting};
use crate::rounds::round_at;
use crate::stop::Stop;
use crate::terms::{Terms, followed_of};
use crate::{Scope, State};
use commit_graph::{GetFault, Objects};
use keyring::Keyring;
use rad_base::{Nid, Nids, NoMemory, Offer, Remotes};
use std::alloc::Global;

/// What a job asks for next.
#[derive(Clone, Copy, Debug, PartialEq, Eq)]
pub enum Stage {
    /// The signed refs.
    Sigs,
    /// What the signed refs name.
    Tips,
}

// Adds a node, if it is asked for.
fn add(nodes: &mut Nids, node: &Nid, is: bool) -> Result<(), NoMemory>
    ensures { OnOk result (nodes.new ≡ (if is then nodes.old ++ node.now ∷ [] else nodes.old)) }
{
    if is {
        nodes.push(*node)?;
    }
    Ok(())
}

/// The nodes of the remotes that wait.
fn waiting(alloc: Global, remotes: &Remotes, found: &[Progress]) -> Result<Nids, NoMemory>
    requires { length found.now ≡ length remotes.now }
    ensures told { (m : ObjectMap) (c : Case) (stage : Stage) (roots : List Root)
        → AreProgress m c stage roots remotes.now found.now
        → IfOk result (Picks (IsWanted m c stage) remotes.now) }
    ensures among { IfOk result (AreAmong remotes.now) }
{
    let mut nodes = Nids::new(alloc);
    let pairs = remotes.as_slice();
    for i in 0..pairs.len() {
        add(&mut nodes, &pairs[i].0, is_waiting(found[i]))?;
    }
    Ok(nodes)
}

/// The nodes of the offered remotes that are asked for.
pub(crate) fn wants_over<O: Objects>(
    alloc: Global,
    objects: &mut O,
    state: &State,
    offer: &Offer,
    keyring: &Keyring,
    scope: &Scope,
    stage: Stage,
) -> Result<Nids, GetFault>
    ensures told { ForSome (O.content objects.old) (λ m. IsGood m keyring.now state.now
        → IfOk result (IsWantedList m keyring.now state.now offer.now scope.now stage)) }
    ensures among { IfOk result (AreAmong offer.now.remotes) }
    ensures keeps { KeepsObjects O.content O.beside O.places O.faults Some objects.old objects.new
        result }
{
    let identity = match judge_id(alloc, objects, state, keyring, &offer.id) {
        Ok(identity) => identity,
        Err(Stop::Whole(_)) => return Ok(Nids::new(alloc)),
        Err(Stop::Get(why)) => return Err(why),
    };
    let followed = followed_of(alloc, scope)?;
    let terms = Terms {
        state,
        keyring,
        doc: &identity.doc,
        scope,
        followed: &followed,
    };
    let round = round_at(alloc, objects, &terms, &offer.remotes, stage)?;
    let nodes = waiting(alloc, &offer.remotes, &round.found)?;
    Ok(nodes)
}
