// What becomes of an offered identity.
ghost use Rattle.std.specs.Prelude.{IfErr, IfOk};
ghost use Rattle.std.specs.Option.{ForSome};
ghost use Rattle.commit_graph.specs.Faults.{KeepsObjects};
ghost use Rattle.identity_doc.specs.IdentityChains.{HasIdentity};
ghost use Rattle.repo_slice.specs.Good.{IsGood};
ghost use Rattle.repo_slice.specs.Parts.{IsCheckedStop, IsIdRefusal, IsIdStop, stop_fault_in};
ghost use Rattle.repo_slice.specs.Verdicts.{IsIdOutcome};

use crate::stop::Stop;
use crate::{IdOutcome, State, Whole};
use commit_graph::{Objects, in_history};
use identity_doc::{Doc, IdFault, id_chain};
use keyring::Keyring;
use rad_base::{Oid, Rid};
use std::alloc::Global;

/// The outcome of an offered identity, with the next identity and its document.
#[derive(Drop)]
pub(crate) struct Identity {
    pub(crate) outcome: IdOutcome,
    pub(crate) next: Oid,
    pub(crate) doc: Doc,
}

/// The document of a tip.
pub(crate) fn document<O: Objects>(
    alloc: Global,
    objects: &mut O,
    keyring: &Keyring,
    rid: &Rid,
    tip: &Oid,
) -> Result<Doc, Stop>
    ensures told { ForSome (O.content objects.old)
        (λ m. IfOk result (HasIdentity m keyring.now rid.now tip.now)) }
    ensures refused { ForSome (O.content objects.old)
        (λ m. IfErr result (IsIdStop m keyring.now rid.now tip.now)) }
    ensures checked { IfErr result IsCheckedStop }
    ensures keeps { KeepsObjects O.content O.beside O.places O.faults stop_fault_in
        objects.old objects.new result }
{
    match id_chain(alloc, objects, keyring, rid, tip) {
        Ok(doc) => Ok(doc),
        Err(IdFault::Get(why)) => Err(Stop::Get(why)),
        Err(why) => Err(Stop::Whole(Whole::IdFault(why))),
    }
}

/// What becomes of an offered identity. Where the state is good it is refused for what is wrong
/// with the offer alone.
pub(crate) fn judge_id<O: Objects>(
    alloc: Global,
    objects: &mut O,
    state: &State,
    keyring: &Keyring,
    id: &Oid,
) -> Result<Identity, Stop>
    ensures told { ForSome (O.content objects.old) (λ m. IfOk result (λ found.
        IsIdOutcome m state.now id.now found.outcome found.next
        × HasIdentity m keyring.now state.now.rid found.next found.doc)) }
    ensures refused { ForSome (O.content objects.old) (λ m. IsGood m keyring.now state.now
        → IfErr result (IsIdRefusal m keyring.now state.now id.now)) }
    ensures checked { IfErr result IsCheckedStop }
    ensures keeps { KeepsObjects O.content O.beside O.places O.faults stop_fault_in
        objects.old objects.new result }
{
    let Some(stands) = state.id else {
        let doc = document(alloc, objects, keyring, &state.rid, id)?;
        return Ok(Identity {
            outcome: IdOutcome::First,
            next: *id,
            doc,
        });
    };
    if *id == stands {
        let doc = document(alloc, objects, keyring, &state.rid, id)?;
        return Ok(Identity {
            outcome: IdOutcome::Same,
            next: *id,
            doc,
        });
    }
    let is_old = in_history(alloc, objects, id, &stands)?;
    if is_old {
        let doc = document(alloc, objects, keyring, &state.rid, &stands)?;
        return Ok(Identity {
            outcome: IdOutcome::Stale,
            next: stands,
            doc,
        });
    }
    let doc = document(alloc, objects, keyring, &state.rid, id)?;
    let follows = in_history(alloc, objects, &stands, id)?;
    if !follows {
        return Err(Stop::Whole(Whole::IdForked));
    }
    Ok(Identity {
        outcome: IdOutcome::Advanced,
        next: *id,
        doc,
    })
}
