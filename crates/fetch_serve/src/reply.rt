// The reply to a request.
ghost use Rattle.std.specs.Prelude.{◌≡◌, ◌↔◌, ◌≤◌, IfErr, IfOk, IsTrue, None, Some, IfSome, length};
ghost use Rattle.std.specs.Option.{ForSome};
ghost use Rattle.commit_graph.specs.Faults.{KeepsObjects};
ghost use Rattle.commit_graph.specs.declared.fault.GetFault.TheVariants.{NoMemory};
ghost use Rattle.identity_doc.specs.Documents.{Sees};
ghost use Rattle.identity_doc.specs.IdentityChains.{HasIdentity};
ghost use Rattle.identity_doc.specs.IdentityFaults.{id_fault_in};
ghost use Rattle.identity_doc.specs.declared.doc.Doc.{Doc as Document};
ghost use Rattle.fetch_serve.specs.Replies.{IsReply, refusal_text};
ghost use Rattle.fetch_serve.specs.Showings.{IfLeft, IsGoodFor, showing};

use crate::Shown;
use crate::parts::{lacks, nodes_of, rid_of};
use crate::section::section;
use crate::writing::refusal;
use commit_graph::{GetFault, Objects};
use fetch_wire::Request;
use identity_doc::{IdFault, id_chain};
use keyring::Keyring;
use rad_base::{Nid, Oid, Remotes, Rid};
use std::alloc::Global;

// The fault of objects that a refusal is.
fn fault_in(fault: &IdFault) -> Option<GetFault>
    ensures { result ≡ id_fault_in fault.now }
{
    match fault {
        IdFault::Get(why) => Some(*why),
        IdFault::Missing(_) => None,
        IdFault::BadObject(_) => None,
        IdFault::TwoParents(_) => None,
        IdFault::NoRoot(_) => None,
        IdFault::NoDocument(_) => None,
        IdFault::WrongRoot(_) => None,
        IdFault::NotJson(_) => None,
        IdFault::BadDocument(_, _) => None,
        IdFault::BadSignatures(_, _) => None,
        IdFault::TooFew { .. } => None,
    }
}

// Whether the document of an identity lets the asker see the repository.
fn is_seen<O: Objects>(
    alloc: Global,
    objects: &mut O,
    keyring: &Keyring,
    rid: &Rid,
    id: &Oid,
    asker: &Nid,
) -> Result<bool, GetFault>
    ensures told { ForSome (O.content objects.old) (λ m. (doc : Document)
        → HasIdentity m keyring.now rid.now id.now doc
        → IfOk result (λ is. IsTrue is ↔ Sees doc asker.now)) }
    ensures keeps { KeepsObjects O.content O.beside O.places O.faults Some objects.old objects.new
        result }
{
    match id_chain(alloc, objects, keyring, rid, id) {
        Ok(doc) => Ok(doc.sees(asker)),
        Err(fault) => match fault_in(&fault) {
            Some(why) => Err(why),
            // An identity that is shown has a document.
            None => Ok(false),
        },
    }
}

/// The reply over objects that are lent.
pub(crate) fn answer_over<O: Objects>(
    alloc: Global,
    objects: &mut O,
    id: &Oid,
    remotes: &Remotes,
    keyring: &Keyring,
    request: &Request,
    asker: &Nid,
) -> Result<Vec<u8>, GetFault>
    requires { length remotes.now ≤ 1024 }
    ensures told { ForSome (O.content objects.old) (λ m.
        IsGoodFor (showing m id.now remotes.now) keyring.now request.now
        → IfOk result (λ bytes. IsReply (showing m id.now remotes.now) keyring.now request.now
        asker.now bytes.items)) }
    ensures keeps { KeepsObjects O.content O.beside O.places O.faults Some objects.old objects.new
        result }
{
    let Some(rid) = rid_of(request) else {
        return Ok(refusal(alloc, 1)?);
    };
    let is_seen = is_seen(alloc, objects, keyring, &rid, id, asker)?;
    if !is_seen {
        let hidden = refusal(alloc, 1)?;
        return Ok(hidden);
    }
    if lacks(remotes, nodes_of(request)) {
        return Ok(refusal(alloc, 2)?);
    }
    let bytes = section(alloc, objects, id, remotes, request)?;
    Ok(bytes)
}

/// The reply to a request.
pub fn answer<O: Objects>(
    alloc: Global,
    shown: Option<Shown<'_, O>>,
    keyring: &Keyring,
    request: &Request,
    asker: &Nid,
) -> Result<Vec<u8>, GetFault>
    requires { IfSome shown (λ s. length s.remotes.now ≤ 1024) }
    ensures hidden { shown.entry ≡ None → IfOk result (λ bytes. bytes.items ≡ refusal_text 1) }
    ensures fault { shown.entry ≡ None → IfErr result (λ why. why ≡ NoMemory) }
    ensures told { IfSome shown.entry (λ s. ForSome (O.content s.objects.now) (λ m.
        IsGoodFor (showing m s.id s.remotes.now) keyring.now request.now
        → IfOk result (λ bytes. IsReply (showing m s.id s.remotes.now) keyring.now request.now
        asker.now bytes.items))) }
    ensures keeps { IfSome shown.entry (λ s. IfLeft shown.exit (λ left. KeepsObjects O.content
        O.beside O.places O.faults Some s.objects.now left.0.0.now result)) }
{
    match shown {
        None => Ok(refusal(alloc, 1)?),
        Some(shown) => {
            let id = shown.id;
            let remotes = shown.remotes;
            answer_over(alloc, shown.objects, &id, remotes, keyring, request, asker)
        }
    }
}
