// The documents of identity commits, each by the rules of its place in a chain.
ghost use Rattle.std.specs.Prelude.{IfOk, IfErr, OnOk};
ghost use Rattle.std.specs.Option.{ForSome};
ghost use Rattle.commit_graph.specs.Faults.{KeepsObjects};
ghost use Rattle.tree_entry.specs.Embedded as embedded;
ghost use Rattle.identity_doc.specs.IdentityChains.{HasDocument, HasDocumentIn, IsApproved};
ghost use Rattle.identity_doc.specs.IdentityFaults.{FailsChange, FailsFirst};
ghost use Rattle.identity_doc.specs.IdentityFaults.{HasSomeDocument, id_fault_in};
ghost use Rattle.identity_doc.specs.Texts.{IsSomeText};

use crate::blobs::{document_in, signatures_at};
use crate::doc::Doc;
use crate::id_fault::IdFault;
use crate::majority::{change_message, majority, signed_by};
use commit_graph::Objects;
use keyring::Keyring;
use rad_base::{Oid, Rid};
use std::alloc::Global;
use tree_entry::embedded;

/// The document of a commit without parents.
pub(crate) fn first_document<O: Objects>(
    alloc: Global,
    objects: &mut O,
    keyring: &Keyring,
    rid: &Rid,
    root: Oid,
) -> Result<Doc, IdFault>
    ensures told { ForSome (O.content objects.old)
        (λ m. IfOk result (HasDocumentIn m keyring.now root rid.now.0)) }
    ensures text { IfOk result (IsSomeText keyring.now) }
    ensures refused { ForSome (O.content objects.old)
        (λ m. IfErr result (FailsFirst m keyring.now rid.now root)) }
    ensures keeps { KeepsObjects O.content O.beside O.places O.faults id_fault_in
        objects.old objects.new result }
{
    let Some(blob) = embedded(objects, &root, b"radicle.json")? else {
        return Err(IdFault::NoDocument(root));
    };
    if blob != rid.0 {
        return Err(IdFault::WrongRoot(root));
    }
    let doc = document_in(alloc, objects, keyring, root, &blob)?;
    Ok(doc)
}

// Refuses a change that no majority of the delegates before signed.
fn approve<O: Objects>(
    alloc: Global,
    objects: &mut O,
    keyring: &Keyring,
    parent: Oid,
    before: &Doc,
    commit: Oid,
    blob: &Oid,
) -> Result<(), IdFault>
    requires named { ForSome (O.content objects.old)
        (λ m. embedded.HasDocumentBlob m commit blob.now) }
    requires has { ForSome (O.content objects.old)
        (λ m. HasSomeDocument m keyring.now commit) }
    ensures told { ForSome (O.content objects.old)
        (λ m. OnOk result (IsApproved m keyring.now parent before.now commit)) }
    ensures refused { ForSome (O.content objects.old)
        (λ m. IfErr result (FailsChange m keyring.now parent before.now commit)) }
    ensures keeps { KeepsObjects O.content O.beside O.places O.faults id_fault_in
        objects.old objects.new result }
{
    let lines = signatures_at(alloc, objects, commit)?;
    let message = change_message(alloc, &parent, blob)?;
    let delegates = before.delegates.as_slice();
    let have = signed_by(keyring, &message, &lines, delegates);
    let need = majority(delegates.len());
    if have < need {
        return Err(IdFault::TooFew { commit, have, need });
    }
    Ok(())
}

/// The document of a commit that changes the one before.
pub(crate) fn changed_document<O: Objects>(
    alloc: Global,
    objects: &mut O,
    keyring: &Keyring,
    parent: Oid,
    before: &Doc,
    commit: Oid,
) -> Result<Doc, IdFault>
    ensures told { ForSome (O.content objects.old)
        (λ m. IfOk result (HasDocument m keyring.now commit)) }
    ensures text { IfOk result (IsSomeText keyring.now) }
    ensures approved { ForSome (O.content objects.old)
        (λ m. OnOk result (IsApproved m keyring.now parent before.now commit)) }
    ensures refused { ForSome (O.content objects.old)
        (λ m. IfErr result (FailsChange m keyring.now parent before.now commit)) }
    ensures keeps { KeepsObjects O.content O.beside O.places O.faults id_fault_in
        objects.old objects.new result }
{
    let Some(blob) = embedded(objects, &commit, b"radicle.json")? else {
        return Err(IdFault::NoDocument(commit));
    };
    let doc = document_in(alloc, objects, keyring, commit, &blob)?;
    approve(alloc, objects, keyring, parent, before, commit, &blob)?;
    Ok(doc)
}
