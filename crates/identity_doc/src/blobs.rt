// Reading the blobs of an identity commit.
ghost use Rattle.std.specs.Prelude.{IfOk, IfErr};
ghost use Rattle.std.specs.Option.{ForSome};
ghost use Rattle.commit_graph.specs.Faults.{KeepsObjects};
ghost use Rattle.tree_entry.specs.Embedded as embedded;
ghost use Rattle.identity_doc.specs.IdentityChains.{HasDocumentIn, HasSignatures};
ghost use Rattle.identity_doc.specs.IdentityFaults.{id_fault_in};
ghost use Rattle.identity_doc.specs.IdentityReaders.{FailsDocument, FailsSignatures};
ghost use Rattle.identity_doc.specs.Signatures.{AreSignatureLines};
ghost use Rattle.identity_doc.specs.Texts.{IsSomeText};

use crate::doc::Doc;
use crate::id_fault::IdFault;
use crate::reading::{ReadFault, document_of};
use crate::signatures::{SignatureLine, SignaturesFault, read_signatures};
use commit_graph::{GetFault, Objects};
use git_object::Kind;
use keyring::Keyring;
use rad_base::Oid;
use std::alloc::Global;
use tree_entry::embedded;

/// The document that a commit has in a blob.
pub(crate) fn document_in<O: Objects>(
    alloc: Global,
    objects: &mut O,
    keyring: &Keyring,
    commit: Oid,
    blob: &Oid,
) -> Result<Doc, IdFault>
    requires { ForSome (O.content objects.old) (λ m. embedded.HasDocumentBlob m commit blob.now) }
    ensures told { ForSome (O.content objects.old)
        (λ m. IfOk result (HasDocumentIn m keyring.now commit blob.now)) }
    ensures text { IfOk result (IsSomeText keyring.now) }
    ensures refused { ForSome (O.content objects.old)
        (λ m. IfErr result (FailsDocument m keyring.now commit blob.now)) }
    ensures keeps { KeepsObjects O.content O.beside O.places O.faults id_fault_in
        objects.old objects.new result }
{
    match objects.get(blob)? {
        Some((Kind::Blob, bytes)) => match document_of(alloc, keyring, bytes) {
            Ok(doc) => Ok(doc),
            Err(ReadFault::NotJson) => Err(IdFault::NotJson(commit)),
            Err(ReadFault::Bad(fault)) => Err(IdFault::BadDocument(commit, fault)),
            Err(ReadFault::NoMemory) => Err(IdFault::Get(GetFault::NoMemory)),
        },
        _ => Err(IdFault::NoDocument(commit)),
    }
}

// The lines of a commit's signatures in a blob.
fn lines_in<O: Objects>(
    alloc: Global,
    objects: &mut O,
    commit: Oid,
    blob: &Oid,
) -> Result<Vec<SignatureLine>, IdFault>
    requires { ForSome (O.content objects.old) (λ m. embedded.HasSignaturesBlob m commit blob.now) }
    ensures lines { IfOk result (λ lines. AreSignatureLines lines.items) }
    ensures told { ForSome (O.content objects.old)
        (λ m. IfOk result (λ lines. HasSignatures m commit lines.items)) }
    ensures refused { ForSome (O.content objects.old)
        (λ m. IfErr result (FailsSignatures m commit)) }
    ensures keeps { KeepsObjects O.content O.beside O.places O.faults id_fault_in
        objects.old objects.new result }
{
    match objects.get(blob)? {
        Some((Kind::Blob, bytes)) => match read_signatures(alloc, bytes) {
            Ok(lines) => Ok(lines),
            Err(SignaturesFault::BadLine(line)) => Err(IdFault::BadSignatures(commit, line)),
            Err(SignaturesFault::NoMemory) => Err(IdFault::Get(GetFault::NoMemory)),
        },
        _ => Err(IdFault::BadSignatures(commit, 0)),
    }
}

/// The signatures of a commit.
pub(crate) fn signatures_at<O: Objects>(
    alloc: Global,
    objects: &mut O,
    commit: Oid,
) -> Result<Vec<SignatureLine>, IdFault>
    ensures lines { IfOk result (λ lines. AreSignatureLines lines.items) }
    ensures told { ForSome (O.content objects.old)
        (λ m. IfOk result (λ lines. HasSignatures m commit lines.items)) }
    ensures refused { ForSome (O.content objects.old)
        (λ m. IfErr result (FailsSignatures m commit)) }
    ensures keeps { KeepsObjects O.content O.beside O.places O.faults id_fault_in
        objects.old objects.new result }
{
    let Some(blob) = embedded(objects, &commit, b"signatures")? else {
        return Err(IdFault::BadSignatures(commit, 0));
    };
    let lines = lines_in(alloc, objects, commit, &blob)?;
    Ok(lines)
}
