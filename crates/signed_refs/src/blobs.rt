// The blobs of a commit, and the refs and the signature that they are.
ghost use Rattle.std.specs.Prelude.{◌≡◌, ℕ, List, IfErr, IfNone, IfOk, IfSome};
ghost use Rattle.std.specs.Prelude.{Some};
ghost use Rattle.std.specs.Option.{ForSome};
ghost use Rattle.rad_base.specs.Sizes.{IsSig};
ghost use Rattle.rad_base.specs.declared.names.Sig.{Sig};
ghost use Rattle.git_object.specs.declared.kind.Kind.TheVariants as kinds;
ghost use Rattle.commit_graph.specs.Faults.{KeepsObjects};
ghost use Rattle.commit_graph.specs.Objects.{shown};
ghost use Rattle.signed_refs.specs.Lines.{AreRefs};
ghost use Rattle.signed_refs.specs.Said.{SaysRefs, SpellsIf};
ghost use Rattle.signed_refs.specs.SignedParts.{FindsSignature};

use crate::{Refs, RefsFault, read_refs};
use commit_graph::{GetFault, Objects};
use git_object::Kind;
use rad_base::{Oid, Sig, sig_front};
use std::alloc::Global;
use tree_entry::commit_entry;

/// The content of a blob that was got.
pub(crate) fn blob_in(found: Option<(Kind, &[u8])>) -> Option<&[u8]>
    ensures found { IfSome result (λ bytes. shown found.entry ≡ Some (kinds.Blob, bytes.now)) }
    ensures none { IfNone result ((bytes : List ℕ)
        → shown found.entry ≡ Some (kinds.Blob, bytes) → ⊥) }
{
    match found {
        Some((Kind::Blob, bytes)) => Some(bytes),
        _ => None,
    }
}

// The signature that some bytes are.
fn signature_in(bytes: &[u8]) -> Option<Sig>
    ensures found { IfSome result (λ sig. IsSig sig × (bytes.now ≡ sig.0)) }
    ensures none { IfNone result ((sig : Sig) → IsSig sig → bytes.now ≡ sig.0 → ⊥) }
{
    let (sig, rest) = sig_front(bytes)?;
    if rest.is_empty() { Some(sig) } else { None }
}

/// The signature that the commit has as a blob.
pub(crate) fn signature<O: Objects>(objects: &mut O, commit: &Oid) -> Result<Option<Sig>, GetFault>
    ensures told { ForSome (O.content objects.old)
        (λ m. IfOk result (FindsSignature m commit.now)) }
    ensures keeps { KeepsObjects O.content O.beside O.places O.faults Some objects.old objects.new
        result }
{
    let Some(oid) = commit_entry(objects, commit, Kind::Blob, b"signature")? else {
        return Ok(None);
    };
    match objects.get(&oid) {
        Err(fault) => Err(fault),
        Ok(found) => match blob_in(found) {
            Some(bytes) => Ok(signature_in(bytes)),
            None => Ok(None),
        },
    }
}

/// The refs that some bytes spell. None where they spell none.
pub(crate) fn refs_in(alloc: Global, bytes: &[u8]) -> Result<Option<Refs>, GetFault>
    ensures read { IfOk result (SpellsIf bytes.now) }
    ensures formed { IfOk result (λ found. IfSome found AreRefs) }
    ensures refused { IfErr result (λ why. why ≡ GetFault.NoMemory) }
{
    match read_refs(alloc, bytes) {
        Ok(refs) => Ok(Some(refs)),
        Err(RefsFault::NoMemory) => Err(GetFault::NoMemory),
        Err(RefsFault::BadLine(_)) => Ok(None),
        Err(RefsFault::TooMany) => Ok(None),
    }
}

/// The refs that a commit says, whoever signed them: those that the blob `refs` of its tree spells,
/// as `read_refs` reads it. None where one on the way is not there, of another kind or not in its
/// grammar. `GetFault` as `Objects::get` answers it, or where memory is refused.
pub fn refs_said<O: Objects>(
    alloc: Global,
    objects: &mut O,
    commit: &Oid,
) -> Result<Option<Refs>, GetFault>
    ensures told { ForSome (O.content objects.old) (λ m. IfOk result (SaysRefs m commit.now)) }
    ensures formed { IfOk result (λ found. IfSome found AreRefs) }
    ensures keeps { KeepsObjects O.content O.beside O.places O.faults Some objects.old objects.new
        result }
{
    let Some(oid) = commit_entry(objects, commit, Kind::Blob, b"refs")? else {
        return Ok(None);
    };
    match objects.get(&oid) {
        Err(fault) => Err(fault),
        Ok(found) => match blob_in(found) {
            Some(bytes) => refs_in(alloc, bytes),
            None => Ok(None),
        },
    }
}
