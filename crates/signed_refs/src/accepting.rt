// The refs of a commit that the keyring accepts as a node's.
ghost use Rattle.std.specs.Prelude.{IfErr, IfOk, IsTrue, OnOk};
ghost use Rattle.std.specs.Option.{ForSome};
ghost use Rattle.commit_graph.specs.Faults.{KeepsObjects};
ghost use Rattle.keyring.specs.Contents.{accepts};
ghost use Rattle.signed_refs.specs.Lines.{AreRefs, SpellsRefs};
ghost use Rattle.signed_refs.specs.SignedParts.{IsAcceptedAs, sigrefs_fault_in};
ghost use Rattle.signed_refs.specs.SignedParts.{RefusesCommit, RefusesText};

use crate::Refs;
use crate::blobs::{blob_in, refs_in, signature};
use crate::fault::SigFault;
use commit_graph::{GetFault, Objects};
use git_object::Kind;
use keyring::Keyring;
use rad_base::{Nid, Oid, Sig};
use std::alloc::Global;
use tree_entry::commit_entry;

/// Why a commit has no refs that the keyring accepts as a node's.
#[derive(Clone, Copy, Debug, PartialEq, Eq)]
pub enum SigrefsFault {
    /// The blobs are not those of signed refs.
    Bad,
    /// The keyring does not accept the node's signature over the bytes of the refs.
    NotAccepted,
    /// An object could not be had, or memory was refused.
    Get(GetFault),
}

impl From<GetFault> for SigrefsFault {
    ghost use Rattle.std.specs.Prelude.{◌≡◌};
    ghost use Rattle.signed_refs.specs.declared.accepting.SigrefsFault.{SigrefsFault};
    ghost use Rattle.signed_refs.specs.declared.accepting.SigrefsFault.TheVariants.{Get};

    ghost from_gives = { λ fault why. why ≡ Get fault };

    fn from(fault: GetFault) -> Self {
        SigrefsFault::Get(fault)
    }
}

impl From<SigrefsFault> for SigFault {
    ghost use Rattle.std.specs.Prelude.{◌≡◌};
    ghost use Rattle.signed_refs.specs.declared.fault.SigFault.{SigFault};
    ghost use Rattle.signed_refs.specs.SignedParts.{sig_fault};

    ghost from_gives = { λ fault why. why ≡ sig_fault fault };

    fn from(fault: SigrefsFault) -> Self {
        match fault {
            SigrefsFault::Bad => SigFault::BadSigrefs,
            SigrefsFault::NotAccepted => SigFault::NotAccepted,
            SigrefsFault::Get(why) => SigFault::Get(why),
        }
    }
}

// The refs that some bytes spell, where the keyring accepts the signature over these bytes.
fn accepted_text(
    alloc: Global,
    keyring: &Keyring,
    node: &Nid,
    sig: &Sig,
    bytes: &[u8],
) -> Result<Refs, SigrefsFault>
    ensures read { IfOk result (λ refs. SpellsRefs refs bytes.now) }
    ensures formed { IfOk result AreRefs }
    ensures accepted { OnOk result (IsTrue (accepts keyring.now node.now bytes.now sig.now)) }
    ensures refused { IfErr result (RefusesText keyring.now node.now sig.now bytes.now) }
{
    let Some(refs) = refs_in(alloc, bytes)? else {
        return Err(SigrefsFault::Bad);
    };
    if keyring.verdict(node, bytes, sig) {
        Ok(refs)
    } else {
        Err(SigrefsFault::NotAccepted)
    }
}

/// The refs that the commit has as a blob, where the keyring accepts its signature over them.
pub(crate) fn accepted_refs<O: Objects>(
    alloc: Global,
    objects: &mut O,
    keyring: &Keyring,
    node: &Nid,
    commit: &Oid,
) -> Result<Refs, SigrefsFault>
    ensures told { ForSome (O.content objects.old)
        (λ m. IfOk result (IsAcceptedAs m keyring.now node.now commit.now)) }
    ensures formed { IfOk result AreRefs }
    ensures refused { ForSome (O.content objects.old)
        (λ m. IfErr result (RefusesCommit m keyring.now node.now commit.now)) }
    ensures keeps { KeepsObjects O.content O.beside O.places O.faults sigrefs_fault_in
        objects.old objects.new result }
{
    let Some(sig) = signature(objects, commit)? else {
        return Err(SigrefsFault::Bad);
    };
    let Some(oid) = commit_entry(objects, commit, Kind::Blob, b"refs")? else {
        return Err(SigrefsFault::Bad);
    };
    match objects.get(&oid) {
        Err(fault) => Err(SigrefsFault::Get(fault)),
        Ok(found) => match blob_in(found) {
            Some(bytes) => accepted_text(alloc, keyring, node, &sig, bytes),
            None => Err(SigrefsFault::Bad),
        },
    }
}
