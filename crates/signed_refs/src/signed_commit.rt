// What a node's signed commit says of its refs.
ghost use Rattle.std.specs.Prelude.{◌↔◌, IfErr, IfOk, IsTrue, OnOk, Some};
ghost use Rattle.std.specs.Option.{ForSome};
ghost use Rattle.commit_graph.specs.Closures.{IsClosedCommit};
ghost use Rattle.commit_graph.specs.Faults.{KeepsObjects};
ghost use Rattle.signed_refs.specs.Lines.{AreRefs};
ghost use Rattle.signed_refs.specs.Refusals.{Refuses, sig_fault_in};
ghost use Rattle.signed_refs.specs.Signed.{KeepsRoot, Signed};
ghost use Rattle.signed_refs.specs.SignedParts.{RefusesAlways};

use crate::accepting::accepted_refs;
use crate::{Refs, SigFault};
use commit_graph::answer::Closure;
use commit_graph::{GetFault, Objects, Root, closure};
use git_object::Kind;
use keyring::Keyring;
use rad_base::{Nid, Oid, Rid};
use std::alloc::Global;
use tree_entry::is_identity_root;

// Looks whether the commit and all that it reaches is there and well formed.
fn check_closed<O: Objects>(alloc: Global, objects: &mut O, commit: &Oid) -> Result<(), SigFault>
    ensures told { ForSome (O.content objects.old)
        (λ m. OnOk result (IsClosedCommit m commit.now)) }
    ensures refused { ForSome (O.content objects.old)
        (λ m. IfErr result (RefusesAlways m commit.now)) }
    ensures keeps { KeepsObjects O.content O.beside O.places O.faults sig_fault_in
        objects.old objects.new result }
{
    let root = Root {
        oid: *commit,
        kind: Some(Kind::Commit),
    };
    match closure(alloc, objects, &[root])? {
        Closure::Closed => Ok(()),
        Closure::Missing(oid) => Err(SigFault::Missing(oid)),
        Closure::BadObject(oid) => Err(SigFault::BadObject(oid)),
    }
}

// Whether the line of the identity root, where there is one, names one of the repository.
fn keeps_root<O: Objects>(objects: &mut O, rid: &Rid, refs: &Refs) -> Result<bool, GetFault>
    ensures told { ForSome (O.content objects.old)
        (λ m. IfOk result (λ keeps. IsTrue keeps ↔ KeepsRoot m rid.now refs.now)) }
    ensures keeps { KeepsObjects O.content O.beside O.places O.faults Some objects.old objects.new
        result }
{
    let Some(oid) = refs.get(b"refs/rad/root") else {
        return Ok(true);
    };
    let keeps = is_identity_root(objects, rid, &oid)?;
    Ok(keeps)
}

/// The refs that a node's commit says, as `signed` has them, of a commit that is closed: what was
/// found closed once is not walked again for each node.
///
/// It is refused by the first that fails, in this order: `BadSigrefs`, `NotAccepted`, `Grafted`.
/// `Get` where an object could not be had, or memory was refused.
pub fn signed_closed<O: Objects>(
    alloc: Global,
    objects: &mut O,
    keyring: &Keyring,
    rid: &Rid,
    node: &Nid,
    commit: &Oid,
) -> Result<Refs, SigFault>
    requires { ForSome (O.content objects.old) (λ m. IsClosedCommit m commit.now) }
    ensures told { ForSome (O.content objects.old)
        (λ m. IfOk result (Signed m keyring.now rid.now node.now commit.now)) }
    ensures formed { IfOk result AreRefs }
    ensures refused { ForSome (O.content objects.old)
        (λ m. IfErr result (Refuses m keyring.now rid.now node.now commit.now)) }
    ensures keeps { KeepsObjects O.content O.beside O.places O.faults sig_fault_in
        objects.old objects.new result }
{
    let refs = accepted_refs(alloc, objects, keyring, node, commit)?;
    let keeps = keeps_root(objects, rid, &refs)?;
    if !keeps {
        return Err(SigFault::Grafted);
    }
    Ok(refs)
}

/// The refs that a node's commit says. The tree of the commit has the blobs `refs`, as `read_refs`
/// reads it, and `signature`, of 64 bytes: after the Radicle Heartwood protocol, in this project's
/// own form. The keyring accepts the node's signature over the bytes of the refs. A ref
/// `refs/rad/root`, where there is one, names an identity root of the repository. Other entries of
/// the tree are unread; the commit may have any number of parents, and they need not be signed.
///
/// It is refused by the first that fails, in this order: `Missing` and `BadObject` where the commit
/// is not closed, as `closure` says; `BadSigrefs` where the blobs are not as they should be;
/// `NotAccepted` where the keyring does not accept the signature; `Grafted` where the root is no
/// identity root of the repository. `Get` where an object could not be had, or memory was refused.
pub fn signed<O: Objects>(
    alloc: Global,
    objects: &mut O,
    keyring: &Keyring,
    rid: &Rid,
    node: &Nid,
    commit: &Oid,
) -> Result<Refs, SigFault>
    ensures told { ForSome (O.content objects.old)
        (λ m. IfOk result (Signed m keyring.now rid.now node.now commit.now)) }
    ensures formed { IfOk result AreRefs }
    ensures refused { ForSome (O.content objects.old)
        (λ m. IfErr result (Refuses m keyring.now rid.now node.now commit.now)) }
    ensures keeps { KeepsObjects O.content O.beside O.places O.faults sig_fault_in
        objects.old objects.new result }
{
    check_closed(alloc, objects, commit)?;
    let refs = signed_closed(alloc, objects, keyring, rid, node, commit)?;
    Ok(refs)
}
