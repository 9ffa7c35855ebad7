// The objects of signed refs.
ghost use Rattle.std.specs.Prelude.{◌≡◌, ◌≤◌, ◌++◌, IfOk, OnOk, length, map};
ghost use Rattle.std.specs.List.{flat_map};
ghost use Rattle.rad_base.specs.Order.{IsRising};
ghost use Rattle.rad_vectors.specs.Objects.{object_name};
ghost use Rattle.rad_vectors.specs.Repositories.{remotes_of, signature_of, signed_commit, signed_objects, signed_tree_of};
ghost use Rattle.rad_vectors.specs.Shown.{all_shown, shown};
ghost use Rattle.rad_vectors.specs.Signers.{signer_of};

use crate::commit::commit_of;
use crate::delegate::Delegate;
use crate::object::NamedObject;
use crate::pushing::push_entry;
use git_object::{Kind, Mode};
use rad_base::{Nid, NoMemory, Oid, Remotes};
use std::alloc::Global;

/// The signature of a key in these repositories: its 32 bytes, twice.
pub(crate) fn signature(alloc: Global, key: &Nid) -> Result<Vec<u8>, NoMemory>
    ensures text { IfOk result (λ bytes. bytes.items ≡ signature_of key.now) }
    ensures size { IfOk result (λ bytes. length bytes.items ≤ 64) }
{
    let mut bytes = key.0.to_vec(alloc)?;
    bytes.extend_from_slice(&key.0)?;
    Ok(bytes)
}

// The tree of signed refs.
fn tree_of(alloc: Global, refs: &Oid, signature: &Oid) -> Result<NamedObject, NoMemory>
    ensures { IfOk result (λ made. shown made ≡ signed_tree_of refs.now signature.now) }
{
    let mut content = Vec::new(alloc);
    push_entry(&mut content, Mode::File, b"refs", refs)?;
    push_entry(&mut content, Mode::File, b"signature", signature)?;
    Ok(NamedObject::of(Kind::Tree, content))
}

// Adds the objects of a delegate's signed refs, and answers the name of their commit.
fn push_signed(
    alloc: Global,
    objects: &mut Vec<NamedObject>,
    delegate: &Delegate,
) -> Result<Oid, NoMemory>
    ensures objects { OnOk result (all_shown objects.new.items
        ≡ all_shown objects.old.items ++ signed_objects (signer_of delegate.now)) }
    ensures name { IfOk result (λ oid. oid
        ≡ object_name (signed_commit (signer_of delegate.now))) }
{
    let refs = NamedObject::of(Kind::Blob, delegate.refs.as_slice().to_vec(alloc)?);
    let signature = NamedObject::of(Kind::Blob, signature(alloc, &delegate.key)?);
    let tree = tree_of(alloc, &refs.oid, &signature.oid)?;
    let commit = commit_of(alloc, &tree, None, b"sigrefs")?;
    let oid = commit.oid;
    objects.push(refs)?;
    objects.push(signature)?;
    objects.push(tree)?;
    objects.push(commit)?;
    Ok(oid)
}

/// The signed refs of some delegates.
#[derive(Debug, Drop)]
pub(crate) struct SignedRefs {
    /// Four objects for each.
    pub(crate) objects: Vec<NamedObject>,
    /// Their keys, with the names of their commits.
    pub(crate) remotes: Remotes,
}

/// The signed refs of these delegates, whose keys rise.
pub(crate) fn signed_refs(alloc: Global, delegates: &[Delegate]) -> Result<SignedRefs, NoMemory>
    requires { IsRising (remotes_of (map signer_of delegates.now)) }
    ensures objects { IfOk result (λ signed. all_shown signed.objects.items
        ≡ flat_map signed_objects (map signer_of delegates.now)) }
    ensures remotes { IfOk result (λ signed. signed.remotes
        ≡ remotes_of (map signer_of delegates.now)) }
{
    let mut objects = Vec::new(alloc);
    let mut remotes = Vec::new(alloc);
    'delegates: for delegate in delegates {
        let oid = push_signed(alloc, &mut objects, delegate)?;
        remotes.push((delegate.key, oid))?;
    }
    Ok(SignedRefs {
        objects,
        remotes: Remotes::of(remotes),
    })
}
