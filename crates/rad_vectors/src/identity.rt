// The objects of an identity.
ghost use Rattle.std.specs.Prelude.{◌≡◌, ◌≤◌, ◌∷◌, [], IfOk, length};
ghost use Rattle.rad_vectors.specs.Objects.{blob, entry, object_name, tree};
ghost use Rattle.rad_vectors.specs.Repositories.{identity_commit, identity_objects};
ghost use Rattle.rad_vectors.specs.Shown.{all_shown, shown};

use crate::commit::commit_of;
use crate::object::NamedObject;
use crate::pushing::push_entry;
use git_object::{Kind, Mode};
use rad_base::{NoMemory, Oid};
use std::alloc::Global;

/// An identity of one commit.
#[derive(Debug, Drop)]
pub(crate) struct Identity {
    /// The document, two trees and the commit.
    pub(crate) objects: Vec<NamedObject>,
    /// The name of the document, which is the repository's.
    pub(crate) document: Oid,
    /// The name of the commit.
    pub(crate) commit: Oid,
}

// The tree with one entry.
fn tree_with(alloc: Global, mode: Mode, word: &[u8], oid: &Oid) -> Result<NamedObject, NoMemory>
    requires { length word.now ≤ 128 }
    ensures { IfOk result (λ made. shown made ≡ tree (entry mode word.now oid.now ∷ [])) }
{
    let mut content = Vec::new(alloc);
    push_entry(&mut content, mode, word, oid)?;
    Ok(NamedObject::of(Kind::Tree, content))
}

/// The identity with this document, of at most 32 MiB.
pub(crate) fn identity_of(alloc: Global, document: &[u8]) -> Result<Identity, NoMemory>
    requires { length document.now ≤ 33554432 }
    ensures objects { IfOk result (λ identity. all_shown identity.objects.items
        ≡ identity_objects document.now) }
    ensures document { IfOk result (λ identity. identity.document
        ≡ object_name (blob document.now)) }
    ensures commit { IfOk result (λ identity. identity.commit
        ≡ object_name (identity_commit document.now)) }
{
    let blob = NamedObject::of(Kind::Blob, document.to_vec(alloc)?);
    let embeds = tree_with(alloc, Mode::File, b"radicle.json", &blob.oid)?;
    let tree = tree_with(alloc, Mode::Directory, b"embeds", &embeds.oid)?;
    let made = commit_of(alloc, &tree, None, b"id")?;
    let document = blob.oid;
    let commit = made.oid;
    let mut objects = Vec::new(alloc);
    objects.push(blob)?;
    objects.push(embeds)?;
    objects.push(tree)?;
    objects.push(made)?;
    Ok(Identity {
        objects,
        document,
        commit,
    })
}
