// Chains of numbered commits.
ghost use Rattle.std.specs.Prelude.{◌≡◌, ◌≤◌, ◌<◌, ◌+◌, ◌++◌, IfOk, OnOk, length};
ghost use Rattle.rad_vectors.specs.Chains.{chain_commits, chain_objects, number_blob, number_commit, number_objects, number_tree_of, tip_of};
ghost use Rattle.rad_vectors.specs.Objects.{object_name};
ghost use Rattle.rad_vectors.specs.Shown.{all_shown, shown};

use crate::commit::commit_of;
use crate::object::NamedObject;
use crate::pushing::{push_entry, push_number};
use git_object::{Kind, Mode};
use rad_base::{NoMemory, Oid};
use std::alloc::Global;

// The file of a number.
fn blob_of(alloc: Global, number: u32) -> Result<NamedObject, NoMemory>
    ensures { IfOk result (λ made. shown made ≡ number_blob number) }
{
    let mut content = Vec::new(alloc);
    push_number(&mut content, number)?;
    content.push(b'\n')?;
    Ok(NamedObject::of(Kind::Blob, content))
}

// The tree of a number, whose file is this one.
fn tree_of(
    alloc: Global,
    file: &NamedObject,
    submodule: Option<Oid>,
) -> Result<NamedObject, NoMemory>
    ensures { IfOk result (λ made. shown made ≡ number_tree_of (shown file.now) submodule) }
{
    let mut content = Vec::new(alloc);
    push_entry(&mut content, Mode::File, b"n", &file.oid)?;
    if let Some(oid) = submodule {
        push_entry(&mut content, Mode::Gitlink, b"sub", &oid)?;
    }
    Ok(NamedObject::of(Kind::Tree, content))
}

/// Adds the three objects of a number, with a submodule in its tree and a commit before it if they
/// are there, and answers the name of its commit.
pub(crate) fn push_commit(
    alloc: Global,
    objects: &mut Vec<NamedObject>,
    number: u32,
    submodule: Option<Oid>,
    before: Option<Oid>,
) -> Result<Oid, NoMemory>
    ensures objects { OnOk result (all_shown objects.new.items
        ≡ all_shown objects.old.items ++ number_objects number submodule before) }
    ensures name { IfOk result (λ oid. oid ≡ object_name (number_commit number submodule before)) }
{
    let blob = blob_of(alloc, number)?;
    let tree = tree_of(alloc, &blob, submodule)?;
    let mut word = Vec::new(alloc);
    push_number(&mut word, number)?;
    let commit = commit_of(alloc, &tree, before, &word)?;
    let oid = commit.oid;
    objects.push(blob)?;
    objects.push(tree)?;
    objects.push(commit)?;
    Ok(oid)
}

/// A chain of commits.
#[derive(Debug, Drop)]
pub(crate) struct Chain {
    /// Its objects, three for each commit.
    pub(crate) objects: Vec<NamedObject>,
    /// The names of its commits, from the first.
    pub(crate) commits: Vec<Oid>,
    /// That of the last, if there is one.
    pub(crate) last: Option<Oid>,
}

/// The chain of so many commits, numbered from 1.
#[tactic(auto, unfolding(crate::specs::Chains::chain_objects, crate::specs::Chains::chain_commits, crate::specs::Chains::tip_of))]
pub(crate) fn chain_of(alloc: Global, length: u32) -> Result<Chain, NoMemory>
    ensures objects { IfOk result (λ chain. all_shown chain.objects.items ≡ chain_objects length) }
    ensures commits { IfOk result (λ chain. chain.commits.items ≡ chain_commits length) }
    ensures last { IfOk result (λ chain. chain.last ≡ tip_of length) }
{
    let mut objects = Vec::new(alloc);
    let mut commits = Vec::new(alloc);
    let mut before = None;
    'numbers: for k in 0..length {
        let oid = push_commit(alloc, &mut objects, k + 1, None, before)?;
        commits.push(oid)?;
        before = Some(oid);
    }
    Ok(Chain {
        objects,
        commits,
        last: before,
    })
}
