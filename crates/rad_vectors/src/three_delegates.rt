// The repository of three delegates.
ghost use Rattle.std.specs.Prelude.{◌≡◌, ◌≤◌, ◌+◌, ◌++◌, IfOk, OnOk, length, map, take};
ghost use Rattle.rad_vectors.specs.Chains.{chain_commits, tip_of};
ghost use Rattle.rad_vectors.specs.Fixture.{branch_lines, branch_name, first_lines, fixture_history, fixture_names, fixture_of, fixture_tag, last_commit, next_to_last, tag_on};
ghost use Rattle.rad_vectors.specs.Generated.{IsMade, master_line};
ghost use Rattle.rad_vectors.specs.Objects.{object_name};
ghost use Rattle.rad_vectors.specs.Repositories.{keyring_text};
ghost use Rattle.rad_vectors.specs.Shown.{all_shown, shown};
ghost use Rattle.rad_vectors.specs.Signers.{signer_of};

use crate::bundle::write_bundle;
use crate::chain::{chain_of, push_commit};
use crate::delegate::Delegate;
use crate::identity::identity_of;
use crate::keyring_lines::{push_accepts, push_name};
use crate::made::Made;
use crate::object::NamedObject;
use crate::pushing::push_ref;
use git_object::{Kind, write_tag};
use rad_base::{Bytes, Nid, NoMemory, Oid};
use std::alloc::Global;

const DOCUMENT: &[u8] =
    b"{\"delegates\":[\"did:key:z6MkOne\",\"did:key:z6MkTwo\",\"did:key:z6MkThree\"],\"payload\":{\"xyz.radicle.project\":{\"defaultBranch\":\"master\",\"description\":\"\",\"name\":\"heart\"}},\"threshold\":2}";

// The tag of a commit.
fn tag_of(alloc: Global, commit: &Oid) -> Result<NamedObject, NoMemory>
    ensures { IfOk result (λ made. shown made ≡ tag_on commit.now) }
{
    let rest = b"tag v1\ntagger a <a@b> 0 +0000\n\nv1\n";
    let content = write_tag(alloc, commit, Kind::Commit, rest)?;
    Ok(NamedObject::of(Kind::Tag, content))
}

// The commits and the tag.
#[derive(Debug, Drop)]
struct History {
    objects: Vec<NamedObject>,
    // The names of all commits but the last two, then of the last three and of the tag.
    commits: Vec<Oid>,
    third: Option<Oid>,
    second: Oid,
    last: Oid,
    tag: Oid,
}

// The history of so many commits and two more, of which the last has a submodule and the tag.
fn history_of(alloc: Global, commits: u32) -> Result<History, NoMemory>
    requires { commits ≤ 100000 }
    ensures objects { IfOk result (λ history. all_shown history.objects.items
        ≡ fixture_history commits) }
    ensures commits { IfOk result (λ history. history.commits.items ≡ chain_commits commits) }
    ensures third { IfOk result (λ history. history.third ≡ tip_of commits) }
    ensures second { IfOk result (λ history. history.second
        ≡ object_name (next_to_last commits)) }
    ensures last { IfOk result (λ history. history.last ≡ object_name (last_commit commits)) }
    ensures tag { IfOk result (λ history. history.tag ≡ object_name (fixture_tag commits)) }
{
    let chain = chain_of(alloc, commits)?;
    let mut objects = chain.objects;
    let second = push_commit(alloc, &mut objects, commits + 1, None, chain.last)?;
    let submodule = Some(Oid([0x77; 20]));
    let last = push_commit(alloc, &mut objects, commits + 2, submodule, Some(second))?;
    let made = tag_of(alloc, &last)?;
    let tag = made.oid;
    objects.push(made)?;
    Ok(History {
        objects,
        commits: chain.commits,
        third: chain.last,
        second,
        last,
        tag,
    })
}

// The branch of a number.
fn branch_of(alloc: Global, number: u8) -> Result<Vec<u8>, NoMemory>
    requires { number ≤ 99 }
    ensures text { IfOk result (λ name. name.items ≡ branch_name number) }
    ensures size { IfOk result (λ name. length name.items ≤ 14) }
{
    let mut name = b"refs/heads/b".to_vec(alloc)?;
    name.push(48 + number / 10)?;
    name.push(48 + number % 10)?;
    Ok(name)
}

// Writes a branch for each commit behind what is there.
fn push_branches(bytes: &mut Vec<u8>, alloc: Global, commits: &[Oid]) -> Result<(), NoMemory>
    requires { length commits.now ≤ 99 }
    ensures text { OnOk result (bytes.new.items
        ≡ bytes.old.items ++ branch_lines 0 commits.now) }
    ensures size { OnOk result (length bytes.new.items
        ≤ length bytes.old.items + 5544) }
{
    let mut number: u8 = 0;
    'branches: for commit in commits {
        let name = branch_of(alloc, number)?;
        push_ref(bytes, alloc, commit, &name)?;
        number += 1;
    }
    Ok(())
}

// The refs of the first delegate.
fn first_refs(alloc: Global, history: &History, identity: &Oid) -> Result<Vec<u8>, NoMemory>
    requires { 17 ≤ length history.now.commits.items }
    ensures text { IfOk result (λ refs. refs.items ≡ first_lines
        (take 17 history.now.commits.items) history.now.last identity.now history.now.tag) }
    ensures size { IfOk result (λ refs. length refs.items ≤ 33554432) }
{
    let mut refs = Vec::new(alloc);
    push_branches(&mut refs, alloc, &history.commits[..17])?;
    push_ref(&mut refs, alloc, &history.last, b"refs/heads/master")?;
    push_ref(&mut refs, alloc, identity, b"refs/rad/root")?;
    push_ref(&mut refs, alloc, &history.tag, b"refs/tags/v1")?;
    Ok(refs)
}

// The refs of a delegate with the branch `master` alone.
fn master_refs(alloc: Global, tip: Option<Oid>) -> Result<Vec<u8>, NoMemory>
    ensures text { IfOk result (λ refs. refs.items ≡ master_line tip) }
    ensures size { IfOk result (λ refs. length refs.items ≤ 33554432) }
{
    let mut refs = Vec::new(alloc);
    if let Some(oid) = tip {
        push_ref(&mut refs, alloc, &oid, b"refs/heads/master")?;
    }
    Ok(refs)
}

// The keyring of these delegates.
fn keyring_of(alloc: Global, delegates: &[Delegate]) -> Result<Vec<u8>, NoMemory>
    ensures { IfOk result (λ keyring. keyring.items
        ≡ keyring_text fixture_names (map signer_of delegates.now)) }
{
    let mut keyring = Vec::new(alloc);
    push_name(&mut keyring, alloc, b"did:key:z6MkOne", &Nid([0x11; 32]))?;
    push_name(&mut keyring, alloc, b"did:key:z6MkTwo", &Nid([0x22; 32]))?;
    push_name(&mut keyring, alloc, b"did:key:z6MkThree", &Nid([0x33; 32]))?;
    push_accepts(&mut keyring, alloc, delegates)?;
    Ok(keyring)
}

// The repository of so many commits and two more.
fn made_of(alloc: Global, commits: u32) -> Result<Made, NoMemory>
    requires some { 17 ≤ commits }
    requires few { commits ≤ 100000 }
    ensures { IfOk result (IsMade (fixture_of commits)) }
{
    let history = history_of(alloc, commits)?;
    let mut identity = identity_of(alloc, DOCUMENT)?;
    let one = first_refs(alloc, &history, &identity.commit)?;
    let two = master_refs(alloc, Some(history.second))?;
    let three = master_refs(alloc, history.third)?;
    let delegates = [
        Delegate {
            key: Nid([0x11; 32]),
            refs: one,
        },
        Delegate {
            key: Nid([0x22; 32]),
            refs: two,
        },
        Delegate {
            key: Nid([0x33; 32]),
            refs: three,
        },
    ];
    let mut tips = history.objects;
    tips.append(&mut identity.objects)?;
    let bundle = write_bundle(alloc, DOCUMENT, &delegates, tips)?;
    let keyring = keyring_of(alloc, &delegates)?;
    Ok(Made {
        keyring: Bytes::of(keyring),
        bundle: Bytes::of(bundle),
    })
}

/// The bundle and the keyring of the repository of three delegates, whose keys are 32 bytes 11,
/// 22 and 33, and of whom two agree. It has 200 commits in one line; the branch `master` of the
/// first delegate is at the last, the second's one before, the third's two before. The last commit
/// has a submodule and a tag. `NoMemory`: memory was refused.
pub fn fixture(alloc: Global) -> Result<Made, NoMemory>
    ensures { IfOk result (IsMade (fixture_of 198)) }
{
    made_of(alloc, 198)
}
