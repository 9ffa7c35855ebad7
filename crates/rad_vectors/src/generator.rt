// The repository of a number of commits.
ghost use Rattle.std.specs.Prelude.{◌≡◌, ◌≤◌, ◌++◌, IfOk, OnOk, length, Some};
ghost use Rattle.rad_vectors.specs.Generated.{IsMade, generated, master_line};
ghost use Rattle.rad_vectors.specs.Repositories.{ref_line};

use crate::bundle::write_bundle;
use crate::chain::{chain_of, push_commit};
use crate::delegate::Delegate;
use crate::keyring_lines::push_accepts;
use crate::made::Made;
use crate::pushing::push_ref;
use rad_base::{Bytes, Nid, NoMemory};
use std::alloc::Global;

const DOCUMENT: &[u8] =
    b"{\"delegates\":[\"did:key:fed010101010101010101010101010101010101010101010101010101010101010101\"],\"payload\":{\"xyz.radicle.project\":{\"defaultBranch\":\"master\",\"description\":\"\",\"name\":\"gen\"}},\"threshold\":1}";

/// The bundle and the keyring of a repository of so many commits, from 1 to 100,000, in one line:
/// the k-th has one file, with k in decimal. Its one delegate has 32 bytes 01 as its key, and the
/// branch `master` at the last commit. `NoMemory`: memory was refused.
pub fn bundle_of(alloc: Global, commits: u32) -> Result<Made, NoMemory>
    requires some { 1 ≤ commits }
    requires few { commits ≤ 100000 }
    ensures { IfOk result (IsMade (generated commits)) }
{
    let chain = chain_of(alloc, commits - 1)?;
    let mut objects = chain.objects;
    let tip = push_commit(alloc, &mut objects, commits, None, chain.last)?;
    let mut refs = Vec::new(alloc);
    push_ref(&mut refs, alloc, &tip, b"refs/heads/master")?;
    let delegates = [Delegate {
        key: Nid([1; 32]),
        refs,
    }];
    let bundle = write_bundle(alloc, DOCUMENT, &delegates, objects)?;
    let mut keyring = Vec::new(alloc);
    push_accepts(&mut keyring, alloc, &delegates)?;
    Ok(Made {
        keyring: Bytes::of(keyring),
        bundle: Bytes::of(bundle),
    })
}
