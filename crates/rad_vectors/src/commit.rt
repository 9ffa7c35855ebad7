// Commits with the same two people.
ghost use Rattle.std.specs.Prelude.{◌≡◌, ◌≤◌, IfOk, length, codes};
ghost use Rattle.std.specs.Option.{option_to_list};
ghost use Rattle.git_object.specs.Grammar.{SpellsCommit};
ghost use Rattle.rad_base.specs.Lists.{BeginsWith};
ghost use Rattle.rad_vectors.specs.Objects.{commit};
ghost use Rattle.rad_vectors.specs.Shown.{shown};

use crate::object::NamedObject;
use git_object::{Kind, write_commit};
use rad_base::{NoMemory, Oid};
use std::alloc::Global;

const PEOPLE: &[u8] = b"author a <a@b> 0 +0000\ncommitter a <a@b> 0 +0000\n\n";

// The bytes of a commit behind another one, if there is one.
fn commit_bytes(
    alloc: Global,
    tree: &Oid,
    before: Option<Oid>,
    rest: &[u8],
) -> Result<Vec<u8>, NoMemory>
    requires { BeginsWith (codes "author ") rest.now }
    ensures { IfOk result (λ bytes. SpellsCommit (record {
      tree = tree.now;
      parents = option_to_list before;
      rest = rest.now;
    }) bytes.items) }
{
    match before {
        None => write_commit(alloc, tree, &[], rest),
        Some(parent) => write_commit(alloc, tree, &[parent], rest),
    }
}

/// The commit of a tree, behind another commit if there is one. Its message is a word of at most
/// 128 bytes and a line feed.
pub(crate) fn commit_of(
    alloc: Global,
    tree: &NamedObject,
    before: Option<Oid>,
    word: &[u8],
) -> Result<NamedObject, NoMemory>
    requires { length word.now ≤ 128 }
    ensures { IfOk result (λ made. shown made
        ≡ commit (shown tree.now) (option_to_list before) word.now) }
{
    let mut rest = PEOPLE.to_vec(alloc)?;
    rest.extend_from_slice(word)?;
    rest.push(b'\n')?;
    let content = commit_bytes(alloc, &tree.oid, before, &rest)?;
    Ok(NamedObject::of(Kind::Commit, content))
}
