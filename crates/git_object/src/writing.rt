// Writing trees, commits and tags.
ghost use Rattle.std.specs.Prelude.{◌≡◌, ◌≢◌, ◌↔◌, ◌++◌, codes, length, map};
ghost use Rattle.std.specs.Prelude.{IfErr, IfOk, IsTrue, OnOk};
ghost use Rattle.std.specs.List.{All};
ghost use Rattle.rad_base.specs.Sizes.{HasBytes, IsOid};
ghost use Rattle.git_object.specs.Faults.{IsTreeFault};
ghost use Rattle.rad_base.specs.Lists.{BeginsWith};
ghost use Rattle.git_object.specs.Grammar.{IsName, entry_text, oid_line};
ghost use Rattle.git_object.specs.Grammar.{SpellsCommit, SpellsTag, SpellsTree};
ghost use Rattle.git_object.specs.Views.{entry_named, tree_entry_of};

use crate::tree::is_in_order;
use crate::{Kind, NamedEntry, TreeEntry};
use rad_base::{NoMemory, Oid};
use std::alloc::{AllocError, Global};

/// Why a tree is not written.
#[derive(Clone, Copy, Debug, PartialEq, Eq)]
pub enum TreeFault {
    /// The first entry, counted from 0, whose name is empty or has `/` or NUL, or that is not above
    /// the one before it.
    BadEntry(usize),
    /// Memory was refused.
    NoMemory,
}

impl From<AllocError> for TreeFault {
    ghost use Rattle.git_object.specs.declared.writing.TreeFault.TheVariants as faults;

    ghost from_gives = { λ _ fault. fault ≡ faults.NoMemory };

    fn from(_: AllocError) -> Self {
        TreeFault::NoMemory
    }
}

// Whether no byte is NUL or `/`.
fn is_clean(name: &[u8]) -> bool
    ensures { IsTrue result ↔ All (λ byte. (byte ≢ 0) × (byte ≢ 47)) name.now }
{
    name.iter().all(|byte| *byte != 0 && *byte != b'/')
}

// Whether an entry may have this name.
fn is_name(name: &[u8]) -> bool
    ensures { IsTrue result ↔ IsName name.now }
{
    !name.is_empty() && is_clean(name)
}

// The bytes of a name, of which there are 20, as their type says.
fn raw(bytes: &[u8; 20]) -> &[u8]
    ensures bytes { result.now ≡ bytes.now }
    ensures whole { HasBytes 20 bytes.now }
{
    bytes.as_slice()
}

// Adds the text of an entry.
fn push_entry(bytes: &mut Vec<u8>, entry: &TreeEntry<'_>) -> Result<(), AllocError>
    ensures text { OnOk result (bytes.new.items
        ≡ bytes.old.items ++ entry_text (tree_entry_of entry.now)) }
    ensures size { OnOk result (length entry.now.oid.0 ≡ 20) }
{
    bytes.extend_from_slice(entry.mode.text())?;
    bytes.extend_from_slice(b" ")?;
    bytes.extend_from_slice(entry.name)?;
    bytes.extend_from_slice(&[0])?;
    bytes.extend_from_slice(raw(&entry.oid.0))?;
    Ok(())
}

/// The bytes of the tree with these entries, after Git's object format as `read_tree` reads it.
/// BadEntry exactly where one is refused: the first whose name is refused or that is out of order.
pub fn write_tree(alloc: Global, entries: &[NamedEntry]) -> Result<Vec<u8>, TreeFault>
    ensures tree { IfOk result (λ bytes. SpellsTree (map entry_named entries.now) bytes.items) }
    ensures fault { IfErr result (IsTreeFault (map entry_named entries.now)) }
{
    let mut bytes = Vec::new(alloc);
    let mut before = None;
    for (i, named) in entries.iter().enumerate() {
        let entry = named.as_entry();
        if !is_name(entry.name) {
            return Err(TreeFault::BadEntry(i));
        }
        if !is_in_order(&before, &entry) {
            return Err(TreeFault::BadEntry(i));
        }
        push_entry(&mut bytes, &entry)?;
        before = Some(entry);
    }
    Ok(bytes)
}

// Adds a line of a word and a name.
fn push_oid_line(bytes: &mut Vec<u8>, alloc: Global, word: &[u8], oid: &Oid) -> Result<(), NoMemory>
    ensures line { OnOk result (bytes.new.items ≡ bytes.old.items ++ oid_line word.now oid.now) }
    ensures oid { OnOk result (IsOid oid.now) }
{
    let digits = hex::encode(alloc, raw(&oid.0))?;
    bytes.extend_from_slice(word)?;
    bytes.extend_from_slice(digits.as_bytes())?;
    bytes.extend_from_slice(b"\n")?;
    Ok(())
}

/// The bytes of the commit with this tree, these parents in order, and this rest, which begins with
/// `author `, after Git's object format as `read_commit` reads it.
pub fn write_commit(
    alloc: Global,
    tree: &Oid,
    parents: &[Oid],
    rest: &[u8],
) -> Result<Vec<u8>, NoMemory>
    requires { BeginsWith (codes "author ") rest.now }
    ensures { IfOk result (λ bytes. SpellsCommit
        (record { tree = tree.now; parents = parents.now; rest = rest.now }) bytes.items) }
{
    let mut bytes = Vec::new(alloc);
    push_oid_line(&mut bytes, alloc, b"tree ", tree)?;
    for parent in parents {
        push_oid_line(&mut bytes, alloc, b"parent ", parent)?;
    }
    bytes.extend_from_slice(rest)?;
    Ok(bytes)
}

/// The bytes of the tag on this object, which is of this kind, with this rest, which begins with
/// `tag `, after Git's object format as `read_tag` reads it.
pub fn write_tag(alloc: Global, object: &Oid, kind: Kind, rest: &[u8]) -> Result<Vec<u8>, NoMemory>
    requires { BeginsWith (codes "tag ") rest.now }
    ensures { IfOk result (λ bytes. SpellsTag
        (record { object = object.now; kind = kind; rest = rest.now }) bytes.items) }
{
    let mut bytes = Vec::new(alloc);
    push_oid_line(&mut bytes, alloc, b"object ", object)?;
    bytes.extend_from_slice(b"type ")?;
    bytes.extend_from_slice(kind.word())?;
    bytes.extend_from_slice(b"\n")?;
    bytes.extend_from_slice(rest)?;
    Ok(bytes)
}
