// What an object links to.
ghost use Rattle.std.specs.Prelude.{◌≡◌, ◌++◌, ◌-◌, length, IfErr, IfOk, OnErr, OnOk};
ghost use Rattle.git_object.specs.Grammar.{IsCommit, IsTag, IsTree};
ghost use Rattle.git_object.specs.Faults.{IsLinksFault};
ghost use Rattle.git_object.specs.Links.{IsWellFormed, KeepsFront, LinksParents, kind_of, links};

use crate::commit::oid_line_at;
use crate::{Bad, Kind, Mode, read_tag, read_tree};
use rad_base::{Oid, after};
use std::alloc::{AllocFailed, Global};

/// A link to an object, with what it must be.
#[derive(Clone, Copy, Debug, PartialEq, Eq)]
pub struct LinkTo {
    /// The name of the object.
    pub oid: Oid,
    /// What the object is.
    pub kind: Kind,
}

/// Why the links of an object are not given.
#[derive(Clone, Copy, Debug, PartialEq, Eq)]
pub enum LinksFault {
    /// The bytes are not in the grammar of the kind. The first broken unit begins at this offset.
    Bad(usize),
    /// Memory was refused.
    NoMemory,
}

impl From<Bad> for LinksFault {
    ghost use Rattle.git_object.specs.declared.link.LinksFault.TheVariants as faults;

    ghost from_gives = { λ bad fault. fault ≡ faults.Bad bad.place };

    fn from(bad: Bad) -> Self {
        LinksFault::Bad(bad.place)
    }
}

impl<T: Drop> From<AllocFailed<T>> for LinksFault {
    ghost use Rattle.git_object.specs.declared.link.LinksFault.TheVariants as faults;

    ghost from_gives = { λ _ fault. fault ≡ faults.NoMemory };

    fn from(_: AllocFailed<T>) -> Self {
        LinksFault::NoMemory
    }
}

// What an entry of this mode links to, if it is a link.
fn linked_kind(mode: Mode) -> Option<Kind>
    ensures { result ≡ kind_of mode }
{
    match mode {
        Mode::File | Mode::Executable | Mode::GroupFile | Mode::Symlink => Some(Kind::Blob),
        Mode::Directory => Some(Kind::Tree),
        Mode::Gitlink => None,
    }
}

// Adds the links of a tree.
fn add_tree_links(bytes: &[u8], found: &mut Vec<LinkTo>) -> Result<(), LinksFault>
    ensures added { OnOk result (found.new.items ≡ found.old.items ++ links Kind.Tree bytes.now) }
    ensures kept { OnErr result (KeepsFront found.old.items found.new.items) }
    ensures tree { OnOk result (IsTree bytes.now) }
    ensures fault { IfErr result (IsLinksFault Kind.Tree bytes.now) }
{
    let entries = read_tree(bytes)?;
    for entry in entries {
        if let Some(kind) = linked_kind(entry.mode) {
            let oid = entry.oid;
            found.push(LinkTo { oid, kind })?;
        }
    }
    Ok(())
}

// Adds the links to the parents at the front, and answers what stands behind them.
fn add_parent_links<'a>(
    bytes: &'a [u8],
    found: &mut Vec<LinkTo>,
) -> Result<&'a [u8], AllocFailed<LinkTo>>
    ensures added { IfOk result
        (λ rest. LinksParents bytes.now rest.now found.old.items found.new.items) }
    ensures kept { OnErr result (KeepsFront found.old.items found.new.items) }
{
    let kind = Kind::Commit;
    let mut rest = bytes;
    'reading: while let Some((oid, more)) = oid_line_at(rest, b"parent ") {
        found.push(LinkTo { oid, kind })?;
        rest = more;
    }
    Ok(rest)
}

// Adds the links of a commit, whose lines are gone over once.
fn add_commit_links(bytes: &[u8], found: &mut Vec<LinkTo>) -> Result<(), LinksFault>
    ensures added { OnOk result
        (found.new.items ≡ found.old.items ++ links Kind.Commit bytes.now) }
    ensures kept { OnErr result (KeepsFront found.old.items found.new.items) }
    ensures commit { OnOk result (IsCommit bytes.now) }
    ensures fault { IfErr result (IsLinksFault Kind.Commit bytes.now) }
{
    let Some((oid, behind_tree)) = oid_line_at(bytes, b"tree ") else {
        return Err(LinksFault::Bad(0));
    };
    let kind = Kind::Tree;
    found.push(LinkTo { oid, kind })?;
    let rest = add_parent_links(behind_tree, found)?;
    let Some(_) = after(rest, b"author ") else {
        let place = bytes.len() - rest.len();
        return Err(LinksFault::Bad(place));
    };
    Ok(())
}

// Adds the link of a tag.
fn add_tag_links(bytes: &[u8], found: &mut Vec<LinkTo>) -> Result<(), LinksFault>
    ensures added { OnOk result (found.new.items ≡ found.old.items ++ links Kind.Tag bytes.now) }
    ensures kept { OnErr result (found.new.items ≡ found.old.items) }
    ensures tag { OnOk result (IsTag bytes.now) }
    ensures fault { IfErr result (IsLinksFault Kind.Tag bytes.now) }
{
    let parts = read_tag(bytes)?;
    let (oid, kind) = (parts.object, parts.kind);
    found.push(LinkTo { oid, kind })?;
    Ok(())
}

// Adds the links of an object; some of them also where it is refused.
fn add_all(kind: Kind, bytes: &[u8], found: &mut Vec<LinkTo>) -> Result<(), LinksFault>
    ensures added { OnOk result (found.new.items ≡ found.old.items ++ links kind bytes.now) }
    ensures kept { OnErr result (KeepsFront found.old.items found.new.items) }
    ensures well_formed { OnOk result (IsWellFormed kind bytes.now) }
    ensures fault { IfErr result (IsLinksFault kind bytes.now) }
{
    match kind {
        Kind::Blob => Ok(()),
        Kind::Tree => add_tree_links(bytes, found),
        Kind::Commit => add_commit_links(bytes, found),
        Kind::Tag => add_tag_links(bytes, found),
    }
}

/// Adds what the object of this kind with these bytes links to at the end of a list, as `links`
/// gives it. A refusal leaves the list as it was. Bad exactly where the bytes are not those of the
/// kind, with the place as the reader tells it.
///
/// A walk clears one list and fills it again for each object.
pub fn add_links(kind: Kind, bytes: &[u8], found: &mut Vec<LinkTo>) -> Result<(), LinksFault>
    ensures added { OnOk result (found.new.items ≡ found.old.items ++ links kind bytes.now) }
    ensures left { OnErr result (found.new.items ≡ found.old.items) }
    ensures well_formed { OnOk result (IsWellFormed kind bytes.now) }
    ensures fault { IfErr result (IsLinksFault kind bytes.now) }
{
    let before = found.len();
    match add_all(kind, bytes, found) {
        Ok(()) => Ok(()),
        Err(fault) => {
            found.truncate(before);
            Err(fault)
        }
    }
}

/// What the object of this kind with these bytes links to, in the order of the bytes: of a tree
/// each entry but a gitlink; of a commit the tree and then each parent; of a tag the object that it
/// is put on; of a blob nothing. Bad exactly where the bytes are not those of the kind, with the
/// place as the reader tells it.
///
/// The kinds are after Git's object format, in this project's profile, as `read_tree`,
/// `read_commit` and `read_tag` read them.
pub fn links(alloc: Global, kind: Kind, bytes: &[u8]) -> Result<Vec<LinkTo>, LinksFault>
    ensures found { IfOk result (λ found. found.items ≡ links kind bytes.now) }
    ensures well_formed { IfOk result (λ _. IsWellFormed kind bytes.now) }
    ensures fault { IfErr result (IsLinksFault kind bytes.now) }
{
    let mut found = Vec::new(alloc);
    add_links(kind, bytes, &mut found)?;
    Ok(found)
}
