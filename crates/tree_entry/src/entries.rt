// Entries of trees.
ghost use Rattle.std.specs.Prelude.{◌≡◌, ◌↔◌, IfErr, IfOk, IsTrue, Some};
ghost use Rattle.std.specs.Option.{ForSome};
ghost use Rattle.git_object.specs.Links.{kind_of};
ghost use Rattle.git_object.specs.Views.{tree_entry_of};
ghost use Rattle.commit_graph.specs.Faults.{KeepsObjects};
ghost use Rattle.tree_entry.specs.Entries.{Finds, HasEntry, IsEntryIn};

use commit_graph::{Changed, GetFault, Objects};
use git_object::{Kind, Mode, TreeEntry, read_tree};
use rad_base::Oid;

// Whether an entry of this mode links to an object of this kind.
fn links_to(mode: Mode, kind: Kind) -> bool
    ensures { IsTrue result ↔ kind_of mode ≡ Some kind }
{
    match mode {
        Mode::File | Mode::Executable | Mode::GroupFile | Mode::Symlink => kind == Kind::Blob,
        Mode::Directory => kind == Kind::Tree,
        Mode::Gitlink => false,
    }
}

// Whether this is the entry that is looked for.
fn is_wanted(entry: &TreeEntry<'_>, kind: Kind, name: &[u8]) -> bool
    ensures { IsTrue result ↔ (((tree_entry_of entry.now).name ≡ name.now)
        × (kind_of (tree_entry_of entry.now).mode ≡ Some kind)) }
{
    entry.name == name && links_to(entry.mode, kind)
}

// The object of an entry, from the bytes of a tree.
fn entry_in(bytes: &[u8], kind: Kind, name: &[u8]) -> Option<Oid>
    ensures { Finds (IsEntryIn bytes.now kind name.now) result }
{
    let Ok(entries) = read_tree(bytes) else {
        return None;
    };
    for entry in entries {
        if is_wanted(&entry, kind, name) {
            return Some(entry.oid);
        }
    }
    None
}

/// The object that the entry of this name in a tree links to, as one of this kind: of kind Tree it
/// is a directory's, of kind Blob that of a file or a symbolic link. The kinds Commit and Tag find
/// nothing.
///
/// None where the tree is not there, is of another kind or not in its grammar, or has no such
/// entry. A directory and a file of one name are two entries. `GetFault` as `Objects::get` answers
/// it.
pub fn find_entry<O: Objects>(
    objects: &mut O,
    tree: &Oid,
    kind: Kind,
    name: &[u8],
) -> Result<Option<Oid>, GetFault>
    ensures told { ForSome (O.content objects.old)
        (λ m. IfOk result (Finds (HasEntry m tree.now kind name.now))) }
    ensures asked { IfErr result (λ fault. (change : Changed) → fault ≡ GetFault.Changed change
        → change.name ≡ tree.now) }
    ensures keeps { KeepsObjects O.content O.beside O.places O.faults Some objects.old objects.new
        result }
{
    match objects.get(tree) {
        Err(fault) => Err(fault),
        Ok(Some((Kind::Tree, bytes))) => Ok(entry_in(bytes, kind, name)),
        Ok(_) => Ok(None),
    }
}
