// Trees, read from the front: entries that lie in the bytes of an object.
ghost use Rattle.std.specs.Prelude.{◌↔◌, IfErr, IfNone, IfOk, IfSome, IsOk, IsTrue};
ghost use Rattle.std.specs.Iterator.{YieldsFirstBy, item_count};
ghost use Rattle.rad_base.specs.Order.{IsBelow};
ghost use Rattle.git_object.specs.Grammar.{IsTree, SpellsTree, order_key};
ghost use Rattle.git_object.specs.Places.{BreaksTree, HasNoEntryAbove};
ghost use Rattle.git_object.specs.Views.{FollowsFrom, tree_entries_of, tree_entry_of, last_key};

use crate::Bad;
use crate::entry::{TreeEntry, entry_at, key_order};
use std::cmp::Ordering;

/// The entries of a tree that are left, in order.
#[derive(Clone, Copy, Debug)]
pub struct TreeEntries<'a> {
    rest: &'a [u8],
}

impl<'a> Iterator for TreeEntries<'a> {
    type Item = TreeEntry<'a>;

    ghost next_gives = { YieldsFirstBy tree_entry_of tree_entries_of };

    ghost remaining = { item_count tree_entries_of };

    fn next(&mut self) -> Option<TreeEntry<'a>> {
        let (entry, rest) = entry_at(self.rest)?;
        self.rest = rest;
        Some(entry)
    }
}

// Whether an entry may come behind the one before.
pub(crate) fn is_in_order(before: &Option<TreeEntry<'_>>, entry: &TreeEntry<'_>) -> bool
    ensures { IsTrue result ↔ IsBelow (last_key before.now) (order_key (tree_entry_of entry.now)) }
{
    match before {
        None => true,
        Some(before) => key_order(before, entry) == Ordering::Less,
    }
}

// The entry at the front, where it may come behind the one before, and what stands behind it.
fn entry_behind<'a>(
    before: &Option<TreeEntry<'_>>,
    bytes: &'a [u8],
) -> Option<(TreeEntry<'a>, &'a [u8])>
    ensures found { IfSome result (λ x. FollowsFrom (last_key before.now) bytes.now x.0 x.1.now) }
    ensures none { IfNone result (HasNoEntryAbove (last_key before.now) bytes.now) }
{
    let (entry, rest) = entry_at(bytes)?;
    if !is_in_order(before, &entry) {
        return None;
    }
    Some((entry, rest))
}

/// The entries of a tree, whose names lie in the bytes. Bad exactly where the bytes are not those
/// of a tree: each entry is a mode, a space, a name, a NUL and the 20 bytes of an object's name,
/// and the entries rise by their names, where a directory's counts as if a `/` stood behind it.
///
/// This is after Git's object format, in this project's profile: the six modes of `Mode` alone.
pub fn read_tree(bytes: &[u8]) -> Result<TreeEntries<'_>, Bad>
    ensures tree { IfOk result (λ entries. SpellsTree (tree_entries_of entries) bytes.now) }
    ensures bad { IfErr result (λ bad. BreaksTree bytes.now bad.place) }
    ensures exact { IsOk result ↔ IsTree bytes.now }
{
    let mut rest = bytes;
    let mut before = None;
    'reading: while !rest.is_empty() {
        let Some((entry, more)) = entry_behind(&before, rest) else {
            let place = bytes.len() - rest.len();
            return Err(Bad { place });
        };
        before = Some(entry);
        rest = more;
    }
    Ok(TreeEntries { rest: bytes })
}
