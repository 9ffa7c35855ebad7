// An entry of a tree, its text and its place in the order.
ghost use Rattle.std.specs.Prelude.{◌≡◌, ◌∷◌, ◌++◌, ℕ, List, codes, IfSome, IfNone};
ghost use Rattle.std.specs.Ordering.{nat_cmp};
ghost use Rattle.std.specs.Cmp.Lexicographic.{slice_cmp};
ghost use Rattle.git_object.specs.Grammar.{Entry, IsEntry, IsName, entry_text};
ghost use Rattle.git_object.specs.Grammar.{order_key, mode_text, slash_of};
ghost use Rattle.git_object.specs.Views.{tree_entry_of};

use crate::Mode;
use rad_base::{Oid, after, oid_front};
use std::cmp::Ordering;

/// An entry of a tree.
#[derive(Clone, Copy, Debug, PartialEq, Eq)]
pub struct TreeEntry<'a> {
    /// What the entry is.
    pub mode: Mode,
    /// Its name, which is not empty and has neither `/` nor NUL.
    pub name: &'a [u8],
    /// The name of the object.
    pub oid: Oid,
}

// The mode at the front, with the space behind it.
fn mode_at(bytes: &[u8]) -> Option<(Mode, &[u8])>
    ensures found { IfSome result (λ x. bytes.now ≡ mode_text x.0 ++ codes " " ++ x.1.now) }
    ensures none { IfNone result ((mode : Mode) (rest : List ℕ)
        → bytes.now ≡ mode_text mode ++ codes " " ++ rest → ⊥) }
{
    if let Some(rest) = after(bytes, b"100644 ") {
        return Some((Mode::File, rest));
    }
    if let Some(rest) = after(bytes, b"100755 ") {
        return Some((Mode::Executable, rest));
    }
    if let Some(rest) = after(bytes, b"100664 ") {
        return Some((Mode::GroupFile, rest));
    }
    if let Some(rest) = after(bytes, b"120000 ") {
        return Some((Mode::Symlink, rest));
    }
    if let Some(rest) = after(bytes, b"40000 ") {
        return Some((Mode::Directory, rest));
    }
    if let Some(rest) = after(bytes, b"160000 ") {
        return Some((Mode::Gitlink, rest));
    }
    None
}

// The name at the front, with the NUL behind it.
fn name_at(bytes: &[u8]) -> Option<(&[u8], &[u8])>
    ensures found { IfSome result (λ x. IsName x.0.now × (bytes.now ≡ x.0.now ++ 0 ∷ x.1.now)) }
    ensures none { IfNone result ((name rest : List ℕ)
        → IsName name → bytes.now ≡ name ++ 0 ∷ rest → ⊥) }
{
    for (at, byte) in bytes.iter().enumerate() {
        if *byte == 0 {
            if at == 0 {
                return None;
            }
            return Some((&bytes[..at], &bytes[at + 1..]));
        }
        if *byte == b'/' {
            return None;
        }
    }
    None
}

// The entry at the front, and what stands behind it.
pub(crate) fn entry_at(bytes: &[u8]) -> Option<(TreeEntry<'_>, &[u8])>
    ensures found { IfSome result (λ x. IsEntry (tree_entry_of x.0)
        × (bytes.now ≡ entry_text (tree_entry_of x.0) ++ x.1.now)) }
    ensures none { IfNone result ((entry : Entry) (rest : List ℕ)
        → IsEntry entry → bytes.now ≡ entry_text entry ++ rest → ⊥) }
{
    let (mode, rest) = mode_at(bytes)?;
    let (name, rest) = name_at(rest)?;
    let (oid, rest) = oid_front(rest)?;
    Some((TreeEntry { mode, name, oid }, rest))
}

// One slash for a directory.
fn slash(mode: Mode) -> &'static [u8]
    ensures { result.now ≡ slash_of mode }
{
    match mode {
        Mode::Directory => b"/",
        _ => b"",
    }
}

// The order of two entries, which is that of their keys.
pub(crate) fn key_order(a: &TreeEntry<'_>, b: &TreeEntry<'_>) -> Ordering
    ensures { result ≡ slice_cmp nat_cmp (order_key (tree_entry_of a.now)) (order_key (tree_entry_of b.now)) }
{
    let first = a.name.iter().chain(slash(a.mode).iter());
    let second = b.name.iter().chain(slash(b.mode).iter());
    first.cmp(second)
}
