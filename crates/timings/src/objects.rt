// The objects of a repository whose history is a chain of commits, and of its signed refs.
use crate::taking::Taking;
use git_object::{Kind, name_of};
use rad_base::{Nid, Oid};
use std::alloc::Global;

/// The document: one delegate, whose key has 32 bytes 01.
pub const DOCUMENT: &[u8] = b"{\"delegates\":[\"did:key:fed01\
    0101010101010101010101010101010101010101010101010101010101010101\"],\
    \"payload\":{\"xyz.radicle.project\":{\"defaultBranch\":\"master\",\
    \"description\":\"\",\"name\":\"gen\"}},\"threshold\":1}";

const AUTHOR: &[u8] = b"author a <a@b> 0 +0000\ncommitter a <a@b> 0 +0000\n\n";

// Writes the entry of a tree.
fn push_entry(tree: &mut Vec<u8>, word: &[u8], oid: &Oid) -> Option<()> {
    tree.extend_from_slice(word).ok()?;
    tree.push(0).ok()?;
    tree.extend_from_slice(oid.0.as_slice()).ok()
}

// Writes a word, a name and a line feed.
fn push_line(alloc: Global, bytes: &mut Vec<u8>, word: &[u8], oid: &Oid) -> Option<()> {
    bytes.extend_from_slice(word).ok()?;
    bytes
        .extend_from_slice(oid.text(alloc).ok()?.as_slice())
        .ok()?;
    bytes.push(b'\n').ok()
}

// Adds the commit of a tree, behind another one if there is one.
fn add_commit<T: Taking>(
    alloc: Global,
    into: &mut T,
    tree: &Oid,
    parent: Option<Oid>,
    word: &[u8],
) -> Option<Oid> {
    let mut bytes = Vec::new(alloc);
    push_line(alloc, &mut bytes, b"tree ", tree)?;
    if let Some(parent) = parent {
        push_line(alloc, &mut bytes, b"parent ", &parent)?;
    }
    bytes.extend_from_slice(AUTHOR).ok()?;
    bytes.extend_from_slice(word).ok()?;
    bytes.push(b'\n').ok()?;
    into.take(alloc, Kind::Commit, bytes)
}

/// The content of the file of a number: its digits and a line feed.
pub fn file_of(alloc: Global, number: u32) -> Option<Vec<u8>> {
    let text = format!(in alloc; "{number}\n").ok()?;
    Vec::from_slice(alloc, text.as_bytes()).ok()
}

// The name of the file of a number, which is added if it is wanted.
fn add_file<T: Taking>(alloc: Global, into: &mut T, number: u32, is_there: bool) -> Option<Oid> {
    let content = file_of(alloc, number)?;
    if is_there {
        into.take(alloc, Kind::Blob, content)
    } else {
        Some(name_of(Kind::Blob, &content))
    }
}

/// Adds the objects of a number: a file, the file only if it is wanted, a tree of it, and a commit,
/// whose name it answers.
pub fn add_number<T: Taking>(
    alloc: Global,
    into: &mut T,
    number: u32,
    parent: Option<Oid>,
    is_there: bool,
) -> Option<Oid> {
    let file = add_file(alloc, into, number, is_there)?;
    let mut tree = Vec::new(alloc);
    push_entry(&mut tree, b"100644 n", &file)?;
    let tree = into.take(alloc, Kind::Tree, tree)?;
    let text = format!(in alloc; "{number}").ok()?;
    add_commit(alloc, into, &tree, parent, text.as_bytes())
}

/// Adds a chain of so many commits, without its first file if it is not wanted, and answers the
/// names of the commits from the first.
pub fn add_chain<T: Taking>(
    alloc: Global,
    into: &mut T,
    length: u32,
    is_whole: bool,
) -> Option<Vec<Oid>> {
    let mut commits = Vec::new(alloc);
    let mut last = None;
    for i in 0..length {
        let number = i.saturating_add(1);
        let is_there = is_whole || number > 1;
        let commit = add_number(alloc, into, number, last, is_there)?;
        commits.push(commit).ok()?;
        last = Some(commit);
    }
    Some(commits)
}

/// Adds the identity, and answers the name of its commit.
pub fn add_identity<T: Taking>(alloc: Global, into: &mut T) -> Option<Oid> {
    let document = Vec::from_slice(alloc, DOCUMENT).ok()?;
    let document = into.take(alloc, Kind::Blob, document)?;
    let mut embeds = Vec::new(alloc);
    push_entry(&mut embeds, b"100644 radicle.json", &document)?;
    let embeds = into.take(alloc, Kind::Tree, embeds)?;
    let mut tree = Vec::new(alloc);
    push_entry(&mut tree, b"40000 embeds", &embeds)?;
    let tree = into.take(alloc, Kind::Tree, tree)?;
    add_commit(alloc, into, &tree, None, b"id")
}

/// The refs with the branch `master` alone, at a commit.
pub fn refs_at(alloc: Global, tip: &Oid) -> Option<Vec<u8>> {
    let mut refs = Vec::from_slice(alloc, tip.text(alloc).ok()?.as_slice()).ok()?;
    refs.extend_from_slice(b" refs/heads/master\n").ok()?;
    Some(refs)
}

/// The signature of a node: its key, twice.
pub fn signature_of(alloc: Global, node: &Nid) -> Option<Vec<u8>> {
    let mut bytes = Vec::from_slice(alloc, node.0.as_slice()).ok()?;
    bytes.extend_from_slice(node.0.as_slice()).ok()?;
    Some(bytes)
}

/// Adds what a node signed of the refs of this name, and answers the name of the commit.
pub fn add_signed<T: Taking>(alloc: Global, into: &mut T, node: &Nid, refs: &Oid) -> Option<Oid> {
    let signature = into.take(alloc, Kind::Blob, signature_of(alloc, node)?)?;
    let mut tree = Vec::new(alloc);
    push_entry(&mut tree, b"100644 refs", refs)?;
    push_entry(&mut tree, b"100644 signature", &signature)?;
    let tree = into.take(alloc, Kind::Tree, tree)?;
    add_commit(alloc, into, &tree, None, b"sigrefs")
}
