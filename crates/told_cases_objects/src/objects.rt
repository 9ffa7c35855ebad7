// Objects of lines.
use commit_graph::MemObjects;
use git_object::Kind;
use std::alloc::Global;
use told_rows::words::{bytes_of, cut, kind_of};

/// The kind and the content of an object: a kind and digits. None: they are none, or memory was
/// refused.
pub fn object_of(alloc: Global, text: &str) -> Option<(Kind, Vec<u8>)> {
    let (word, digits) = cut(text);
    Some((kind_of(word)?, bytes_of(alloc, digits)?))
}

/// Puts the object of a kind and digits. None: they are none, or memory was refused.
pub fn put(alloc: Global, objects: &mut MemObjects, text: &str) -> Option<()> {
    let (kind, content) = object_of(alloc, text)?;
    let _name = objects.put(alloc, kind, &content).ok()?;
    Some(())
}
