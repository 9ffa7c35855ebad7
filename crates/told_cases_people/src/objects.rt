// Keyrings and objects of lines.
use commit_graph::MemObjects;
use keyring::Keyring;
use std::alloc::Global;
use told_rows::words::{bytes_of, cut, kind_of};

/// The keyring of digits. None: they are none, it is refused, or memory was.
pub fn keyring_of(alloc: Global, digits: &str) -> Option<Keyring> {
    Keyring::read(alloc, &bytes_of(alloc, digits)?).ok()
}

/// Puts the object of a kind and digits. None: they are none, or memory was refused.
pub fn put(alloc: Global, objects: &mut MemObjects, text: &str) -> Option<()> {
    let (word, digits) = cut(text);
    let content = bytes_of(alloc, digits)?;
    let _name = objects.put(alloc, kind_of(word)?, &content).ok()?;
    Some(())
}
