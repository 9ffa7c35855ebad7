// Contents of objects: where they break. What they link to says the same.
use crate::objects::object_of;
use git_object::{Kind, LinksFault, links, read_commit, read_tag, read_tree};
use std::alloc::Global;
use told_rows::rows::Row;
use told_rows::texts::{numbered, text};

/// The table of contents that are read.
#[derive(Clone, Copy)]
pub struct Grammar;

// Where the reader of a kind finds a content broken.
fn place_of(kind: Kind, content: &[u8]) -> Option<usize> {
    match kind {
        Kind::Blob => None,
        Kind::Tree => read_tree(content).err().map(|bad| bad.place),
        Kind::Commit => read_commit(content).err().map(|bad| bad.place),
        Kind::Tag => read_tag(content).err().map(|bad| bad.place),
    }
}

impl Row for Grammar {
    // `ok`, or `bad` and the place.
    fn answer(&self, alloc: Global, asked: &str) -> Option<String> {
        let (kind, content) = object_of(alloc, asked)?;
        match (links(alloc, kind, &content), place_of(kind, &content)) {
            (Ok(_), None) => text(alloc, "ok"),
            (Err(LinksFault::Bad(place)), Some(other)) if place == other => {
                numbered(alloc, "bad", place as u64)
            }
            _ => text(alloc, "what it links to differs from the reader"),
        }
    }
}
