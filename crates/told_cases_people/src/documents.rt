// Identity documents, each as the document of an identity commit that is named after it.
use crate::chains::doc_fault;
use commit_graph::MemObjects;
use git_object::Kind;
use identity_doc::{Doc, IdFault, Visibility, id_chain};
use keyring::Keyring;
use rad_base::{Oid, Rid};
use std::alloc::Global;
use told_rows::rows::Row;
use told_rows::texts::{Line, text};
use told_rows::words::bytes_of;

/// The table of documents, under a keyring.
#[derive(Drop)]
pub struct Documents {
    keyring: Keyring,
}

// What stands behind the tree in an identity commit.
const BEHIND: &str = "\nauthor a <a@b> 0 +0000\ncommitter a <a@b> 0 +0000\n\nid\n";

// Puts a tree of one entry.
fn put_tree(alloc: Global, objects: &mut MemObjects, entry: &[u8], oid: &Oid) -> Option<Oid> {
    let mut content = Vec::from_slice(alloc, entry).ok()?;
    content.extend_from_slice(&oid.0).ok()?;
    objects.put(alloc, Kind::Tree, &content).ok()
}

// Puts an identity commit with this document, and answers the names of the document and of it.
fn put_identity(alloc: Global, objects: &mut MemObjects, bytes: &[u8]) -> Option<(Oid, Oid)> {
    let blob = objects.put(alloc, Kind::Blob, bytes).ok()?;
    let embeds = put_tree(alloc, objects, b"100644 radicle.json\0", &blob)?;
    let tree = put_tree(alloc, objects, b"40000 embeds\0", &embeds)?;
    let digits = hex::encode(alloc, tree.0).ok()?;
    let commit = format!(in alloc; "tree {digits}{BEHIND}").ok()?;
    let id = objects.put(alloc, Kind::Commit, commit.as_bytes()).ok()?;
    Some((blob, id))
}

// The words of a document.
fn doc_text(alloc: Global, doc: &Doc) -> Option<String> {
    let mut words = Line::new(alloc);
    words.word("ok")?;
    words.number(alloc, doc.delegates.as_slice().len() as u64)?;
    words.number(alloc, u64::from(doc.threshold))?;
    match &doc.default_branch {
        None => words.word("-")?,
        Some(branch) => words.bytes(alloc, branch.as_slice())?,
    }
    match &doc.visibility {
        Visibility::Public => words.word("public")?,
        Visibility::Private(allowed) => {
            words.word("private")?;
            words.number(alloc, allowed.as_slice().len() as u64)?;
        }
    }
    Some(words.into_string())
}

impl Documents {
    /// The table under the keyring of these bytes. None: it is refused, or memory was.
    pub fn under(alloc: Global, keys: &[u8]) -> Option<Self> {
        Some(Documents {
            keyring: Keyring::read(alloc, keys).ok()?,
        })
    }
}

impl Row for Documents {
    // `ok` and what the document says, `NotJson`, or the refusal with what it holds.
    fn answer(&self, alloc: Global, asked: &str) -> Option<String> {
        let bytes = bytes_of(alloc, asked)?;
        let mut objects = MemObjects::new(alloc);
        let (blob, id) = put_identity(alloc, &mut objects, &bytes)?;
        match id_chain(alloc, &mut objects, &self.keyring, &Rid(blob), &id) {
            Ok(doc) => doc_text(alloc, &doc),
            Err(IdFault::NotJson(_)) => text(alloc, "NotJson"),
            Err(IdFault::BadDocument(_, fault)) => doc_fault(alloc, fault, " -"),
            Err(_) => text(alloc, "no chain"),
        }
    }
}
