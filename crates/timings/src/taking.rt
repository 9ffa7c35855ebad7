// What objects are put into.
use crate::filling::Filling;
use commit_graph::MemObjects;
use git_object::Kind;
use rad_base::Oid;
use std::alloc::Global;

/// What objects are put into.
pub trait Taking {
    /// Takes an object, and answers its name. None where memory is refused.
    fn take(&mut self, alloc: Global, kind: Kind, content: Vec<u8>) -> Option<Oid>;
}

impl Taking for MemObjects {
    fn take(&mut self, alloc: Global, kind: Kind, content: Vec<u8>) -> Option<Oid> {
        self.put(alloc, kind, &content).ok()
    }
}

impl Taking for Filling {
    fn take(&mut self, alloc: Global, kind: Kind, content: Vec<u8>) -> Option<Oid> {
        self.add(alloc, kind, content).ok()
    }
}
