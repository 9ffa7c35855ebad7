// An entry of a tree that owns its name.
ghost use Rattle.std.specs.Prelude.{◌≡◌};
ghost use Rattle.git_object.specs.Views.{entry_named, tree_entry_of};

use crate::{Mode, TreeEntry};
use rad_base::{Bytes, Oid};

/// An entry of a tree that is to be written, which owns its name.
#[derive(Debug, Drop)]
pub struct NamedEntry {
    /// What the entry is.
    pub mode: Mode,
    /// Its name.
    pub name: Bytes,
    /// The name of the object.
    pub oid: Oid,
}

impl NamedEntry {
    /// The entry, with its name lent.
    pub fn as_entry(&self) -> TreeEntry<'_>
        ensures { tree_entry_of result ≡ entry_named self.now }
    {
        let name = self.name.as_slice();
        TreeEntry {
            mode: self.mode,
            name,
            oid: self.oid,
        }
    }
}
