// The entries of a store.
ghost use Rattle.std.specs.Prelude.{◌≡◌, ◌<◌, ◌^◌, ◌∷◌, ◌++◌, [], length, OnOk};
ghost use Rattle.repo_entries.specs.Histories.{HasRoom};

use crate::Entry;
use rad_base::NoMemory;
use std::alloc::Global;

/// The entries of a store, in order.
#[derive(Drop)]
pub struct History {
    entries: Vec<Entry>,
}

impl History {
    /// No entry. It takes no memory.
    pub fn new(alloc: Global) -> Self
        ensures { result.entries.items ≡ [] }
    {
        History {
            entries: Vec::new(alloc),
        }
    }

    /// Takes the memory of one entry more. `NoMemory`: it was refused.
    pub fn make_room(&mut self) -> Result<(), NoMemory>
        ensures same { self.new.entries.items ≡ self.old.entries.items }
        ensures room { OnOk result (HasRoom self.new) }
    {
        self.entries.reserve(1)?;
        Ok(())
    }

    /// Adds an entry at the end, for which there is room. It takes no memory.
    pub fn push(&mut self, entry: Entry)
        requires { HasRoom self.old }
        ensures { self.new.entries.items ≡ self.old.entries.items ++ entry ∷ [] }
    {
        let _pushed = self.entries.push(entry);
    }

    /// How many entries there are.
    pub fn count(&self) -> u64
        ensures is { result ≡ length self.now.entries.items }
        ensures few { result < 2 ^ 63 }
    {
        self.entries.len() as u64
    }

    /// The entries, in order.
    pub fn as_slice(&self) -> &[Entry]
        ensures { result.now ≡ self.now.entries.items }
    {
        &self.entries
    }
}
