// A counter that keeps the list of its increments.
ghost use Rattle.std.specs.Prelude.{◌≡◌, ◌∷◌, ◌++◌, [], OnOk, OnErr};

use crate::Told;
use std::alloc::{AllocError, Global};

/// An increment, and who made it.
#[derive(Clone, Copy, Debug, PartialEq, Eq)]
pub(crate) struct Increment {
    pub(crate) caller: u64,
    pub(crate) by: u64,
}

/// The increments, and a name that stays.
#[derive(Debug, Drop)]
pub(crate) struct Counter {
    pub(crate) name: u64,
    pub(crate) made: Vec<Increment>,
}

impl Counter {
    pub(crate) fn new(alloc: Global, name: u64) -> Self
        ensures { (result.name ≡ name) × (result.made.items ≡ []) }
    {
        Counter {
            name,
            made: Vec::new(alloc),
        }
    }

    pub(crate) fn add(&mut self, entry: Increment) -> Result<(), AllocError>
        ensures name { self.new.name ≡ self.old.name }
        ensures ok { OnOk result (self.new.made.items ≡ self.old.made.items ++ entry ∷ []) }
        ensures err { OnErr result (self.new.made.items ≡ self.old.made.items) }
    {
        self.made.push(entry)?;
        Ok(())
    }
}

impl Told for Counter {
    type Entry = Increment;

    type Constants = u64;

    ghost list = { λ counter. counter.made.items };

    ghost caller = { λ entry. entry.caller };

    ghost constants = { λ counter. counter.name };

    fn count(&self) -> u64 {
        self.made.len() as u64
    }
}
