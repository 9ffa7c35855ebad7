// Lists of parts.
ghost use Rattle.std.specs.Prelude.{◌≡◌, ◌↔◌, ◌++◌, [], IsNone, IsTrue, length, slice_get};
ghost use Rattle.std.specs.Option.{option_copied, option_to_list};

use crate::Part;
use std::collections::VecDeque;
use std::marker::Model;

/// Parts in the order in which they came. Contracts see them as their list.
#[derive(Debug, Drop)]
pub struct Parts {
    parts: VecDeque<Part>,
}

impl Model for Parts {
    ghost use Rattle.std.specs.Prelude.{List};
    ghost use Rattle.fetch_wire.specs.declared.part.Part.{Part};

    ghost Value = { List Part };

    ghost view = { λ parts. parts.parts.items };
}

impl Parts {
    /// These parts, in their vector. It takes no memory.
    pub fn of(parts: Vec<Part>) -> Self
        ensures { result ≡ parts.items }
    {
        Parts {
            parts: VecDeque::from(parts),
        }
    }

    /// How many parts there are.
    pub fn len(&self) -> usize
        ensures { result ≡ length self.now }
    {
        self.parts.len()
    }

    /// Whether there is none.
    pub fn is_empty(&self) -> bool
        ensures { IsTrue result ↔ (self.now ≡ []) }
    {
        self.parts.is_empty()
    }

    /// The part of a number from 0, if there are so many.
    pub fn get(&self, index: usize) -> Option<&Part>
        ensures { option_copied result ≡ slice_get self.now index }
    {
        self.parts.get(index)
    }

    /// Takes the first part off, if there is one.
    pub fn pop_front(&mut self) -> Option<Part>
        ensures first { self.old ≡ option_to_list result ++ self.new }
        ensures none { IsNone result → self.old ≡ [] }
    {
        self.parts.pop_front()
    }
}
