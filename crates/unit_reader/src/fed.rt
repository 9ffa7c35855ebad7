// A reader that answers the same ever after a refusal.
ghost use Rattle.std.specs.Prelude.{◌≡◌, [], None, Err, IfSome, IfNone};
ghost use Rattle.unit_reader.specs.Fed.{Answers};

use crate::{Stop, UnitReader, Units};
use std::alloc::Global;
use std::mem;

/// What a piece gave.
#[derive(Drop)]
pub struct Fed<I> {
    /// The items that became whole.
    pub items: Vec<I>,
    /// How many bytes of the piece were used: all, where nothing ended.
    pub used: usize,
}

/// Reads units from bytes that come in pieces, up to a refusal.
#[derive(Drop)]
pub struct PieceReader<U: Units> {
    reader: UnitReader<U>,
    before: Vec<U::Item>,
    stop: Option<Stop<U::Fault>>,
}

impl<U: Units> PieceReader<U> {
    /// A reader that begins in this state.
    pub fn new(alloc: Global, units: U) -> Self
        ensures reader { result.reader ≡ (units, []) }
        ensures stop { result.stop ≡ None }
    {
        PieceReader {
            reader: UnitReader::new(alloc, units),
            before: Vec::new(alloc),
            stop: None,
        }
    }

    /// Reads a piece. After a refusal the answer stays.
    pub fn feed(&mut self, alloc: Global, piece: &[u8]) -> Result<Fed<U::Item>, Stop<U::Fault>>
        ensures stopped { IfSome self.old.stop (λ stop. (result ≡ Err stop) × (self.new ≡ self.old)) }
        ensures fed { IfNone self.old.stop (Answers U.shut U.judge self.old.reader piece.now
            self.new.reader self.new.before.items self.new.stop result) }
    {
        if let Some(stop) = self.stop {
            return Err(stop);
        }
        let mut items = Vec::new(alloc);
        match self.reader.feed(alloc, piece, &mut items) {
            Ok(used) => Ok(Fed { items, used }),
            Err(stop) => {
                self.before = items;
                self.stop = Some(stop);
                Err(stop)
            }
        }
    }

    /// The state, of the unit that stands next.
    pub fn units(&self) -> &U
        ensures { result.now ≡ self.now.reader.0 }
    {
        self.reader.units()
    }

    /// The items that became whole in the refused piece before the break. Lent: see `take_before`.
    pub fn before(&self) -> &[U::Item]
        ensures { result.now ≡ self.now.before.items }
    {
        &self.before
    }

    /// Gives the items that `before` lends, and keeps none of them. It takes no memory.
    pub fn take_before(&mut self, alloc: Global) -> Vec<U::Item>
        ensures items { result.items ≡ self.old.before.items }
        ensures left { self.new.before.items ≡ [] }
        ensures reader { self.new.reader ≡ self.old.reader }
        ensures stop { self.new.stop ≡ self.old.stop }
    {
        mem::replace(&mut self.before, Vec::new(alloc))
    }
}
