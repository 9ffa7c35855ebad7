// Reading a section from pieces of any length.
ghost use Rattle.std.specs.Prelude.{◌≡◌, ℕ, List, [], None, Err, IfSome};
ghost use Rattle.fetch_wire.specs.declared.part.Part.{Part};
ghost use Rattle.fetch_wire.specs.SectionReaders.{FeedsSection, HasRead, before_of, fault_of, refused_as, unit_of};
ghost use Rattle.fetch_wire.specs.declared.part.Which.{Which as Kind};

use crate::units::SectionUnits;
use crate::{Part, Parts, SectionFault, Which};
use std::alloc::Global;
use unit_reader::{PieceReader, Stop};

/// What a piece of a section gave.
#[derive(Debug, Drop)]
pub struct Fed {
    /// The parts that became whole.
    pub parts: Parts,
    /// How many bytes of the piece were used: all of them, where the section did not end.
    pub used: usize,
    /// Whether the section has ended, by its end word or a refusal.
    pub done: bool,
}

/// Reads one section from bytes that come in pieces. Behind its end nothing is used.
#[derive(Drop)]
pub struct SectionReader {
    reader: PieceReader<SectionUnits>,
}

// The same fault in the words of sections.
fn fault_in(stop: Stop<crate::Break>) -> SectionFault
    ensures { result ≡ fault_of stop }
{
    match stop {
        Stop::Broken(broken) => SectionFault::Bad(broken),
        Stop::NoMemory => SectionFault::NoMemory,
    }
}

impl SectionReader {
    /// A reader of a section of this kind, at its first byte. It takes no memory.
    pub fn new(alloc: Global, which: Which) -> Self
        ensures { HasRead which [] [] result }
    {
        SectionReader {
            reader: PieceReader::new(alloc, SectionUnits::new(alloc, which)),
        }
    }

    /// Reads a piece. `Bad` says where the section is broken, as soon as the bytes show it;
    /// `NoMemory` that memory was refused. After either the answer stays the same, whatever is fed.
    pub fn feed(&mut self, alloc: Global, piece: &[u8]) -> Result<Fed, SectionFault>
        ensures stopped { IfSome (refused_as self.old)
            (λ fault. (result ≡ Err fault) × (self.new ≡ self.old)) }
        ensures fed { (which : Kind) (fed : List ℕ) (parts : List Part)
            → HasRead which fed parts self.old
            → FeedsSection which fed parts piece.now self.new result }
    {
        match self.reader.feed(alloc, piece) {
            Ok(fed) => Ok(Fed {
                parts: Parts::of(fed.items),
                used: fed.used,
                done: self.reader.units().is_over(),
            }),
            Err(stop) => Err(fault_in(stop)),
        }
    }

    /// Where the unit begins that stands next, in bytes from the section's first.
    pub fn place(&self) -> u64
        ensures { result ≡ (unit_of self.now).place }
    {
        self.reader.units().place
    }

    /// The parts that became whole in the refused piece before the break.
    pub fn before(&self) -> &[Part]
        ensures { result.now ≡ before_of self.now }
    {
        self.reader.before()
    }

    /// Gives the parts that `before` lends, and keeps none of them. It takes no memory.
    pub fn take_before(&mut self, alloc: Global) -> Parts
        ensures parts { result ≡ before_of self.old }
        ensures left { before_of self.new ≡ [] }
        ensures fault { refused_as self.new ≡ refused_as self.old }
    {
        Parts::of(self.reader.take_before(alloc))
    }
}
