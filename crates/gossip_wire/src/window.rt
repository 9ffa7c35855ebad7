// Bytes that were taken from a source and are still to be read.
ghost use Rattle.std.specs.Prelude.{◌≡◌, ◌<◌, ◌≤◌, ◌↔◌, [], IfOk, IfErr, IsTrue, drop, length, take};
ghost use Rattle.std.specs.Io.KnownBytes.{Consumes};
ghost use Rattle.rad_base.specs.Faults.{Rose};
ghost use Rattle.gossip_wire.specs.Wires.{FailsAs, FillsAs};

use crate::WireFault;
use rad_outside::{Failed, Source};
use std::alloc::Global;
use std::marker::Model;

// How many bytes are taken at a time.
const PIECE: usize = 65_536;

/// Bytes that were taken and not read yet. Contracts see it as these bytes.
#[derive(Drop)]
pub struct Window {
    buffer: Vec<u8>,
    start: usize,
    end: usize,
}

impl Model for Window {
    ghost use Rattle.std.specs.Prelude.{◌≤◌, ℕ, List, length, slice_range};

    ghost Value = { List ℕ };

    ghost view = { λ w. slice_range w.buffer.items w.start w.end };

    ghost invariant = { λ w. (w.start ≤ w.end) × (w.end ≤ length w.buffer.items) };
}

impl Window {
    /// No bytes. It takes no memory.
    pub fn new(alloc: Global) -> Self
        ensures { result ≡ [] }
    {
        Window {
            buffer: Vec::new(alloc),
            start: 0,
            end: 0,
        }
    }

    /// Whether all that was taken is read.
    pub fn is_empty(&self) -> bool
        ensures { IsTrue result ↔ self.now ≡ [] }
    {
        self.start == self.end
    }

    /// The bytes that stand next, at most so many.
    pub fn front(&self, most: u64) -> &[u8]
        ensures { result.now ≡ take most self.now }
    {
        let all = &self.buffer[self.start..self.end];
        &all[..all.len().min(most as usize)]
    }

    /// So many bytes were read.
    pub fn pass(&mut self, count: usize)
        requires { count ≤ length self.old }
        ensures { self.new ≡ drop count self.old }
    {
        self.start += count;
    }

    /// Takes a piece of a source, where all bytes before are read. False at its end.
    pub fn fill<S: Source>(&mut self, source: &mut S) -> Result<bool, WireFault>
        requires { self.old ≡ [] }
        ensures ok { IfOk result (FillsAs (S.left source.old) (S.left source.new) self.new) }
        ensures err { IfErr result (λ fault. (self.new ≡ [])
            × Consumes (S.left source.old) (S.left source.new) []
            × FailsAs (Rose (S.faults source.old) (S.faults source.new)) fault) }
        ensures later { S.faults source.old ≤ S.faults source.new }
        ensures beside { S.beside source.new ≡ S.beside source.old }
        ensures loan { S.loan source.new ≡ S.loan source.old }
    {
        self.start = 0;
        self.end = 0;
        if !make_room(&mut self.buffer) {
            return Err(WireFault::NoMemory);
        }
        match source.take(&mut self.buffer) {
            Ok(taken) => {
                self.end = taken;
                Ok(taken > 0)
            }
            Err(Failed) => Err(WireFault::LinkFault),
        }
    }
}

// Takes the memory for a piece, where it was not taken yet. False: it was refused.
fn make_room(buffer: &mut Vec<u8>) -> bool
    ensures { IsTrue result → 0 < length buffer.new.items }
{
    !buffer.is_empty() || buffer.resize(PIECE, 0).is_ok()
}
