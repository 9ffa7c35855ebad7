// Frames of a link.
ghost use Rattle.std.specs.Prelude.{◌≡◌, ◌<◌, ◌≤◌, ◌↔◌, [], Err, None, IfErr, IfNone, IfOk, IfSome};
ghost use Rattle.std.specs.Prelude.{IsTrue, OnErr, OnOk, false, length, max};
ghost use Rattle.std.specs.Io.KnownBytes.{Appends};
ghost use Rattle.rad_base.specs.Faults.{Rose};
ghost use Rattle.rad_outside.specs.Causes.{HasCause};
ghost use Rattle.unit_reader.specs.Units.{Turned, only};
ghost use Rattle.gossip_wire.specs.FrameReaders.{AreRead, frames_from};
ghost use Rattle.gossip_wire.specs.Judging.{judge, never};
ghost use Rattle.gossip_wire.specs.Wires.{RefusesAs, StopsAs};

use crate::bodies::frame_in;
use crate::units::{Field, FrameUnits, UnreadFrame};
use crate::window::Window;
use crate::wire_fault::{fault_of_frame, fault_of_unit};
use crate::{Frame, WireFault};
use rad_outside::{Failed, Link, Sink};
use std::alloc::Global;
use unit_reader::UnitReader;

/// Reads frames from a link, and writes to it.
#[derive(Drop)]
pub struct Wire<L> {
    link: L,
    reader: UnitReader<FrameUnits>,
    window: Window,
    // How many bytes were read since the link's first, and how many may be.
    place: u64,
    budget: u64,
    // What it answers from now on, if it reads no more.
    stop: Option<WireFault>,
}

// Takes bytes up to the next look, and answers how many, and the stream and payload that they
// complete, if they complete them.
fn turn(
    reader: &mut UnitReader<FrameUnits>,
    alloc: Global,
    piece: &[u8],
) -> Result<(usize, Option<UnreadFrame>), WireFault>
    requires { 0 < length piece.now }
    ensures ok { IfOk result (λ r. Turned never judge reader.old.0 reader.old.1 piece.now
        reader.new.0 reader.new.1 r.0 r.1) }
    ensures err { IfErr result (StopsAs (frames_from reader.old piece.now)) }
{
    match reader.turn(alloc, piece) {
        Ok(turned) => Ok(turned),
        Err(stop) => Err(fault_of_unit(stop)),
    }
}

// The frame of a stream and a payload, if there is one.
fn frame_of(alloc: Global, unread: Option<UnreadFrame>) -> Result<Option<(u64, Frame)>, WireFault>
    ensures ok { IfOk result (λ frame. AreRead (only unread) (only frame)) }
    ensures err { IfErr result (RefusesAs unread) }
{
    let Some(unread) = unread else {
        return Ok(None);
    };
    match frame_in(alloc, unread) {
        Ok(frame) => Ok(Some(frame)),
        Err(fault) => Err(fault_of_frame(fault)),
    }
}

impl<L: Link + Drop> Wire<L> {
    ghost use Rattle.gossip_wire.specs.Wires.{Answers, FailsAs, GivesFront, IsBetween, IsOver};
    ghost use Rattle.gossip_wire.specs.Wires.{Reads, Stops, kept_after, nothing_read, seen};
    ghost use Rattle.gossip_wire.specs.declared.wire_fault.WireFault.TheVariants as fault;

    /// A wire over a link, of which at most `budget` bytes are read. It takes no memory.
    pub fn new(alloc: Global, link: L, budget: u64) -> Self
        ensures seen { seen result (L.left link) ≡ nothing_read budget (L.left link) }
        ensures link { result.link ≡ link }
        ensures goes_on { result.stop ≡ None }
    {
        Wire {
            link,
            reader: UnitReader::new(alloc, FrameUnits::new()),
            window: Window::new(alloc),
            place: 0,
            budget,
            stop: None,
        }
    }

    /// The next frame, with its place in bytes from the link's first. None at the link's end, if
    /// that is between frames. `LinkFault`: the link failed, and the wire can go on. `Inside`: the
    /// link ended inside the unit that begins there. `TooLong`: the budget ended before the next
    /// frame, and the link has more. After `Spoilt` and `NoMemory` the answer stays the same.
    pub fn next(&mut self, alloc: Global) -> Result<Option<(u64, Frame)>, WireFault>
        ensures stopped { IfSome self.old.stop
            (λ stop. (result ≡ Err stop) × (self.new ≡ self.old)) }
        ensures next { IfNone self.old.stop (Answers (seen self.old (L.left self.old.link))
            (seen self.new (L.left self.new.link))
            (Rose (L.Source.faults self.old.link) (L.Source.faults self.new.link)) result) }
        ensures kept { IfNone self.old.stop (self.new.stop ≡ kept_after result) }
        ensures given { L.given self.new.link ≡ L.given self.old.link }
        ensures later { L.Source.faults self.old.link ≤ L.Source.faults self.new.link }
        ensures loan { L.Source.loan self.new.link ≡ L.Source.loan self.old.link }
    {
        if let Some(stop) = self.stop {
            return Err(stop);
        }
        match self.read_frame(alloc) {
            Ok(frame) => Ok(frame),
            Err(fault) => {
                self.stop = fault.kept();
                Err(fault)
            }
        }
    }

    fn read_frame(&mut self, alloc: Global) -> Result<Option<(u64, Frame)>, WireFault>
        ensures next { Answers (seen self.old (L.left self.old.link))
            (seen self.new (L.left self.new.link))
            (Rose (L.Source.faults self.old.link) (L.Source.faults self.new.link)) result }
        ensures stop { self.new.stop ≡ self.old.stop }
        ensures given { L.given self.new.link ≡ L.given self.old.link }
        ensures later { L.Source.faults self.old.link ≤ L.Source.faults self.new.link }
        ensures loan { L.Source.loan self.new.link ≡ L.Source.loan self.old.link }
    {
        'bytes: loop {
            if !self.refill()? {
                return self.at_end();
            }
            if self.place >= self.budget {
                return Err(WireFault::TooLong);
            }
            match self.read_on(alloc)? {
                Some(frame) => return Ok(Some(frame)),
                None => {}
            }
        }
    }

    // Takes bytes from the link, where all that were taken are read. False at its end.
    fn refill(&mut self) -> Result<bool, WireFault>
        ensures ok { IfOk result (λ more. Reads (seen self.old (L.left self.old.link))
            (seen self.new (L.left self.new.link)) []
            × (IsTrue more ↔ (0 < length self.new.window))
            × (more ≡ false → IsOver (seen self.new (L.left self.new.link)))) }
        ensures err { IfErr result (λ fault. Reads (seen self.old (L.left self.old.link))
            (seen self.new (L.left self.new.link)) []
            × FailsAs (Rose (L.Source.faults self.old.link) (L.Source.faults self.new.link))
            fault) }
        ensures same { (self.new.stop ≡ self.old.stop) × (self.new.place ≡ self.old.place)
            × (self.new.budget ≡ self.old.budget) }
        ensures given { L.given self.new.link ≡ L.given self.old.link }
        ensures later { L.Source.faults self.old.link ≤ L.Source.faults self.new.link }
        ensures loan { L.Source.loan self.new.link ≡ L.Source.loan self.old.link }
    {
        if self.window.is_empty() {
            return self.window.fill(&mut self.link);
        }
        Ok(true)
    }

    // What the link's end means.
    fn at_end(&self) -> Result<Option<(u64, Frame)>, WireFault>
        ensures ok { IfOk result (λ none. (none ≡ None)
            × IsBetween (seen self.now (L.left self.now.link))) }
        ensures err { IfErr result (λ e. (e ≡ fault.Inside self.now.reader.0.field)
            × (IsBetween (seen self.now (L.left self.now.link)) → ⊥)) }
    {
        let units = self.reader.units();
        if units.next == Field::Magic && self.reader.is_between() {
            Ok(None)
        } else {
            Err(WireFault::Inside(units.field))
        }
    }

    // Reads bytes that were taken, up to the next look.
    fn read_on(&mut self, alloc: Global) -> Result<Option<(u64, Frame)>, WireFault>
        requires some { 0 < length self.old.window }
        requires allowed { self.old.place < self.old.budget }
        ensures ok { IfOk result (λ frame. Reads (seen self.old (L.left self.old.link))
            (seen self.new (L.left self.new.link)) (only frame)
            × (self.old.place < self.new.place)) }
        ensures err { IfErr result (Stops (seen self.old (L.left self.old.link))
            (seen self.new (L.left self.new.link))) }
        ensures same { (self.new.link ≡ self.old.link) × (self.new.stop ≡ self.old.stop)
            × (self.new.budget ≡ self.old.budget) }
    {
        let piece = self.window.front(self.budget - self.place);
        let (used, unread) = turn(&mut self.reader, alloc, piece)?;
        self.window.pass(used);
        self.place += used as u64;
        frame_of(alloc, unread)
    }

    /// Sets the budget, which counts from the link's first byte. One that is below the former
    /// leaves it. It takes no memory.
    pub fn raise(&mut self, budget: u64)
        ensures { self.new ≡ record self.old { budget = max self.old.budget budget } }
    {
        self.budget = self.budget.max(budget);
    }

    /// Gives all the bytes to the link. `Failed`: it failed, and has a front of them. It takes no
    /// memory.
    pub fn send(&mut self, bytes: &[u8]) -> Result<(), Failed>
        ensures sent { OnOk result
            (Appends (L.given self.old.link) (L.given self.new.link) bytes.now) }
        ensures failed { OnErr result
            (GivesFront (L.given self.old.link) (L.given self.new.link) bytes.now) }
        ensures cause { HasCause (L.Sink.faults self.old.link) (L.Sink.faults self.new.link)
            result }
        ensures left { L.left self.new.link ≡ L.left self.old.link }
        ensures same { self.new ≡ record self.old { link = self.new.link } }
        ensures loan { L.Source.loan self.new.link ≡ L.Source.loan self.old.link }
    {
        let mut given = 0;
        'bytes: while given < bytes.len() {
            given += self.link.give(&bytes[given..])?;
        }
        Ok(())
    }

    /// Gives the link back.
    pub fn close(self) -> L
        ensures { result ≡ self.link }
    {
        let Wire {
            link,
            reader: _,
            window: _,
            place: _,
            budget: _,
            stop: _,
        } = self;
        link
    }
}
