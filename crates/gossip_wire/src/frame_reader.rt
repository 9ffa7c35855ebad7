// Reading frames from bytes that come in pieces.
ghost use Rattle.std.specs.Prelude.{◌≡◌, ◌++◌, ◌∷◌, ◌<◌, ℕ, List, [], None, Some, Ok, Err, IfSome};
ghost use Rattle.std.specs.Prelude.{IfNone, IfOk, IfErr, OnOk, length};
ghost use Rattle.unit_reader.specs.Units.{Turned};
ghost use Rattle.gossip_wire.specs.FrameReaders.{AddsFrame, BreaksAs, BreaksBehind, GaveFrames};
ghost use Rattle.gossip_wire.specs.FrameReaders.{HasReadFrames, RefusesFrame, fault_of};
ghost use Rattle.gossip_wire.specs.FrameReaders.{frames_from, state_of};
ghost use Rattle.gossip_wire.specs.FramesSpelled.{rest_of};
ghost use Rattle.gossip_wire.specs.Recordings.{IsInUnit};
ghost use Rattle.gossip_wire.specs.Judging.{judge, never};
ghost use Rattle.gossip_wire.specs.declared.frame.Frame.{Frame as Whole};

use crate::bodies::frame_in;
use crate::units::{Field, FrameBreak, FrameUnits, UnreadFrame};
use crate::{Frame, FrameFault};
use std::alloc::Global;
use unit_reader::{Stop, UnitReader};

/// Reads frames from bytes that come in pieces of any length.
#[derive(Drop)]
pub struct FrameReader {
    reader: UnitReader<FrameUnits>,
    before: Vec<(u64, Frame)>,
    stop: Option<FrameFault>,
}

// The same fault in the words of frames.
fn fault_in(stop: Stop<FrameBreak>) -> FrameFault
    ensures { result ≡ fault_of stop }
{
    match stop {
        Stop::Broken(FrameBreak::BadMagic(place)) => FrameFault::BadMagic(place),
        Stop::Broken(FrameBreak::LongVarint(place)) => FrameFault::LongVarint(place),
        Stop::Broken(FrameBreak::TooLong(place)) => FrameFault::TooLong(place),
        Stop::Broken(FrameBreak::BadKind(place)) => FrameFault::BadKind(place),
        Stop::NoMemory => FrameFault::NoMemory,
    }
}

// Takes bytes up to the next look, and answers how many, and the frame that they complete, if they
// complete one.
fn turn(
    reader: &mut UnitReader<FrameUnits>,
    alloc: Global,
    piece: &[u8],
) -> Result<(usize, Option<UnreadFrame>), FrameFault>
    requires { 0 < length piece.now }
    ensures ok { IfOk result (λ r. Turned never judge reader.old.0 reader.old.1 piece.now
        reader.new.0 reader.new.1 r.0 r.1) }
    ensures err { IfErr result (BreaksBehind (frames_from reader.old piece.now) []) }
{
    match reader.turn(alloc, piece) {
        Ok(turned) => Ok(turned),
        Err(stop) => Err(fault_in(stop)),
    }
}

// Adds the frame of a stream and a payload, if there is one.
fn add(
    alloc: Global,
    frames: &mut Vec<(u64, Frame)>,
    unread: Option<UnreadFrame>,
) -> Result<(), FrameFault>
    ensures ok { OnOk result (AddsFrame unread frames.old.items frames.new.items) }
    ensures err { IfErr result (RefusesFrame unread frames.old.items frames.new.items) }
{
    let Some(unread) = unread else {
        return Ok(());
    };
    let frame = frame_in(alloc, unread)?;
    if frames.push(frame).is_err() {
        return Err(FrameFault::NoMemory);
    }
    Ok(())
}

// Reads a piece, and adds the frames that it completes.
fn read_piece(
    reader: &mut UnitReader<FrameUnits>,
    alloc: Global,
    piece: &[u8],
    frames: &mut Vec<(u64, Frame)>,
) -> Result<(), FrameFault>
    requires { frames.old.items ≡ [] }
    ensures ok { OnOk result
        (GaveFrames reader.old reader.new piece.now (length piece.now) frames.new.items) }
    ensures err { IfErr result (BreaksBehind (frames_from reader.old piece.now) frames.new.items) }
{
    let mut used = 0;
    'pieces: while used < piece.len() {
        let (n, unread) = turn(reader, alloc, &piece[used..])?;
        add(alloc, frames, unread)?;
        used += n;
    }
    Ok(())
}

impl FrameReader {
    /// A reader at the first byte of the first frame. It takes no memory.
    pub fn new(alloc: Global) -> Self
        ensures { HasReadFrames [] [] result }
    {
        FrameReader {
            reader: UnitReader::new(alloc, FrameUnits::new()),
            before: Vec::new(alloc),
            stop: None,
        }
    }

    /// Reads a piece, and answers the frames that became whole, each with its place in bytes from
    /// the first. A refusal comes as soon as the bytes show it. After any the answer stays the
    /// same, whatever is fed.
    pub fn feed(&mut self, alloc: Global, piece: &[u8]) -> Result<Vec<(u64, Frame)>, FrameFault>
        ensures stopped { IfSome self.old.stop
            (λ fault. (result ≡ Err fault) × (self.new ≡ self.old)) }
        ensures ok { IfOk result (λ got. (fed : List ℕ) (frames : List (ℕ × Whole))
            → HasReadFrames fed frames self.old
            → HasReadFrames (fed ++ piece.now) (frames ++ got.items) self.new) }
        ensures err { IfErr result (λ fault. (fed : List ℕ) (frames : List (ℕ × Whole))
            → HasReadFrames fed frames self.old
            → BreaksAs (fed ++ piece.now) frames self.new fault) }
    {
        if let Some(stop) = self.stop {
            return Err(stop);
        }
        let mut frames = Vec::new(alloc);
        match read_piece(&mut self.reader, alloc, piece, &mut frames) {
            Ok(()) => Ok(frames),
            Err(fault) => {
                self.before = frames;
                self.stop = Some(fault);
                Err(fault)
            }
        }
    }

    /// Where the unit begins in which the bytes end that were fed, in bytes from the first; `None`
    /// where they end between frames. It takes no memory.
    pub fn unfinished(&self) -> Option<u64>
        ensures none { IfNone result (rest_of self.now ≡ []) }
        ensures some { IfSome result (IsInUnit (state_of self.now)) }
    {
        let units = self.reader.units();
        match units.next {
            Field::Magic if self.reader.is_between() => None,
            _ => Some(units.field),
        }
    }

    /// The frames that became whole in the refused piece before the break, each with its place. It
    /// takes no memory.
    pub fn before(&self) -> &[(u64, Frame)]
        ensures { result.now ≡ self.now.before.items }
    {
        &self.before
    }
}
