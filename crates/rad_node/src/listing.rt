// The listing of the frames that an input spells.
ghost use Rattle.std.specs.Prelude.{◌≡◌, ◌++◌, ◌≤◌, ◌<◌, ℕ, List, Option, IfErr, IfOk, OnOk, length};
ghost use Rattle.std.specs.Io.KnownBytes.{Consumes, IsAtEnd, Keeps};
ghost use Rattle.hex.specs.Hex.{IsBytes};
ghost use Rattle.rad_base.specs.Faults.{Rose};
ghost use Rattle.gossip_wire.specs.FrameReaders.{HasReadFrames};
ghost use Rattle.gossip_wire.specs.Recordings.{place_of};
ghost use Rattle.gossip_wire.specs.declared.frame.Frame.{Frame as Whole};
ghost use Rattle.rad_node.specs.Listing.{HasListed, HasListedAll, HasReadSome, Listed, ListsMore};
ghost use Rattle.rad_node.specs.Listing.{ListsOn, StopsListing, status_at_fault};
ghost use Rattle.rad_node.specs.Runs.{HasReport};
ghost use Rattle.rad_node.specs.Statuses.{IsCaused};
ghost use Rattle.rad_node.specs.Transfers.{GivesBy};

use crate::report::give_report;
use crate::status::{Status, WhichSource};
use crate::transfer::{PIECE, zeros};
use gossip_wire::{FrameFault, FrameReader};
use rad_base::NoMemory;
use rad_outside::{Failed, Sink, Source};
use report_texts::push_frames;
use std::alloc::Global;

/// The most bytes that are read of an input.
const LIMIT: u64 = 1_073_741_824;

// The end of a run whose frames are broken so.
fn status_at(fault: FrameFault) -> Status
    ensures { result ≡ status_at_fault (place_of fault) }
{
    match fault.place() {
        Some(place) => Status::InputBad(place),
        None => Status::NoMemory,
    }
}

// Each byte is below 256, as its type says.
fn are_bytes(bytes: &[u8])
    ensures { IsBytes bytes.now }
{
    let _ = bytes;
}

// Reads a piece, and adds the lines of the frames that it completes.
fn list_piece(
    alloc: Global,
    reader: &mut FrameReader,
    piece: &[u8],
    text: &mut Vec<u8>,
) -> Result<(), Status>
    requires { HasReadSome reader.old }
    ensures bytes { IsBytes piece.now }
    ensures ok { OnOk result ((fed : List ℕ) (frames : List (ℕ × Whole))
        → HasReadFrames fed frames reader.old
        → ListsMore fed frames piece.now reader.new text.old.items text.new.items) }
    ensures err { IfErr result (λ status. (fed : List ℕ) (frames : List (ℕ × Whole))
        → HasReadFrames fed frames reader.old → StopsListing (fed ++ piece.now) status) }
    ensures other { IfErr result (λ status. status ≡ Status.ReadFault WhichSource.Input → ⊥) }
{
    are_bytes(piece);
    let frames = match reader.feed(alloc, piece) {
        Ok(frames) => frames,
        Err(fault) => return Err(status_at(fault)),
    };
    match push_frames(text, &frames) {
        Ok(()) => Ok(()),
        Err(NoMemory) => Err(Status::NoMemory),
    }
}

// Reads a piece of an input by a buffer, and lists the frames that it completes. It answers how many
// bytes it has, of which there may be so many: 0 at the end, which is between frames.
fn list_next<I: Source>(
    alloc: Global,
    input: &mut I,
    piece: &mut [u8],
    reader: &mut FrameReader,
    text: &mut Vec<u8>,
    room: usize,
) -> Result<usize, Status>
    requires some { 0 < length piece.old }
    requires read { HasReadSome reader.old }
    ensures later { I.faults input.old ≤ I.faults input.new }
    ensures size { length piece.new ≡ length piece.old }
    ensures ok { IfOk result (λ n. (old : Option (List ℕ))
        → HasListed old (I.left input.old) reader.old text.old.items room
        → ListsOn old (I.left input.new) (IsAtEnd (I.left input.new)) reader.new
        text.new.items room n) }
    ensures err { IfErr result (λ status. (old : Option (List ℕ))
        → HasListed old (I.left input.old) reader.old text.old.items room
        → Listed (Consumes old (I.left input.new)) (IsAtEnd (I.left input.new)) (λ text. ⊥)
        status) }
    ensures cause { IfErr result (λ status. status ≡ Status.ReadFault WhichSource.Input
        → Rose (I.faults input.old) (I.faults input.new)) }
{
    let n = match input.take(piece) {
        Ok(n) => n,
        Err(Failed) => return Err(Status::ReadFault(WhichSource::Input)),
    };
    if n == 0 {
        return match reader.unfinished() {
            None => Ok(0),
            Some(place) => Err(Status::InputBad(place)),
        };
    }
    let read = n.min(room);
    list_piece(alloc, reader, &piece[..read], text)?;
    if read < n {
        return Err(Status::InputBad(LIMIT));
    }
    Ok(n)
}

// The lines of the frames that an input spells. It takes its bytes to the end, or to the first that
// shows a broken frame, or past the limit.
fn list_all<I: Source>(alloc: Global, input: &mut I) -> Result<Vec<u8>, Status>
    ensures later { I.faults input.old ≤ I.faults input.new }
    ensures ok { IfOk result (λ text. HasListedAll (I.left input.old) (I.left input.new)
        (IsAtEnd (I.left input.new)) text.items) }
    ensures err { IfErr result (Listed (Consumes (I.left input.old) (I.left input.new))
        (IsAtEnd (I.left input.new)) (λ text. ⊥)) }
    ensures cause { IfErr result (λ status. status ≡ Status.ReadFault WhichSource.Input
        → Rose (I.faults input.old) (I.faults input.new)) }
{
    let mut reader = FrameReader::new(alloc);
    let mut text = Vec::new(alloc);
    let mut piece = match zeros(alloc, PIECE) {
        Ok(piece) => piece,
        Err(_) => return Err(Status::NoMemory),
    };
    let mut room = LIMIT as usize;
    'reading: loop {
        match list_next(alloc, input, &mut piece, &mut reader, &mut text, room) {
            Ok(0) => return Ok(text),
            Ok(n) => room -= n,
            Err(status) => return Err(status),
        }
    }
}

/// Lists the frames that an input spells, a line each. `InputBad`: the place of the first unit that is
/// broken, or inside which the input ends; or 1,073,741,824 where it is longer than that and no unit
/// of those bytes is broken. `ReadFault`: a take failed. `WriteFault`: the sink failed, and was given
/// a prefix of the list. `NoMemory`: memory was refused.
pub(crate) fn list_frames<I: Source, W: Sink>(alloc: Global, input: &mut I, out: &mut W) -> Status
    ensures cause { IsCaused result ⊥ (Rose (I.faults input.old) (I.faults input.new)) ⊥
        (Rose (W.faults out.old) (W.faults out.new)) }
    ensures done { Listed (Consumes (I.left input.old) (I.left input.new))
        (IsAtEnd (I.left input.new)) (GivesBy result (W.given out.old) (W.given out.new)) result }
    ensures silent { (HasReport result → ⊥) → Keeps (W.given out.old) (W.given out.new) }
{
    match list_all(alloc, input) {
        Ok(text) => give_report(out, &text, false),
        Err(status) => status,
    }
}
