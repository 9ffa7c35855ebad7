// Frames in pieces.
use crate::wires::link_answer;
use gossip_wire::{Body, Frame, FrameFault, FrameReader, read_message, write_frame};
use rad_base::{Varint, read_varint};
use std::alloc::Global;
use told_rows::pieces::{Agreed, ways};
use told_rows::rows::Row;
use told_rows::texts::{Line, text};
use told_rows::words::bytes_of;

/// The table of frames.
#[derive(Clone, Copy)]
pub struct Frames;

/// How bytes end behind their frames.
#[derive(Clone, Copy)]
pub enum End {
    /// Between frames.
    Whole,
    /// In the unit that begins here.
    Inside(u64),
    /// They are refused so.
    Broken(FrameFault),
}

/// Frames that came in turn.
#[derive(Drop)]
pub struct Came {
    words: Line,
    // Where the next frame begins.
    place: u64,
    otherwise: bool,
}

// The word of a kind of frame.
fn word_of(body: &Body) -> &'static str {
    match body {
        Body::Control(_) => "control",
        Body::Gossip(_) => "gossip",
        Body::Git(_) => "git",
    }
}

// The number at a place, and the place behind it.
fn number_at(bytes: &[u8], place: usize) -> Option<(u64, usize)> {
    match read_varint(bytes.get(place..)?) {
        Varint::Value(value, length) => Some((value, place.checked_add(length)?)),
        _ => None,
    }
}

// The bytes of the frame that begins at a place, and its payload.
fn bounds(bytes: &[u8], place: u64) -> Option<(&[u8], &[u8])> {
    let place = usize::try_from(place).ok()?;
    let (_, behind) = number_at(bytes, place.checked_add(4)?)?;
    let (length, first) = number_at(bytes, behind)?;
    let end = first.checked_add(usize::try_from(length).ok()?)?;
    Some((bytes.get(place..end)?, bytes.get(first..end)?))
}

// Whether a message's payload in a frame of this number and side is spelled so.
fn is_spelled(
    alloc: Global,
    number: u64,
    side: u8,
    payload: &[u8],
    spelling: &[u8],
) -> Option<bool> {
    if side > 1 {
        return Some(false);
    }
    let message = read_message(alloc, payload).ok()?;
    let frame = Frame {
        number,
        side,
        body: Body::Gossip(message),
    };
    let bytes = write_frame(alloc, &frame).ok()?;
    Some(bytes.as_slice() == spelling)
}

// The word of a refusal, and its place. None: memory was refused.
fn fault_of(fault: FrameFault) -> Option<(&'static str, u64)> {
    match fault {
        FrameFault::BadMagic(place) => Some(("BadMagic", place)),
        FrameFault::LongVarint(place) => Some(("LongVarint", place)),
        FrameFault::TooLong(place) => Some(("TooLong", place)),
        FrameFault::BadKind(place) => Some(("BadKind", place)),
        FrameFault::BadBody(place) => Some(("BadBody", place)),
        FrameFault::NoMemory => None,
    }
}

impl Came {
    /// No frame.
    pub fn new(alloc: Global) -> Self {
        Came {
            words: Line::new(alloc),
            place: 0,
            otherwise: false,
        }
    }

    /// Adds a frame of these bytes.
    pub fn add(&mut self, alloc: Global, place: u64, frame: &Frame, bytes: &[u8]) -> Option<()> {
        let (number, side) = (frame.number, frame.side);
        let word = word_of(&frame.body);
        let line = format!(in alloc; "{place}:{word}:{number}:{side}").ok()?;
        self.words.word(line.as_str())?;
        let (spelling, payload) = bounds(bytes, place)?;
        if let Body::Gossip(_) = &frame.body {
            if !is_spelled(alloc, number, side, payload, spelling)? {
                self.otherwise = true;
            }
        }
        self.place = place.checked_add(spelling.len() as u64)?;
        Some(())
    }

    // Adds frames of these bytes.
    fn add_all(&mut self, alloc: Global, frames: &[(u64, Frame)], bytes: &[u8]) -> Option<()> {
        for (place, frame) in frames {
            self.add(alloc, *place, frame, bytes)?;
        }
        Some(())
    }

    /// The words of the frames, and of the end.
    pub fn told(self, alloc: Global, end: End) -> Option<String> {
        if self.otherwise {
            return text(alloc, "written otherwise");
        }
        let next = self.place;
        let words = self.words.into_string();
        match end {
            End::Whole => format!(in alloc; "{words} | end").ok(),
            End::Inside(place) => format!(in alloc; "{words} | inside {place}").ok(),
            End::Broken(fault) => {
                let (word, place) = fault_of(fault)?;
                format!(in alloc; "{words} | {word} {place} {next}").ok()
            }
        }
    }
}

// What pieces are read as. A refusal stays, whatever is fed.
fn read(alloc: Global, pieces: &[&[u8]], bytes: &[u8]) -> Option<String> {
    let mut reader = FrameReader::new(alloc);
    let mut came = Came::new(alloc);
    let mut refused = None;
    for piece in pieces {
        match reader.feed(alloc, piece) {
            Ok(frames) => came.add_all(alloc, &frames, bytes)?,
            Err(fault) => {
                if refused.is_none() {
                    came.add_all(alloc, reader.before(), bytes)?;
                }
                refused = Some(fault);
            }
        }
    }
    let end = match (refused, reader.unfinished()) {
        (Some(fault), _) => End::Broken(fault),
        (None, Some(place)) => End::Inside(place),
        (None, None) => End::Whole,
    };
    came.told(alloc, end)
}

impl Row for Frames {
    // The frames and how the bytes end behind them, however they are cut, and from a link.
    fn answer(&self, alloc: Global, asked: &str) -> Option<String> {
        let bytes = bytes_of(alloc, asked)?;
        let mut agreed = Agreed::new();
        for pieces in &ways(alloc, &bytes)? {
            agreed.add(read(alloc, pieces, &bytes)?);
        }
        agreed.add(link_answer(alloc, &bytes)?);
        agreed.text(alloc)
    }
}
