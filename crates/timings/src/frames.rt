// Frames of git's bytes that are read in pieces of a length.
ghost use Rattle.hex.specs.Hex.{IsBytes};
ghost use Rattle.gossip_wire.specs.Frames.{IsBody};

use crate::words::number_at;
use gossip_wire::{Body, Frame, FrameReader, write_frame};
use rad_base::Bytes;
use std::alloc::Global;

// Each byte is below 256, as its type says.
fn are_bytes(bytes: &[u8])
    ensures { IsBytes bytes.now }
{
    let _ = bytes;
}

// A body of git's bytes.
fn git(payload: Vec<u8>) -> Body
    ensures { IsBody result }
{
    are_bytes(&payload);
    Body::Git(Bytes::of(payload))
}

// The bytes of a frame with as long a payload as there may be.
fn frame(alloc: Global) -> Option<Vec<u8>> {
    let payload = vec![in alloc; 7u8; 65_535].ok()?;
    let frame = Frame {
        number: 0,
        side: 0,
        body: git(payload),
    };
    write_frame(alloc, &frame).ok()
}

// How many frames become whole in these bytes, fed in pieces of this length.
fn read(alloc: Global, reader: &mut FrameReader, bytes: &[u8], length: usize) -> Option<u64> {
    let mut count = 0u64;
    for piece in bytes.chunks(length.max(1)) {
        let frames = reader.feed(alloc, piece).ok()?;
        count = count.saturating_add(frames.len() as u64);
    }
    Some(count)
}

/// Reads a frame with a payload of 65,535 bytes so many times, each in pieces of this length, and
/// prints how many frames became whole.
pub fn tell(rt: &HostRuntime, times: u32, length: u32) -> Option<()> {
    let bytes = frame(rt.alloc())?;
    let mut reader = FrameReader::new(rt.alloc());
    let mut count = 0u64;
    for _ in 0..times {
        let more = read(rt.alloc(), &mut reader, &bytes, length as usize)?;
        count = count.saturating_add(more);
    }
    println!(rt; "frames {count}").ok()
}

/// Runs by the words: how many frames, and the length of a piece in bytes.
pub fn run(rt: &HostRuntime, words: &[String]) -> Option<()> {
    tell(rt, number_at(words, 0)?, number_at(words, 1)?)
}
