// The bodies of frames, by their kind.
ghost use Rattle.std.specs.Prelude.{◌≡◌, ℕ, List, IfOk, IfErr, IfSome, IfNone, IsTrue};
ghost use Rattle.hex.specs.Hex.{IsBytes};
ghost use Rattle.gossip_wire.specs.Frames.{IsControl};
ghost use Rattle.gossip_wire.specs.FrameReaders.{IsBodyOf, IsReadAs, Refuses};
ghost use Rattle.gossip_wire.specs.declared.frame.Body.{Body};

use crate::units::UnreadFrame;
use crate::{Body, Frame, FrameFault, MessageFault, read_message};
use rad_base::{Bytes, NoMemory, Varint, read_varint};
use std::alloc::Global;

// Whether the bytes are a byte 0 or 1 and a number.
fn is_control(bytes: &[u8]) -> bool
    ensures yes { IsTrue result → IsControl bytes.now }
    ensures no { IsControl bytes.now → IsTrue result }
{
    let Some((first, rest)) = bytes.split_first() else {
        return false;
    };
    if *first >= 2 {
        return false;
    }
    match read_varint(rest) {
        Varint::Value(_, size) => size == rest.len(),
        Varint::Short => false,
        Varint::Long => false,
    }
}

// The control body that a payload is.
fn control_in(payload: Bytes) -> Option<Body>
    ensures found { IfSome result (IsBodyOf 0 payload) }
    ensures none { IfNone result ((body : Body) → IsBodyOf 0 payload body → ⊥) }
{
    if is_control(payload.as_slice()) {
        Some(Body::Control(payload))
    } else {
        None
    }
}

// The message that a payload is.
fn gossip_in(alloc: Global, payload: &[u8]) -> Result<Option<Body>, NoMemory>
    ensures found { IfOk result (λ found. IfSome found (IsBodyOf 1 payload.now)) }
    ensures none { IfOk result (λ found. IfNone found
        ((body : Body) → IsBodyOf 1 payload.now body → ⊥)) }
{
    match read_message(alloc, payload) {
        Ok(message) => Ok(Some(Body::Gossip(message))),
        Err(MessageFault::BadBody) => Ok(None),
        Err(MessageFault::NoMemory) => Err(NoMemory),
    }
}

/// Each byte is below 256, as its type says.
pub(crate) fn are_bytes(bytes: &[u8])
    ensures { IsBytes bytes.now }
{
    let _ = bytes;
}

// The body of git's bytes.
fn git_of(payload: Bytes) -> Body
    ensures { IsBodyOf 2 payload result }
{
    are_bytes(payload.as_slice());
    Body::Git(payload)
}

// The body of a kind that a payload is.
fn body_in(alloc: Global, kind: u64, payload: Bytes) -> Result<Option<Body>, NoMemory>
    ensures found { IfOk result (λ found. IfSome found (IsBodyOf kind payload)) }
    ensures none { IfOk result (λ found. IfNone found
        ((body : Body) → IsBodyOf kind payload body → ⊥)) }
{
    match kind {
        0 => Ok(control_in(payload)),
        1 => gossip_in(alloc, payload.as_slice()),
        2 => Ok(Some(git_of(payload))),
        _ => Ok(None),
    }
}

/// The frame of a stream and a payload, with its place. `BadBody`: the payload is no body of the
/// stream's kind. `NoMemory`: memory for it was refused.
pub(crate) fn frame_in(alloc: Global, unread: UnreadFrame) -> Result<(u64, Frame), FrameFault>
    ensures found { IfOk result (IsReadAs unread) }
    ensures none { IfErr result (Refuses unread) }
{
    let place = unread.place;
    let inside = unread.inside;
    let stream = unread.stream;
    match body_in(alloc, stream % 8 / 2, unread.payload) {
        Ok(Some(body)) => {
            let frame = Frame {
                number: stream / 8,
                side: (stream % 2) as u8,
                body,
            };
            Ok((place, frame))
        }
        Ok(None) => Err(FrameFault::BadBody(inside)),
        Err(NoMemory) => Err(FrameFault::NoMemory),
    }
}
