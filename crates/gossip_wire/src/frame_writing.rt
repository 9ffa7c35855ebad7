// Writing frames.
ghost use Rattle.std.specs.Prelude.{◌≡◌, ◌++◌, ◌<◌, ◌^◌, IfOk, OnOk, IsErrOf};
ghost use Rattle.rad_base.specs.Varint.{varint};
ghost use Rattle.gossip_wire.specs.Frames.{IsBody, IsTooLong, frame_text, kind_of, payload_of};
ghost use Rattle.gossip_wire.specs.declared.frame_writing.WriteFault.TheVariants as fault;

use crate::{Body, Frame, write_message};
use rad_base::{NoMemory, write_varint};
use std::alloc::{AllocError, Global};

/// Why a frame is not written.
#[derive(Clone, Copy, Debug, PartialEq, Eq)]
pub enum WriteFault {
    /// The payload has more than 65,535 bytes, or the stream is above 2^62 - 1.
    TooLong,
    /// Memory was refused.
    NoMemory,
}

impl From<NoMemory> for WriteFault {
    ghost use Rattle.std.specs.Prelude.{◌≡◌};
    ghost use Rattle.gossip_wire.specs.declared.frame_writing.WriteFault.TheVariants as fault;

    ghost from_gives = { λ _ e. e ≡ fault.NoMemory };

    fn from(_: NoMemory) -> Self {
        WriteFault::NoMemory
    }
}

impl From<AllocError> for WriteFault {
    ghost use Rattle.std.specs.Prelude.{◌≡◌};
    ghost use Rattle.gossip_wire.specs.declared.frame_writing.WriteFault.TheVariants as fault;

    ghost from_gives = { λ _ e. e ≡ fault.NoMemory };

    fn from(_: AllocError) -> Self {
        WriteFault::NoMemory
    }
}

// The bytes of a body.
fn payload_of(alloc: Global, body: &Body) -> Result<Vec<u8>, NoMemory>
    requires { IsBody body.now }
    ensures { IfOk result (λ bytes. bytes.items ≡ payload_of body.now) }
{
    match body {
        Body::Control(bytes) | Body::Git(bytes) => {
            let copy = bytes.as_slice().to_vec(alloc)?;
            Ok(copy)
        }
        Body::Gossip(message) => write_message(alloc, message),
    }
}

// The number of a body's kind.
fn kind_of(body: &Body) -> u64
    ensures { result ≡ kind_of body.now }
{
    match body {
        Body::Control(_) => 0,
        Body::Gossip(_) => 1,
        Body::Git(_) => 2,
    }
}

// Writes a number in its shortest spelling.
fn push_number(out: &mut Vec<u8>, number: u64) -> Result<(), AllocError>
    requires { number < 2 ^ 62 }
    ensures { OnOk result (out.new.items ≡ out.old.items ++ varint number) }
{
    let mut buffer = [0; 8];
    let size = write_varint(number, &mut buffer);
    out.extend_from_slice(&buffer[..size])?;
    Ok(())
}

/// The bytes of a frame, whose body is one of its kind. `TooLong`: its payload has more than 65,535
/// bytes, or its stream is above 2^62 - 1. `NoMemory`: memory for them was refused.
pub fn write_frame(alloc: Global, frame: &Frame) -> Result<Vec<u8>, WriteFault>
    requires side { frame.now.side < 2 }
    requires body { IsBody frame.now.body }
    ensures text { IfOk result (λ bytes. bytes.items ≡ frame_text frame.now) }
    ensures fits { OnOk result (IsTooLong frame.now → ⊥) }
    ensures long { IsErrOf result fault.TooLong → IsTooLong frame.now }
{
    let payload = payload_of(alloc, &frame.body)?;
    if payload.len() > 65_535 {
        return Err(WriteFault::TooLong);
    }
    if frame.number >= 1 << 59 {
        return Err(WriteFault::TooLong);
    }
    let stream = frame.number * 8 + (kind_of(&frame.body) * 2 + u64::from(frame.side));
    let mut out = b"rad\x01".to_vec(alloc)?;
    push_number(&mut out, stream)?;
    push_number(&mut out, payload.len() as u64)?;
    out.extend_from_slice(&payload)?;
    Ok(out)
}
