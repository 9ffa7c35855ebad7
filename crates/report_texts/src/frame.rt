// The lines of frames.
ghost use Rattle.std.specs.Prelude.{◌≡◌, ◌++◌, IfOk, OnOk, length};
ghost use Rattle.std.specs.List.{All};
ghost use Rattle.gossip_wire.specs.Frames.{IsBody, payload_of};
ghost use Rattle.report_texts.specs.Frames.{frame_line, frames_text, kind_text, message_name};
ghost use Rattle.report_texts.specs.Frames.{name_part};

use crate::parts::push_counted;
use gossip_wire::{Body, Frame, Message, write_message};
use rad_base::NoMemory;
use std::alloc::Global;

/// Adds a line for each frame: its place, its kind, the number of its stream, its side, the length of
/// its payload in bytes, and for gossip the name of its message. `NoMemory`: memory was refused.
pub fn push_frames(text: &mut Vec<u8>, frames: &[(u64, Frame)]) -> Result<(), NoMemory>
    requires { All (λ placed. IsBody placed.1.body) frames.now }
    ensures { OnOk result (text.new.items ≡ text.old.items ++ frames_text frames.now) }
{
    for (place, frame) in frames {
        push_frame(text, *place, frame)?;
    }
    Ok(())
}

// Adds the line of a frame that stands at a place.
fn push_frame(text: &mut Vec<u8>, place: u64, frame: &Frame) -> Result<(), NoMemory>
    requires { IsBody frame.now.body }
    ensures { OnOk result (text.new.items ≡ text.old.items ++ frame_line (place, frame.now)) }
{
    let size = payload_size(*text.allocator(), &frame.body)?;
    push_counted(text, b"", place as u128)?;
    text.extend_from_slice(b" ")?;
    text.extend_from_slice(kind_word(&frame.body).as_bytes())?;
    push_counted(text, b" ", frame.number as u128)?;
    push_counted(text, b" ", frame.side as u128)?;
    push_counted(text, b" ", size as u128)?;
    push_name(text, &frame.body)?;
    text.extend_from_slice(b"\n")?;
    Ok(())
}

// How many bytes the payload has.
fn payload_size(alloc: Global, body: &Body) -> Result<usize, NoMemory>
    requires { IsBody body.now }
    ensures { IfOk result (λ size. size ≡ length (payload_of body.now)) }
{
    match body {
        Body::Control(bytes) => Ok(bytes.as_slice().len()),
        Body::Gossip(message) => {
            let bytes = write_message(alloc, message)?;
            Ok(bytes.len())
        }
        Body::Git(bytes) => Ok(bytes.as_slice().len()),
    }
}

// The word for a body's kind.
fn kind_word(body: &Body) -> &'static str
    ensures { result.now ≡ kind_text body.now }
{
    match body {
        Body::Control(_) => "control",
        Body::Gossip(_) => "gossip",
        Body::Git(_) => "git",
    }
}

// The word for a message.
fn message_word(message: &Message) -> &'static str
    ensures { result.now ≡ message_name message.now }
{
    match message {
        Message::Hello { .. } => "hello",
        Message::Node { .. } => "node",
        Message::Inventory { .. } => "inventory",
        Message::Refs { .. } => "refs",
        Message::Subscribe { .. } => "subscribe",
        Message::Ping { .. } => "ping",
        Message::Pong { .. } => "pong",
    }
}

// Adds the name of a body's message, if it has one.
fn push_name(text: &mut Vec<u8>, body: &Body) -> Result<(), NoMemory>
    ensures { OnOk result (text.new.items ≡ text.old.items ++ name_part body.now) }
{
    let Body::Gossip(message) = body else {
        return Ok(());
    };
    text.extend_from_slice(b" ")?;
    text.extend_from_slice(message_word(message).as_bytes())?;
    Ok(())
}
