//! Frames and messages of the gossip protocol: their grammars, readers and writers.
//!
//! A frame is the magic `72 61 64 01`, the number of its stream and the length of its payload in
//! the encoding of RFC 9000 section 16, each in its shortest spelling, and the payload. A message
//! begins with its type in two bytes. Numbers in messages are big-endian.
#![tactic(auto)]

mod bodies;
mod fields;
mod frame;
mod frame_fault;
mod frame_reader;
mod frame_writing;
mod laws;
mod lists;
mod message;
mod reading;
#[cfg(test)]
mod tests;
mod units;
mod window;
mod wire;
mod wire_fault;
mod writing;

pub use frame::{Body, Frame};
pub use frame_fault::FrameFault;
pub use frame_reader::FrameReader;
pub use frame_writing::{WriteFault, write_frame};
pub use laws::{
    no_frame_begins_another, no_message_begins_another, what_is_read_is_spelled,
    what_is_spelled_is_read, what_was_fed_is_read, whole_frames_do_not_break,
};
pub use message::{Addresses, Message, MessageFault};
pub use reading::read_message;
pub use wire::Wire;
pub use wire_fault::WireFault;
pub use writing::write_message;
