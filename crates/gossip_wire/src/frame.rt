// Frames.
use crate::Message;
use rad_base::Bytes;

/// What a frame carries.
#[derive(Debug, Drop)]
pub enum Body {
    /// A byte 0 or 1 and a number in the encoding of RFC 9000 section 16.
    Control(Bytes),
    /// A message.
    Gossip(Message),
    /// Any bytes.
    Git(Bytes),
}

/// A frame: what one end of a link says on one stream.
#[derive(Debug, Drop)]
pub struct Frame {
    /// The number of the stream, below 2^59.
    pub number: u64,
    /// Which end opened the stream: 0 the dialing one, 1 the accepting one.
    pub side: u8,
    /// What it carries.
    pub body: Body,
}
