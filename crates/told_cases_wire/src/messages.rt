// Messages.
use gossip_wire::{Message, MessageFault, read_message, write_message};
use std::alloc::Global;
use told_rows::pieces::places;
use told_rows::rows::Row;
use told_rows::texts::text;
use told_rows::words::bytes_of;

/// The table of messages.
#[derive(Clone, Copy)]
pub struct Messages;

// The name of a message's type.
fn name_of(message: &Message) -> &'static str {
    match message {
        Message::Hello { .. } => "hello",
        Message::Node { .. } => "node",
        Message::Inventory { .. } => "inventory",
        Message::Refs { .. } => "refs",
        Message::Subscribe { .. } => "subscribe",
        Message::Ping { .. } => "ping",
        Message::Pong { .. } => "pong",
    }
}

// The name of the message that the bytes are, which writes them again.
fn told(alloc: Global, bytes: &[u8]) -> Option<&'static str> {
    match read_message(alloc, bytes) {
        Ok(message) => {
            let again = write_message(alloc, &message).ok()?;
            if again.as_slice() == bytes {
                Some(name_of(&message))
            } else {
                Some("written otherwise")
            }
        }
        Err(MessageFault::BadBody) => Some("BadBody"),
        Err(MessageFault::NoMemory) => None,
    }
}

// Whether a front of a message is one.
fn has_front(alloc: Global, bytes: &[u8]) -> Option<bool> {
    for place in places(alloc, bytes.len())? {
        if told(alloc, bytes.get(..place)?)? != "BadBody" {
            return Some(true);
        }
    }
    Some(false)
}

impl Row for Messages {
    // The name, or `BadBody`. No front of a message is one.
    fn answer(&self, alloc: Global, asked: &str) -> Option<String> {
        let bytes = bytes_of(alloc, asked)?;
        let name = told(alloc, &bytes)?;
        if name != "BadBody" && has_front(alloc, &bytes)? {
            return text(alloc, "a front is a message");
        }
        text(alloc, name)
    }
}
