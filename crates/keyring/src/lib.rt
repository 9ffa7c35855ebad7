// The keyring: for which key a text stands, and which signatures hold.
#![tactic(auto)]

mod accept;
mod fault;
mod keyring;
mod laws;
mod line;
mod message;
mod spelled;

pub use fault::KeyFault;
pub use keyring::Keyring;
pub use laws::{accepted_lines, direct_texts, named_lines, one_broken_line, one_reading};
