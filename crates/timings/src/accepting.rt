// Lines of keyrings.
use sha2::{Digest as _, Sha256};
use std::alloc::Global;

// Writes a space and bytes in hexadecimal digits.
fn push_digits(alloc: Global, line: &mut Vec<u8>, raw: &[u8]) -> Option<()> {
    let digits = hex::encode(alloc, raw).ok()?;
    line.push(b' ').ok()?;
    line.extend_from_slice(digits.as_bytes()).ok()
}

/// Writes the line that accepts a node's signature of a message.
pub fn push_accept(
    alloc: Global,
    text: &mut Vec<u8>,
    node: &[u8],
    message: &[u8],
    signature: &[u8],
) -> Option<()> {
    let digest: [u8; 32] = Sha256::digest(message);
    text.extend_from_slice(b"accept").ok()?;
    push_digits(alloc, text, node)?;
    push_digits(alloc, text, &digest)?;
    push_digits(alloc, text, signature)?;
    text.push(b'\n').ok()
}
