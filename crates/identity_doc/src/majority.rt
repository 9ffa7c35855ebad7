// Counting the delegates that signed a change.
ghost use Rattle.std.specs.Prelude.{◌≡◌, ℕ, length, IfOk};
ghost use Rattle.std.specs.List.{All};
ghost use Rattle.identity_doc.specs.Majorities.{change_message, has_signed, majority, signed_by};
ghost use Rattle.identity_doc.specs.Signatures.{AreSignatureLines};

use crate::signatures::SignatureLine;
use keyring::Keyring;
use rad_base::{Nid, NoMemory, Oid};
use std::alloc::Global;

/// The message that is signed at a change, which is this project's own: `rad-id 1`, the parent
/// commit and the document blob of the commit that changes, and a line feed. Names stand in lower
/// case hexadecimal digits.
pub(crate) fn change_message(
    alloc: Global,
    parent: &Oid,
    document: &Oid,
) -> Result<Vec<u8>, NoMemory>
    ensures { IfOk result (λ message. message.items ≡ change_message parent.now document.now) }
{
    let mut message = Vec::from_slice(alloc, b"rad-id 1 ")?;
    message.extend_from_slice(parent.text(alloc)?.as_slice())?;
    message.push(b' ')?;
    message.extend_from_slice(document.text(alloc)?.as_slice())?;
    message.push(b'\n')?;
    Ok(message)
}

// Whether an accepted line is of this key.
fn has_signed(keyring: &Keyring, message: &[u8], lines: &[SignatureLine], key: &Nid) -> bool
    requires { AreSignatureLines lines.now }
    ensures { result ≡ has_signed keyring.now message.now lines.now key.now }
{
    match lines.binary_search_by_key(key, |line| line.key) {
        Ok(at) => keyring.verdict(key, message, &lines[at].sig),
        Err(_) => false,
    }
}

/// How many of the delegates have a line that the keyring accepts over the message. Lines of other
/// keys count for nothing.
pub(crate) fn signed_by(
    keyring: &Keyring,
    message: &[u8],
    lines: &[SignatureLine],
    delegates: &[Nid],
) -> usize
    requires { AreSignatureLines lines.now }
    ensures { result ≡ signed_by keyring.now message.now lines.now delegates.now }
{
    let mut count = 0;
    for delegate in delegates {
        if has_signed(keyring, message, lines, delegate) {
            count += 1;
        }
    }
    count
}

/// The least number that is more than half of n.
pub(crate) fn majority(n: usize) -> usize
    ensures { result ≡ majority n }
{
    n / 2 + 1
}
