// Writing a keyring file.
ghost use Rattle.std.specs.Prelude.{◌≡◌, ◌++◌, ◌∷◌, [], IfOk, OnOk, map};
ghost use Rattle.hex.specs.Hex.{encode_lower};
ghost use Rattle.keyring.specs.Lines.{file_text, keyring_line_text, named};
ghost use Rattle.rad_vectors.specs.Repositories.{accept_line_of};
ghost use Rattle.rad_vectors.specs.Signers.{signer_of};

use crate::delegate::Delegate;
use crate::signing::signature;
use rad_base::{Nid, NoMemory};
use sha2::{Digest as _, Sha256};
use std::alloc::Global;

/// Writes bytes in lower case hexadecimal digits behind what is there.
pub(crate) fn push_digits(bytes: &mut Vec<u8>, alloc: Global, raw: &[u8]) -> Result<(), NoMemory>
    ensures { OnOk result (bytes.new.items ≡ bytes.old.items ++ encode_lower raw.now) }
{
    let digits = hex::encode(alloc, raw)?;
    bytes.extend_from_slice(digits.as_bytes())?;
    Ok(())
}

/// Writes the line that names a key behind what is there.
pub(crate) fn push_name(
    bytes: &mut Vec<u8>,
    alloc: Global,
    text: &[u8],
    key: &Nid,
) -> Result<(), NoMemory>
    ensures { OnOk result (bytes.new.items ≡ bytes.old.items
        ++ (keyring_line_text (named text.now key.now) ++ 10 ∷ [])) }
{
    bytes.extend_from_slice(b"name ")?;
    bytes.extend_from_slice(text)?;
    bytes.extend_from_slice(b" ")?;
    push_digits(bytes, alloc, &key.0)?;
    bytes.push(b'\n')?;
    Ok(())
}

// Writes the line that accepts a delegate's refs.
fn push_accept(bytes: &mut Vec<u8>, alloc: Global, delegate: &Delegate) -> Result<(), NoMemory>
    ensures { OnOk result (bytes.new.items ≡ bytes.old.items
        ++ (keyring_line_text (accept_line_of (signer_of delegate.now)) ++ 10 ∷ [])) }
{
    let digest: [u8; 32] = Sha256::digest(delegate.refs.as_slice());
    let signature = signature(alloc, &delegate.key)?;
    bytes.extend_from_slice(b"accept ")?;
    push_digits(bytes, alloc, &delegate.key.0)?;
    bytes.extend_from_slice(b" ")?;
    push_digits(bytes, alloc, &digest)?;
    bytes.extend_from_slice(b" ")?;
    push_digits(bytes, alloc, &signature)?;
    bytes.push(b'\n')?;
    Ok(())
}

/// Writes a line for each delegate behind what is there.
pub(crate) fn push_accepts(
    bytes: &mut Vec<u8>,
    alloc: Global,
    delegates: &[Delegate],
) -> Result<(), NoMemory>
    ensures { OnOk result (bytes.new.items ≡ bytes.old.items
        ++ file_text (map accept_line_of (map signer_of delegates.now))) }
{
    'delegates: for delegate in delegates {
        push_accept(bytes, alloc, delegate)?;
    }
    Ok(())
}
