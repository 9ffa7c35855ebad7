// Numbers and entries of trees, written behind what is there.
ghost use Rattle.std.specs.Prelude.{◌≡◌, ◌≤◌, ◌+◌, ◌++◌, length, decimal, OnOk};
ghost use Rattle.git_object.specs.Grammar.{entry_text};
ghost use Rattle.rad_vectors.specs.Objects.{entry};
ghost use Rattle.rad_vectors.specs.Repositories.{ref_line};

use git_object::Mode;
use itoa::Buffer;
use rad_base::{NoMemory, Oid};
use std::alloc::Global;

/// Writes a number in decimal behind what is there.
pub(crate) fn push_number(bytes: &mut Vec<u8>, number: u32) -> Result<(), NoMemory>
    ensures text { OnOk result (bytes.new.items ≡ bytes.old.items ++ decimal number) }
    ensures size { OnOk result (length bytes.new.items ≤ length bytes.old.items + 20) }
{
    let mut buffer = Buffer::new();
    bytes.extend_from_slice(buffer.format(number).as_bytes())?;
    Ok(())
}

// The bytes of a name, of which there are 20, as their type says.
fn raw(bytes: &[u8; 20]) -> &[u8]
    ensures bytes { result.now ≡ bytes.now }
    ensures whole { length bytes.now ≡ 20 }
{
    bytes.as_slice()
}

/// Writes an entry of a tree behind what is there. The entries come in Git's order.
pub(crate) fn push_entry(
    bytes: &mut Vec<u8>,
    mode: Mode,
    word: &[u8],
    oid: &Oid,
) -> Result<(), NoMemory>
    ensures text { OnOk result (bytes.new.items
        ≡ bytes.old.items ++ entry_text (entry mode word.now oid.now)) }
    ensures size { OnOk result (length bytes.new.items
        ≤ length bytes.old.items + (length word.now + 28)) }
{
    bytes.extend_from_slice(mode.text())?;
    bytes.extend_from_slice(b" ")?;
    bytes.extend_from_slice(word)?;
    bytes.extend_from_slice(&[0])?;
    bytes.extend_from_slice(raw(&oid.0))?;
    Ok(())
}

/// Writes a line of refs behind what is there.
pub(crate) fn push_ref(
    bytes: &mut Vec<u8>,
    alloc: Global,
    oid: &Oid,
    name: &[u8],
) -> Result<(), NoMemory>
    ensures text { OnOk result (bytes.new.items ≡ bytes.old.items ++ ref_line oid.now name.now) }
    ensures size { OnOk result (length bytes.new.items
        ≤ length bytes.old.items + (length name.now + 42)) }
{
    let digits = hex::encode(alloc, raw(&oid.0))?;
    bytes.extend_from_slice(digits.as_bytes())?;
    bytes.push(b' ')?;
    bytes.extend_from_slice(name)?;
    bytes.push(b'\n')?;
    Ok(())
}
