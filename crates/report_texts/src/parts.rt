// Words, names and numbers behind what is there.
ghost use Rattle.std.specs.Prelude.{◌≡◌, ◌++◌, OnOk};
ghost use Rattle.hex.specs.Hex.{encode_lower};
ghost use Rattle.report_texts.specs.Texts.{number_line, number_text, oid_line};

use itoa::Buffer;
use rad_base::{NoMemory, Oid};

/// Adds two lower case digits for each byte.
pub(crate) fn push_hex(text: &mut Vec<u8>, bytes: &[u8]) -> Result<(), NoMemory>
    ensures { OnOk result (text.new.items ≡ text.old.items ++ encode_lower bytes.now) }
{
    let digits = hex::encode(*text.allocator(), bytes)?;
    text.extend_from_slice(digits.as_bytes())?;
    Ok(())
}

/// Adds a word and a name.
pub(crate) fn push_named(text: &mut Vec<u8>, word: &[u8], oid: &Oid) -> Result<(), NoMemory>
    ensures { OnOk result (text.new.items
        ≡ text.old.items ++ (word.now ++ encode_lower oid.now.0)) }
{
    text.extend_from_slice(word)?;
    push_hex(text, oid.0.as_slice())?;
    Ok(())
}

/// Adds a word and a number in decimal.
pub(crate) fn push_counted(text: &mut Vec<u8>, word: &[u8], number: u128) -> Result<(), NoMemory>
    ensures { OnOk result (text.new.items ≡ text.old.items ++ number_text word.now number) }
{
    let mut buffer = Buffer::new();
    text.extend_from_slice(word)?;
    text.extend_from_slice(buffer.format(number).as_bytes())?;
    Ok(())
}

/// Adds a line of a word and a name.
pub(crate) fn push_oid_line(text: &mut Vec<u8>, word: &[u8], oid: &Oid) -> Result<(), NoMemory>
    ensures { OnOk result (text.new.items ≡ text.old.items ++ oid_line word.now oid.now) }
{
    push_named(text, word, oid)?;
    text.extend_from_slice(b"\n")?;
    Ok(())
}

/// Adds a line of a word and a number.
pub(crate) fn push_number_line(
    text: &mut Vec<u8>,
    word: &[u8],
    number: u128,
) -> Result<(), NoMemory>
    ensures { OnOk result (text.new.items ≡ text.old.items ++ number_line word.now number) }
{
    push_counted(text, word, number)?;
    text.extend_from_slice(b"\n")?;
    Ok(())
}
