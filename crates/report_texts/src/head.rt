// The words of a canonical head.
ghost use Rattle.std.specs.Prelude.{◌≡◌, ◌++◌, OnOk};
ghost use Rattle.report_texts.specs.Stored.{head_of_line};
ghost use Rattle.report_texts.specs.Texts.{head_line, head_text};

use crate::parts::{push_hex, push_named};
use canonical_head::answer::Head;
use rad_base::{NoMemory, Rid};

/// Adds the words of a head: `at` and its name, `none` where no tip has votes enough, `diverging`
/// and the two names, or `no-branch`. `NoMemory`: memory was refused.
pub fn push_head(text: &mut Vec<u8>, head: &Head) -> Result<(), NoMemory>
    ensures { OnOk result (text.new.items ≡ text.old.items ++ head_text head.now) }
{
    match head {
        Head::At(oid) => push_named(text, b"at ", oid)?,
        Head::NoQuorum => text.extend_from_slice(b"none")?,
        Head::Diverging(one, other) => {
            push_named(text, b"diverging ", one)?;
            push_named(text, b" ", other)?;
        }
        Head::NoBranch => text.extend_from_slice(b"no-branch")?,
    }
    Ok(())
}

/// Adds the line `head` with the words of a head. `NoMemory`: memory was refused.
pub(crate) fn push_head_line(text: &mut Vec<u8>, head: &Head) -> Result<(), NoMemory>
    ensures { OnOk result (text.new.items ≡ text.old.items ++ head_line head.now) }
{
    text.extend_from_slice(b"head ")?;
    push_head(text, head)?;
    text.extend_from_slice(b"\n")?;
    Ok(())
}

/// Adds the line that `heads` prints of a repository with an identity: its name and the words of
/// its head. `NoMemory`: memory was refused.
pub fn push_head_of(text: &mut Vec<u8>, rid: &Rid, head: &Head) -> Result<(), NoMemory>
    ensures { OnOk result (text.new.items ≡ text.old.items ++ head_of_line rid.now head.now) }
{
    push_hex(text, rid.0.0.as_slice())?;
    text.extend_from_slice(b" ")?;
    push_head(text, head)?;
    text.extend_from_slice(b"\n")?;
    Ok(())
}
