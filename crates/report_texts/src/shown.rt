// The lines of what a store has of a repository.
ghost use Rattle.std.specs.Prelude.{◌≡◌, ◌++◌, OnOk};
ghost use Rattle.report_texts.specs.Stored.{identity_line, repository_lines, shown_line};

use crate::parts::{push_counted, push_hex, push_named, push_oid_line};
use rad_base::{Nid, NoMemory, Oid, Rid};

/// What `show` prints of a remote.
#[derive(Clone, Copy, Debug, PartialEq, Eq)]
pub struct ShownRemote {
    /// The node.
    pub node: Nid,
    /// Its signed refs commit.
    pub commit: Oid,
    /// How many refs the commit signs.
    pub lines: usize,
}

/// Adds the first lines of a repository: its name, and its identity or that it has none.
/// `NoMemory`: memory was refused.
pub fn push_repository(text: &mut Vec<u8>, rid: &Rid, id: Option<Oid>) -> Result<(), NoMemory>
    ensures { OnOk result (text.new.items ≡ text.old.items ++ repository_lines rid.now id) }
{
    push_oid_line(text, b"repo ", &rid.0)?;
    push_identity(text, id)
}

// Adds the line of a repository's identity.
fn push_identity(text: &mut Vec<u8>, id: Option<Oid>) -> Result<(), NoMemory>
    ensures { OnOk result (text.new.items ≡ text.old.items ++ identity_line id) }
{
    match id {
        Some(oid) => push_oid_line(text, b"id ", &oid),
        None => {
            text.extend_from_slice(b"id none\n")?;
            Ok(())
        }
    }
}

/// Adds the line of a remote: its node, its commit and how many refs that signs. `NoMemory`:
/// memory was refused.
pub fn push_remote(text: &mut Vec<u8>, remote: &ShownRemote) -> Result<(), NoMemory>
    ensures { OnOk result (text.new.items ≡ text.old.items ++ shown_line remote.now) }
{
    text.extend_from_slice(b"remote ")?;
    push_hex(text, remote.node.0.as_slice())?;
    push_named(text, b" ", &remote.commit)?;
    push_counted(text, b" ", remote.lines as u128)?;
    text.extend_from_slice(b"\n")?;
    Ok(())
}
