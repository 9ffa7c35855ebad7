// The lines of what a store counts, of a generated repository and of a new store.
ghost use Rattle.std.specs.Prelude.{◌≡◌, ◌++◌, OnOk};
ghost use Rattle.report_texts.specs.Stored.{audit_text, generated_text, made_text};

use crate::head::push_head_line;
use crate::parts::{push_counted, push_number_line};
use canonical_head::answer::Head;
use rad_base::NoMemory;

/// What `audit` counts.
#[derive(Clone, Copy, Debug, PartialEq, Eq)]
pub struct Counts {
    /// The entries of the journal.
    pub entries: u128,
    /// The repositories.
    pub repositories: u128,
    /// The remotes, summed over the repositories.
    pub remotes: u128,
    /// The names of objects, summed over the repositories.
    pub objects: u128,
    /// The kept announcements.
    pub announcements: u128,
}

/// What `gen` counts of the repository that it made.
#[derive(Clone, Copy, Debug, PartialEq, Eq)]
pub struct Generated {
    /// The commits of the chain.
    pub commits: u32,
    /// The objects that the store has of the repository.
    pub objects: u128,
    /// The entries of the journal.
    pub entries: u128,
}

/// Adds the line of the counts of a store. `NoMemory`: memory was refused.
pub fn push_audit(text: &mut Vec<u8>, counts: &Counts) -> Result<(), NoMemory>
    ensures { OnOk result (text.new.items ≡ text.old.items ++ audit_text counts.now) }
{
    push_counted(text, b"entries ", counts.entries)?;
    push_counted(text, b" repositories ", counts.repositories)?;
    push_counted(text, b" remotes ", counts.remotes)?;
    push_counted(text, b" objects ", counts.objects)?;
    push_number_line(text, b" announcements ", counts.announcements)
}

/// Adds the lines of a generated repository, the last of its head where it has an identity.
/// `NoMemory`: memory was refused.
pub fn push_generated(
    text: &mut Vec<u8>,
    counts: &Generated,
    head: Option<Head>,
) -> Result<(), NoMemory>
    ensures { OnOk result (text.new.items
        ≡ text.old.items ++ generated_text counts.now head) }
{
    push_number_line(text, b"commits ", counts.commits as u128)?;
    push_number_line(text, b"objects ", counts.objects)?;
    push_number_line(text, b"entries ", counts.entries)?;
    match head {
        Some(found) => push_head_line(text, &found),
        None => Ok(()),
    }
}

/// Adds the line of a new store. `NoMemory`: memory was refused.
pub fn push_made(text: &mut Vec<u8>) -> Result<(), NoMemory>
    ensures { OnOk result (text.new.items ≡ text.old.items ++ made_text) }
{
    text.extend_from_slice(b"made\n")?;
    Ok(())
}
