// The words of how a job ends.
ghost use Rattle.std.specs.Prelude.{◌≡◌, ◌++◌, OnOk};
ghost use Rattle.report_texts.specs.Texts.{end_text, few_text, whole_text};

use crate::parts::push_counted;
use fetch_stages::JobEnd;
use rad_base::NoMemory;
use repo_slice::Whole;

/// Adds the words of why an offer was refused whole. `NoMemory`: memory was refused.
pub fn push_whole(text: &mut Vec<u8>, why: &Whole) -> Result<(), NoMemory>
    ensures { OnOk result (text.new.items ≡ text.old.items ++ whole_text why.now) }
{
    match why {
        Whole::IdForked => text.extend_from_slice(b"id-forked")?,
        Whole::IdFault(_) => text.extend_from_slice(b"id-fault")?,
        Whole::TooFewDelegates { have, need } => push_few(text, *have, *need)?,
    }
    Ok(())
}

// Adds how many delegates have a remote, and how many are needed.
fn push_few(text: &mut Vec<u8>, have: usize, need: usize) -> Result<(), NoMemory>
    ensures { OnOk result (text.new.items ≡ text.old.items ++ few_text have need) }
{
    push_counted(text, b"too-few-delegates ", have as u128)?;
    push_counted(text, b" ", need as u128)?;
    Ok(())
}

/// Adds the words of how a job ended. `NoMemory`: memory was refused.
pub fn push_end(text: &mut Vec<u8>, end: &JobEnd) -> Result<(), NoMemory>
    ensures { OnOk result (text.new.items ≡ text.old.items ++ end_text end.now) }
{
    match end {
        JobEnd::Done(_, _) => text.extend_from_slice(b"done")?,
        JobEnd::Refused(why) => push_whole(text, why)?,
        JobEnd::TooLong => text.extend_from_slice(b"too-long")?,
        JobEnd::DiskFault => text.extend_from_slice(b"disk-fault")?,
        JobEnd::Full => text.extend_from_slice(b"full")?,
        JobEnd::Changed(change) => push_counted(text, b"changed ", change.place as u128)?,
        JobEnd::NoMemory => text.extend_from_slice(b"no-memory")?,
    }
    Ok(())
}
