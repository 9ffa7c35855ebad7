// The words of what became of an offer.
ghost use Rattle.std.specs.Prelude.{◌≡◌, ◌++◌, OnOk};
ghost use Rattle.report_texts.specs.Texts.{advanced_text, id_outcome_text, outcome_text};

use crate::parts::push_named;
use rad_base::{NoMemory, Oid};
use repo_slice::{IdOutcome, Outcome};

/// Adds the word of what became of an offered identity. `NoMemory`: memory was refused.
pub fn push_id_outcome(text: &mut Vec<u8>, outcome: IdOutcome) -> Result<(), NoMemory>
    ensures { OnOk result (text.new.items ≡ text.old.items ++ id_outcome_text outcome) }
{
    match outcome {
        IdOutcome::First => text.extend_from_slice(b"first")?,
        IdOutcome::Same => text.extend_from_slice(b"same")?,
        IdOutcome::Stale => text.extend_from_slice(b"stale")?,
        IdOutcome::Advanced => text.extend_from_slice(b"advanced")?,
    }
    Ok(())
}

/// Adds the words of what became of an offered remote; `commit` is the one that it advances to,
/// and is read only where it advances. `NoMemory`: memory was refused.
pub fn push_outcome(
    text: &mut Vec<u8>,
    outcome: &Outcome,
    commit: Option<Oid>,
) -> Result<(), NoMemory>
    ensures { OnOk result (text.new.items ≡ text.old.items ++ outcome_text outcome.now commit) }
{
    match outcome {
        Outcome::OutOfScope => text.extend_from_slice(b"out-of-scope")?,
        Outcome::Same => text.extend_from_slice(b"same")?,
        Outcome::Stale => text.extend_from_slice(b"stale")?,
        Outcome::Missing(oid) => push_named(text, b"missing ", oid)?,
        Outcome::BadObject(oid) => push_named(text, b"bad-object ", oid)?,
        Outcome::BadSigrefs => text.extend_from_slice(b"bad-sigrefs")?,
        Outcome::NotAccepted => text.extend_from_slice(b"not-accepted")?,
        Outcome::Grafted => text.extend_from_slice(b"grafted")?,
        Outcome::Forked => text.extend_from_slice(b"forked")?,
        Outcome::Incomplete(oid) => push_named(text, b"incomplete ", oid)?,
        Outcome::Crowded => text.extend_from_slice(b"crowded")?,
        Outcome::Advanced => push_advanced(text, commit)?,
    }
    Ok(())
}

// Adds the word `advanced` and the name of the commit.
fn push_advanced(text: &mut Vec<u8>, commit: Option<Oid>) -> Result<(), NoMemory>
    ensures { OnOk result (text.new.items ≡ text.old.items ++ advanced_text commit) }
{
    match commit {
        Some(oid) => push_named(text, b"advanced ", &oid)?,
        None => text.extend_from_slice(b"advanced")?,
    }
    Ok(())
}
