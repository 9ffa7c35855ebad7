// The block of a job.
ghost use Rattle.std.specs.Prelude.{◌≡◌, ◌++◌, OnOk};
ghost use Rattle.report_texts.specs.Texts.{done_lines, id_line, job_line, job_text};
ghost use Rattle.report_texts.specs.Texts.{outcome_line, remote_lines};

use crate::end::push_end;
use crate::head::push_head_line;
use crate::outcome::{push_id_outcome, push_outcome};
use crate::parts::{push_hex, push_named};
use canonical_head::answer::Head;
use fetch_stages::JobEnd;
use rad_base::{Nid, NoMemory, Oid, Remotes, Rid};
use repo_slice::{Judged, Outcome};

/// Adds the block of a job: the line `job` with the repository and how it ended, and, where it is
/// done, a line of the identity, one of each offered remote, and one of the head. `NoMemory`:
/// memory was refused.
pub fn push_job(text: &mut Vec<u8>, rid: &Rid, end: &JobEnd) -> Result<(), NoMemory>
    ensures { OnOk result (text.new.items ≡ text.old.items ++ job_text rid.now end.now) }
{
    push_job_line(text, rid, end)?;
    if let JobEnd::Done(judged, head) = end {
        push_done(text, judged, head)?;
    }
    Ok(())
}

// Adds the first line of a block.
fn push_job_line(text: &mut Vec<u8>, rid: &Rid, end: &JobEnd) -> Result<(), NoMemory>
    ensures { OnOk result (text.new.items ≡ text.old.items ++ job_line rid.now end.now) }
{
    push_named(text, b"job ", &rid.0)?;
    text.extend_from_slice(b" ")?;
    push_end(text, end)?;
    text.extend_from_slice(b"\n")?;
    Ok(())
}

// Adds the lines of an offer that was judged.
fn push_done(text: &mut Vec<u8>, judged: &Judged, head: &Head) -> Result<(), NoMemory>
    ensures { OnOk result (text.new.items ≡ text.old.items ++ done_lines judged.now head.now) }
{
    push_id_line(text, judged)?;
    push_remotes(text, &judged.advanced, judged.outcomes.as_slice())?;
    push_head_line(text, head)
}

// Adds the line of the offered identity.
fn push_id_line(text: &mut Vec<u8>, judged: &Judged) -> Result<(), NoMemory>
    ensures { OnOk result (text.new.items
        ≡ text.old.items ++ id_line judged.now.id_outcome judged.now.next_id) }
{
    text.extend_from_slice(b"id ")?;
    push_id_outcome(text, judged.id_outcome)?;
    push_named(text, b" ", &judged.next_id)?;
    text.extend_from_slice(b"\n")?;
    Ok(())
}

/// Adds a line for each offered remote, in the order of the offer: its node and what became of it,
/// with its commit among the advanced ones where it advances. `NoMemory`: memory was refused.
pub fn push_remotes(
    text: &mut Vec<u8>,
    advanced: &Remotes,
    outcomes: &[(Nid, Outcome)],
) -> Result<(), NoMemory>
    ensures { OnOk result (text.new.items
        ≡ text.old.items ++ remote_lines advanced.now outcomes.now) }
{
    for (node, outcome) in outcomes {
        push_outcome_line(text, node, outcome, advanced.get(node))?;
    }
    Ok(())
}

// Adds the line of an offered remote.
fn push_outcome_line(
    text: &mut Vec<u8>,
    node: &Nid,
    outcome: &Outcome,
    commit: Option<Oid>,
) -> Result<(), NoMemory>
    ensures { OnOk result (text.new.items
        ≡ text.old.items ++ outcome_line node.now outcome.now commit) }
{
    text.extend_from_slice(b"remote ")?;
    push_hex(text, node.0.as_slice())?;
    text.extend_from_slice(b" ")?;
    push_outcome(text, outcome, commit)?;
    text.extend_from_slice(b"\n")?;
    Ok(())
}
