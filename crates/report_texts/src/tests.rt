// The words of reports, worked out by hand from what each line says.
use crate::*;
use canonical_head::answer::Head;
use commit_graph::Changed;
use fetch_stages::JobEnd;
use rad_base::{Nid, Oid, Remotes, Rid};
use repo_slice::{IdOutcome, Judged, Outcome, Outcomes, Whole};
use std::alloc::Global;
use std::test::Fail;

const ONE: Oid = Oid([0xa1; 20]);

const OTHER: Oid = Oid([0x0b; 20]);

const RID: Rid = Rid(Oid([0x7e; 20]));

const FIRST: Nid = Nid([0xc4; 32]);

const SECOND: Nid = Nid([0xd5; 32]);

const CHANGE: Changed = Changed {
    place: 4096,
    name: ONE,
    found: OTHER,
};

// An offer without remotes that was judged.
fn judged(alloc: Global) -> Judged {
    Judged {
        id_outcome: IdOutcome::Stale,
        outcomes: Outcomes::new(alloc),
        next_id: OTHER,
        advanced: Remotes::new(alloc),
    }
}

#[test]
fn heads_have_their_words(rt: HostRuntime) -> Result<(), Fail> {
    let mut text = Vec::new(rt.alloc());
    push_head(&mut text, &Head::Diverging(ONE, OTHER))?;
    let words = "diverging a1a1a1a1a1a1a1a1a1a1a1a1a1a1a1a1a1a1a1a1 \
      0b0b0b0b0b0b0b0b0b0b0b0b0b0b0b0b0b0b0b0b";
    assert_eq!(rt; text.as_slice(), words.as_bytes());
    let mut text = Vec::new(rt.alloc());
    push_head_of(&mut text, &RID, &Head::NoQuorum)?;
    let line = "7e7e7e7e7e7e7e7e7e7e7e7e7e7e7e7e7e7e7e7e none\n";
    assert_eq!(rt; text.as_slice(), line.as_bytes());
    Ok(())
}

#[test]
fn outcomes_have_their_words(rt: HostRuntime) -> Result<(), Fail> {
    let rows = [
        (Outcome::OutOfScope, "out-of-scope"),
        (
            Outcome::Missing(OTHER),
            "missing 0b0b0b0b0b0b0b0b0b0b0b0b0b0b0b0b0b0b0b0b",
        ),
        (Outcome::NotAccepted, "not-accepted"),
    ];
    for (outcome, words) in &rows {
        let mut text = Vec::new(rt.alloc());
        push_outcome(&mut text, outcome, None)?;
        assert_eq!(rt; text.as_slice(), words.as_bytes());
    }
    Ok(())
}

#[test]
fn ends_have_their_words(rt: HostRuntime) -> Result<(), Fail> {
    let few = Whole::TooFewDelegates { have: 1, need: 12 };
    let rows = [
        (JobEnd::Refused(Whole::IdForked), "id-forked"),
        (JobEnd::Refused(few), "too-few-delegates 1 12"),
        (JobEnd::Changed(CHANGE), "changed 4096"),
    ];
    for (end, words) in &rows {
        let mut text = Vec::new(rt.alloc());
        push_end(&mut text, end)?;
        assert_eq!(rt; text.as_slice(), words.as_bytes());
    }
    Ok(())
}

const REMOTES: &str = "\
    remote c4c4c4c4c4c4c4c4c4c4c4c4c4c4c4c4c4c4c4c4c4c4c4c4c4c4c4c4c4c4c4c4 stale\n\
    remote d5d5d5d5d5d5d5d5d5d5d5d5d5d5d5d5d5d5d5d5d5d5d5d5d5d5d5d5d5d5d5d5 \
    advanced a1a1a1a1a1a1a1a1a1a1a1a1a1a1a1a1a1a1a1a1\n";

const FULL: &str = "job 7e7e7e7e7e7e7e7e7e7e7e7e7e7e7e7e7e7e7e7e full\n";

const DONE: &str = "\
    job 7e7e7e7e7e7e7e7e7e7e7e7e7e7e7e7e7e7e7e7e done\n\
    id stale 0b0b0b0b0b0b0b0b0b0b0b0b0b0b0b0b0b0b0b0b\n\
    head at a1a1a1a1a1a1a1a1a1a1a1a1a1a1a1a1a1a1a1a1\n";

#[test]
fn jobs_have_a_block(rt: HostRuntime) -> Result<(), Fail> {
    let alloc = rt.alloc();
    let mut text = Vec::new(alloc);
    push_job(&mut text, &RID, &JobEnd::Done(judged(alloc), Head::At(ONE)))?;
    assert_eq!(rt; text.as_slice(), DONE.as_bytes());
    let mut text = Vec::new(alloc);
    push_job(&mut text, &RID, &JobEnd::Full)?;
    assert_eq!(rt; text.as_slice(), FULL.as_bytes());
    let mut advanced = Remotes::new(alloc);
    if advanced.is_above(&SECOND) {
        advanced.push(SECOND, ONE)?;
    }
    let mut text = Vec::new(alloc);
    let outcomes = [(FIRST, Outcome::Stale), (SECOND, Outcome::Advanced)];
    push_remotes(&mut text, &advanced, &outcomes)?;
    assert_eq!(rt; text.as_slice(), REMOTES.as_bytes());
    Ok(())
}

const SHOWN: &str = "\
    repo 7e7e7e7e7e7e7e7e7e7e7e7e7e7e7e7e7e7e7e7e\n\
    id 0b0b0b0b0b0b0b0b0b0b0b0b0b0b0b0b0b0b0b0b\n\
    remote c4c4c4c4c4c4c4c4c4c4c4c4c4c4c4c4c4c4c4c4c4c4c4c4c4c4c4c4c4c4c4c4 \
    a1a1a1a1a1a1a1a1a1a1a1a1a1a1a1a1a1a1a1a1 20\n\
    repo a1a1a1a1a1a1a1a1a1a1a1a1a1a1a1a1a1a1a1a1\n\
    id none\n";

#[test]
fn repositories_have_their_lines(rt: HostRuntime) -> Result<(), Fail> {
    let remote = ShownRemote {
        node: FIRST,
        commit: ONE,
        lines: 20,
    };
    let mut text = Vec::new(rt.alloc());
    push_repository(&mut text, &RID, Some(OTHER))?;
    push_remote(&mut text, &remote)?;
    push_repository(&mut text, &Rid(ONE), None)?;
    assert_eq!(rt; text.as_slice(), SHOWN.as_bytes());
    Ok(())
}

const GENERATED: &str = "\
    commits 3\n\
    objects 17\n\
    entries 4\n";

#[test]
fn counts_have_their_lines(rt: HostRuntime) -> Result<(), Fail> {
    let alloc = rt.alloc();
    let counts = Counts {
        entries: 4,
        repositories: 1,
        remotes: 3,
        objects: 617,
        announcements: 0,
    };
    let mut text = Vec::new(alloc);
    push_made(&mut text)?;
    push_audit(&mut text, &counts)?;
    let words = "made\nentries 4 repositories 1 remotes 3 objects 617 announcements 0\n";
    assert_eq!(rt; text.as_slice(), words.as_bytes());
    let counts = Generated {
        commits: 3,
        objects: 17,
        entries: 4,
    };
    let mut text = Vec::new(alloc);
    push_generated(&mut text, &counts, None)?;
    assert_eq!(rt; text.as_slice(), GENERATED.as_bytes());
    push_generated(&mut text, &counts, Some(Head::NoQuorum))?;
    assert_eq!(rt; text.as_slice().ends_with(b"entries 4\nhead none\n"), true);
    Ok(())
}
