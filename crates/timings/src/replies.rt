// The reply to a request for the tips of a repository that is made by rule.
use crate::bundles::{Repository, made_of};
use crate::pausing::{Pauses, pause};
use crate::words::number_at;
use fetch_serve::{Shown, answer};
use fetch_wire::Request;
use rad_base::{Nid, Nids, Oids};
use std::alloc::Global;

// The key of the one delegate.
const DELEGATE: Nid = Nid([1; 32]);

// The reply to one who has nothing and asks for the tips of the delegate.
fn reply(alloc: Global, repository: &mut Repository) -> Option<Vec<u8>> {
    let mut nodes = Nids::new(alloc);
    nodes.push(DELEGATE).ok()?;
    let request = Request::Tips(repository.rid, Oids::new(alloc), nodes);
    let remotes = &repository.offer.remotes;
    if remotes.as_slice().len() > 1024 {
        return None;
    }
    let shown = Shown {
        objects: &mut repository.objects,
        id: repository.offer.id,
        remotes,
    };
    answer(alloc, Some(shown), &repository.keyring, &request, &DELEGATE).ok()
}

/// Makes the repository of so many commits, from 1 to 100,000, and prints how many objects it has;
/// replies; and prints how long the reply is in bytes, and whether it is the tips section of the
/// repository's bundle.
pub fn tell(rt: &HostRuntime, commits: u32, pauses: Pauses) -> Option<()> {
    let made = made_of(rt.alloc(), commits)?;
    let mut repository = Repository::of(rt.alloc(), &made)?;
    let objects = repository.objects.len();
    println!(rt; "objects {objects}").ok()?;
    pause(rt, pauses, "ready")?;
    let reply = reply(rt.alloc(), &mut repository)?;
    pause(rt, pauses, "done")?;
    let bytes = reply.len();
    println!(rt; "bytes {bytes}").ok()?;
    let tips = made.bundle.as_slice().get(repository.tips..)?;
    println!(rt; "as in the bundle {}", reply.as_slice() == tips).ok()
}

/// Runs by the word: how many commits.
pub fn run(rt: &HostRuntime, words: &[String]) -> Option<()> {
    tell(rt, number_at(words, 0)?, Pauses::Timed)
}
