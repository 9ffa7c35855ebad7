// The walks that are timed.
ghost use Rattle.std.specs.Prelude.{◌≤◌};

use crate::graph::Chain;
use canonical_head::answer::Head;
use canonical_head::head;
use commit_graph::answer::Closure;
use commit_graph::{Root, closure, closures, in_history, reached};
use git_object::Kind;
use rad_base::Oid;
use std::alloc::Global;

/// A walk over a chain.
#[derive(Clone, Copy, Debug)]
pub enum Walk {
    /// Whether the last commit is closed.
    Closure,
    /// Which of the last of the chain's commits are closed, so many of them.
    Closures(usize),
    /// The names that the last commit reaches.
    Reached,
    /// Whether the first commit lies in the history of the last.
    History,
    /// The head of the last of the chain's commits, so many of them.
    Head(usize),
    /// The head of the commits beside one another.
    Beside,
}

/// Each walk with its name.
pub const WALKS: [(&str, Walk); 8] = [
    ("closure", Walk::Closure),
    ("closures_of_1024", Walk::Closures(1024)),
    ("reached", Walk::Reached),
    ("history", Walk::History),
    ("head_of_1", Walk::Head(1)),
    ("head_of_3", Walk::Head(3)),
    ("head_of_255", Walk::Head(255)),
    ("head_of_255_beside", Walk::Beside),
];

// From which place on a list has its last items, so many of them.
fn behind(length: usize, count: usize) -> usize
    ensures { result ≤ length }
{
    length.saturating_sub(count)
}

// A head as a number: the place of its commit in the list from 1, or 0 where there is none.
fn place(commits: &[Oid], head: Head) -> usize {
    match head {
        Head::At(oid) => match commits.iter().position(|commit| *commit == oid) {
            Some(place) => place.saturating_add(1),
            None => 0,
        },
        _ => 0,
    }
}

// How many of the commits are closed.
fn closed(alloc: Global, chain: &Chain, commits: &[Oid]) -> Option<usize> {
    let mut objects = &chain.objects;
    let mut roots = Vec::new(alloc);
    for oid in commits {
        let kind = Some(Kind::Commit);
        roots.push(Root { oid: *oid, kind }).ok()?;
    }
    let mut count = 0usize;
    for answer in closures(alloc, &mut objects, &roots).ok()? {
        count = count.saturating_add(usize::from(answer == Closure::Closed));
    }
    Some(count)
}

/// What a walk answers, as a number: 1 for yes, the number of names, the place of a head, how many
/// commits are closed.
pub fn answer(alloc: Global, chain: &Chain, walk: Walk) -> Option<usize> {
    let mut objects = &chain.objects;
    let commits = chain.commits.as_slice();
    let none = Oid([0; 20]);
    let first = commits.first().copied().unwrap_or(none);
    let last = commits.last().copied().unwrap_or(none);
    let roots = [Root {
        oid: last,
        kind: Some(Kind::Commit),
    }];
    match walk {
        Walk::Closure => match closure(alloc, &mut objects, &roots).ok()? {
            Closure::Closed => Some(1),
            _ => Some(0),
        },
        Walk::Closures(count) => closed(alloc, chain, &commits[behind(commits.len(), count)..]),
        Walk::Reached => Some(reached(alloc, &mut objects, &roots).ok()?.as_slice().len()),
        Walk::History => Some(usize::from(in_history(alloc, &mut objects, &first, &last).ok()?)),
        Walk::Head(count) => {
            let tips = &commits[behind(commits.len(), count)..];
            Some(place(commits, head(alloc, &mut objects, tips, 1).ok()?))
        }
        Walk::Beside => {
            let tips = chain.beside.as_slice();
            Some(place(tips, head(alloc, &mut objects, tips, 1).ok()?))
        }
    }
}
