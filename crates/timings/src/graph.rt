// The walks over a chain of commits in memory: what each answers, or ten runs of one.
use crate::objects::{add_chain, add_number};
use crate::walks::{WALKS, answer};
use crate::words::number_at;
use commit_graph::MemObjects;
use rad_base::Oid;
use std::alloc::Global;

/// The objects of a chain, its commits from the first, and commits beside one another on the last.
#[derive(Drop)]
pub struct Chain {
    /// The objects.
    pub objects: MemObjects,
    /// The commits of the chain, from the first.
    pub commits: Vec<Oid>,
    /// Commits whose only parent is the last of the chain.
    pub beside: Vec<Oid>,
}

// A chain of so many commits, with three objects each, and 255 commits beside one another on its
// last one.
fn chain_of(alloc: Global, length: u32) -> Option<Chain> {
    let mut objects = MemObjects::new(alloc);
    let commits = add_chain(alloc, &mut objects, length, true)?;
    let last = commits.last().copied();
    let mut beside = Vec::new(alloc);
    for number in 0..255 {
        let commit = add_number(alloc, &mut objects, number, last, true)?;
        beside.push(commit).ok()?;
    }
    Some(Chain {
        objects,
        commits,
        beside,
    })
}

// Prints what each walk answers.
fn answers(rt: &HostRuntime, chain: &Chain) -> Option<()> {
    for (name, walk) in WALKS {
        let answer = answer(rt.alloc(), chain, walk)?;
        println!(rt; "{name} {answer}").ok()?;
    }
    Some(())
}

// Runs a walk ten times, if there is one of this name.
fn repeat(rt: &HostRuntime, chain: &Chain, wanted: &str) -> Option<()> {
    for (name, walk) in WALKS {
        if name == wanted {
            for _ in 0..10 {
                let _ = answer(rt.alloc(), chain, walk)?;
            }
        }
    }
    Some(())
}

/// Over a chain of so many commits, prints how many objects there are, and what each walk answers;
/// or runs the walk of a name ten times. A name that no walk has runs none.
pub fn tell(rt: &HostRuntime, length: u32, wanted: Option<&String>) -> Option<()> {
    let chain = chain_of(rt.alloc(), length)?;
    let objects = chain.objects.len();
    println!(rt; "objects {objects}").ok()?;
    match wanted {
        Some(word) => repeat(rt, &chain, word.as_str()),
        None => answers(rt, &chain),
    }
}

/// Runs by the words: how many commits, and the name of a walk.
pub fn run(rt: &HostRuntime, words: &[String]) -> Option<()> {
    tell(rt, number_at(words, 0)?, words.get(1))
}
