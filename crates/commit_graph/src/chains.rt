// The commits from a root to a tip.
ghost use Rattle.std.specs.Prelude.{◌≡◌, ◌≤◌, ◌+◌, ◌∷◌, [], List, length, IfOk, IfErr};
ghost use Rattle.std.specs.Prelude.{map, reverse};
ghost use Rattle.std.specs.Option.{ForSome};
ghost use Rattle.commit_graph.specs.Faults.{KeepsObjects};
ghost use Rattle.commit_graph.specs.Pairs.{as_commit, oid_of};
ghost use Rattle.commit_graph.specs.Closures.{IsClosed};
ghost use Rattle.commit_graph.specs.Histories.{CoversHistory};
ghost use Rattle.commit_graph.specs.Chains.{linked_commits, HasParents, IsChain, IsChainFault};
ghost use Rattle.commit_graph.specs.Chains.{fault_in};

use crate::answer::Chain;
use crate::look::{Looked, look};
use crate::root::{commit, is_commit_link};
use crate::visited::Visited;
use crate::{GetFault, Objects, Root};
use git_object::LinkTo;
use rad_base::Oid;
use std::alloc::{AllocError, Global};

/// Why there is no chain.
#[derive(Clone, Copy, Debug, PartialEq, Eq)]
pub enum ChainFault {
    /// The first commit, from the tip, that has two parents or more.
    TwoParents(Oid),
    /// The walk from the tip comes back to this commit.
    NoRoot(Oid),
    /// A commit could not be had.
    Get(GetFault),
}

impl From<GetFault> for ChainFault {
    ghost use Rattle.std.specs.Prelude.{◌≡◌};
    ghost use Rattle.commit_graph.specs.declared.chains.ChainFault.{ChainFault};
    ghost use Rattle.commit_graph.specs.declared.chains.ChainFault.TheVariants.{Get};

    ghost from_gives = { λ fault why. why ≡ Get fault };

    fn from(fault: GetFault) -> Self {
        ChainFault::Get(fault)
    }
}

impl From<AllocError> for ChainFault {
    ghost use Rattle.std.specs.Prelude.{◌≡◌};
    ghost use Rattle.commit_graph.specs.declared.fault.GetFault.TheVariants.{NoMemory};
    ghost use Rattle.commit_graph.specs.declared.chains.ChainFault.{ChainFault};
    ghost use Rattle.commit_graph.specs.declared.chains.ChainFault.TheVariants.{Get};

    ghost from_gives = { λ _ why. why ≡ Get NoMemory };

    fn from(_: AllocError) -> Self {
        ChainFault::Get(GetFault::NoMemory)
    }
}

fn parents_among(alloc: Global, links: &[LinkTo]) -> Result<Vec<Oid>, AllocError>
    ensures { IfOk result (λ parents. parents.items ≡ linked_commits links.now) }
{
    links
        .iter()
        .filter(|link| is_commit_link(**link))
        .map(|link| link.oid)
        .collect(alloc)
}

/// The parents of a commit, in order; none where the name has no well-formed commit.
fn parents_at<O: Objects>(
    alloc: Global,
    objects: &mut O,
    oid: Oid,
    buffer: &mut Vec<LinkTo>,
) -> Result<Vec<Oid>, GetFault>
    ensures told { ForSome (O.content objects.old) (λ m. IfOk result (λ parents. (each : List Oid)
        → HasParents m oid each → each ≡ parents.items)) }
    ensures keeps { KeepsObjects O.content O.beside O.places O.faults Some objects.old objects.new
        result }
    ensures looked { O.looks objects.new ≤ O.looks objects.old + 1 }
{
    match look(objects, commit(oid), buffer)? {
        Looked::Fit(links) => Ok(parents_among(alloc, links)?),
        Looked::Missing | Looked::Unfit => Ok(Vec::new(alloc)),
    }
}

// The names of the pairs, from the last.
fn names_back(alloc: Global, pairs: &[Root]) -> Result<Vec<Oid>, AllocError>
    ensures { IfOk result (λ names. names.items ≡ map oid_of (reverse pairs.now)) }
{
    pairs.iter().rev().map(|pair| pair.oid).collect(alloc)
}

/// The commits from the root to the tip: the root has no parent, and each later one has the one
/// before as its only parent. The tip is closed as a commit. Each commit is looked up at most once.
///
/// `TwoParents` and `NoRoot` as `ChainFault` says; `Get` is the fault of a look-up, or want of
/// memory.
pub fn chain<O: Objects>(alloc: Global, objects: &mut O, tip: &Oid) -> Result<Chain, ChainFault>
    requires { ForSome (O.content objects.old) (λ m. IsClosed m (as_commit tip.now ∷ [])) }
    ensures told { ForSome (O.content objects.old)
        (λ m. IfOk result (λ chain. IsChain m chain tip.now)) }
    ensures refused { ForSome (O.content objects.old) (λ m. IfErr result (IsChainFault m tip.now)) }
    ensures keeps { KeepsObjects O.content O.beside O.places O.faults fault_in objects.old
        objects.new result }
    ensures looked { ForSome (O.content objects.old) (λ m. (commits : List Oid)
        → CoversHistory m tip.now commits
        → O.looks objects.new ≤ O.looks objects.old + length commits) }
{
    let mut line = Visited::new(alloc);
    let mut buffer = Vec::new(alloc);
    let mut oid = *tip;
    'walking: loop {
        if line.contains(commit(oid)) {
            return Err(ChainFault::NoRoot(oid));
        }
        line.add(commit(oid))?;
        let parents = parents_at(alloc, objects, oid, &mut buffer)?;
        match parents.as_slice() {
            [] => return Ok(Chain::of(names_back(alloc, line.as_slice())?)),
            [parent] => oid = *parent,
            _ => return Err(ChainFault::TwoParents(oid)),
        }
    }
}
