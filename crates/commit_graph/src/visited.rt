// The list that a walk fills and follows.
ghost use Rattle.std.specs.Prelude.{◌≡◌, ◌<◌, ◌^◌, [], length, slice_get, OnOk, OnErr, Some};
ghost use Rattle.std.specs.Prelude.{IsTrue, ◌↔◌, Contains, map, filter};
ghost use Rattle.rad_base.specs.Lists.{AllDiffer};
ghost use Rattle.commit_graph.specs.Lists.{Adds, Extends};
ghost use Rattle.commit_graph.specs.Pairs.{pair_of, is_commit_link};

use crate::Root;
use crate::root::{is_commit_link, pair_of};
use git_object::LinkTo;
use std::alloc::{AllocError, Global};
use std::collections::BTreeSet;
use std::marker::Model;

/// The pairs that a walk has come to, each once, in the order of coming. Contracts see it as their
/// list.
#[derive(Drop)]
pub(crate) struct Visited {
    marks: BTreeSet<Root>,
    queue: Vec<Root>,
}

impl Model for Visited {
    ghost use Rattle.std.specs.Prelude.{List};
    ghost use Rattle.commit_graph.specs.declared.root.Root.{Root};
    ghost use Rattle.commit_graph.specs.Lists.{IsMarked};

    ghost Value = { List Root };

    ghost view = { λ v. v.queue.items };

    ghost invariant = { λ v. IsMarked ⟦<Root as Ord>⟧.cmp v.marks v.queue.items };
}

impl Visited {
    pub(crate) fn new(alloc: Global) -> Self
        ensures { result ≡ [] }
    {
        Visited {
            marks: BTreeSet::new(alloc),
            queue: Vec::new(alloc),
        }
    }

    pub(crate) fn len(&self) -> usize
        ensures counted { result ≡ length self.now }
        ensures differ { AllDiffer self.now }
    {
        self.queue.len()
    }

    pub(crate) fn at(&self, i: usize) -> Root
        requires { i < length self.now }
        ensures { slice_get self.now i ≡ Some result }
    {
        self.queue[i]
    }

    /// Adds a pair at the end, unless it is there.
    pub(crate) fn add(&mut self, pair: Root) -> Result<(), AllocError>
        ensures ok { OnOk result (Adds self.old pair self.new) }
        ensures err { OnErr result (self.new ≡ self.old) }
        ensures few { length self.new < 2 ^ 64 }
    {
        if !self.marks.insert(pair)? {
            return Ok(());
        }
        match self.queue.push(pair) {
            Ok(()) => Ok(()),
            Err(_) => {
                self.marks.remove(&pair);
                Err(AllocError)
            }
        }
    }

    /// Adds those of the pairs that are not there yet, in order.
    pub(crate) fn extend(&mut self, pairs: &[Root]) -> Result<(), AllocError>
        ensures { OnOk result (Extends self.old pairs.now self.new) }
    {
        for pair in pairs {
            self.add(*pair)?;
        }
        Ok(())
    }

    /// Adds those of the links that are not there yet, in order.
    pub(crate) fn follow(&mut self, links: &[LinkTo]) -> Result<(), AllocError>
        ensures { OnOk result (Extends self.old (map pair_of links.now) self.new) }
    {
        for link in links {
            self.add(pair_of(*link))?;
        }
        Ok(())
    }

    /// Adds those of the links to commits that are not there yet, in order.
    pub(crate) fn follow_commits(&mut self, links: &[LinkTo]) -> Result<(), AllocError>
        ensures { OnOk result
            (Extends self.old (map pair_of (filter is_commit_link links.now)) self.new) }
    {
        for link in links {
            if is_commit_link(*link) {
                self.add(pair_of(*link))?;
            }
        }
        Ok(())
    }

    pub(crate) fn contains(&self, pair: Root) -> bool
        ensures { IsTrue result ↔ Contains self.now pair }
    {
        self.marks.contains(&pair)
    }

    pub(crate) fn as_slice(&self) -> &[Root]
        ensures { result.now ≡ self.now }
    {
        self.queue.as_slice()
    }
}
