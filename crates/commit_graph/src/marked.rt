// Names with which pairs are marked.
ghost use Rattle.std.specs.Prelude.{◌≡◌, ◌<◌, [], ◌∷◌, length, slice_get, OnOk, Some, None};
ghost use Rattle.commit_graph.specs.declared.root.Root.{Root};
ghost use Rattle.commit_graph.specs.Marking.{MarksAll, mark_in, queue_in};

use crate::Root;
use rad_base::Oid;
use std::alloc::{AllocError, Global};
use std::collections::BTreeMap;

/// The mark of each pair that has one, and the marked pairs in the order of marking.
#[derive(Drop)]
pub(crate) struct Marks {
    pub(crate) names: BTreeMap<Root, Oid>,
    pub(crate) queue: Vec<Root>,
}

impl Marks {
    pub(crate) fn new(alloc: Global) -> Self
        ensures none { (pair : Root) → mark_in result pair ≡ None }
        ensures queue { queue_in result ≡ [] }
    {
        Marks {
            names: BTreeMap::new(alloc),
            queue: Vec::new(alloc),
        }
    }

    pub(crate) fn len(&self) -> usize
        ensures { result ≡ length (queue_in self.now) }
    {
        self.queue.len()
    }

    pub(crate) fn at(&self, i: usize) -> Root
        requires { i < length (queue_in self.now) }
        ensures { slice_get (queue_in self.now) i ≡ Some result }
    {
        self.queue[i]
    }

    /// The mark of a pair, if it has one.
    pub(crate) fn mark(&self, pair: Root) -> Option<Oid>
        ensures { result ≡ mark_in self.now pair }
    {
        self.names.get(&pair).copied()
    }

    /// Marks a pair with a name, unless it has a mark.
    pub(crate) fn add(&mut self, pair: Root, oid: Oid) -> Result<(), AllocError>
        ensures { OnOk result (MarksAll self.old (pair ∷ []) oid self.new) }
    {
        if self.names.contains_key(&pair) {
            return Ok(());
        }
        self.names.insert(pair, oid)?;
        self.queue.push(pair)?;
        Ok(())
    }

    /// Marks those of the pairs with a name that have no mark.
    pub(crate) fn extend(&mut self, pairs: &[Root], oid: Oid) -> Result<(), AllocError>
        ensures { OnOk result (MarksAll self.old pairs.now oid self.new) }
    {
        for pair in pairs {
            self.add(*pair, oid)?;
        }
        Ok(())
    }
}
