// Remotes: keys of nodes with a commit each.
ghost use Rattle.std.specs.Prelude.{◌≡◌, ◌∷◌, ◌++◌, [], IsTrue, ◌↔◌, OnOk, OnErr};
ghost use Rattle.rad_base.specs.Order.{IsAbove, IsRising, commit_of, is_above};

use crate::{Nid, NoMemory, Oid};
use std::alloc::Global;
use std::marker::Model;

/// Each node's key with the name of its commit, the keys strictly rising. Contracts see it as the
/// list of pairs.
#[derive(Debug, Drop)]
pub struct Remotes {
    items: Vec<(Nid, Oid)>,
}

impl Model for Remotes {
    ghost use Rattle.std.specs.Prelude.{List};
    ghost use Rattle.rad_base.specs.declared.names.Nid.{Nid};
    ghost use Rattle.rad_base.specs.declared.names.Oid.{Oid};
    ghost use Rattle.rad_base.specs.Order.{IsRising};

    ghost Value = { List (Nid × Oid) };

    ghost view = { λ list. list.items.items };

    ghost invariant = { λ list. IsRising list.items.items };
}

impl Remotes {
    /// No remote.
    pub fn new(alloc: Global) -> Self
        ensures { result ≡ [] }
    {
        Remotes {
            items: Vec::new(alloc),
        }
    }

    /// These remotes, in their vector. The keys are strictly rising.
    pub fn of(items: Vec<(Nid, Oid)>) -> Self
        requires { IsRising items.items }
        ensures { result ≡ items.items }
    {
        Remotes { items }
    }

    /// Adds a remote whose key is above those before it. `NoMemory`: memory was refused, and the
    /// list stays as it was.
    pub fn push(&mut self, node: Nid, oid: Oid) -> Result<(), NoMemory>
        requires { IsAbove self.old node }
        ensures ok { OnOk result (self.new ≡ self.old ++ (node, oid) ∷ []) }
        ensures err { OnErr result (self.new ≡ self.old) }
    {
        self.items.push((node, oid))?;
        Ok(())
    }

    /// Whether a key is above those of the list, so that it may be pushed.
    pub fn is_above(&self, node: &Nid) -> bool
        ensures test { result ≡ is_above self.now node.now }
        ensures above { IsTrue result ↔ IsAbove self.now node.now }
    {
        match self.as_slice().last() {
            Some(last) => last.0.cmp(node).is_lt(),
            None => true,
        }
    }

    /// The name of a node's commit, if the node has a remote. It looks at few of the remotes, as
    /// their keys rise.
    pub fn get(&self, node: &Nid) -> Option<Oid>
        ensures { result ≡ commit_of self.now node.now }
    {
        let remotes = self.as_slice();
        match remotes.binary_search_by_key(node, |remote| remote.0) {
            Ok(i) => Some(remotes[i].1),
            Err(_) => None,
        }
    }

    /// The remotes, their keys strictly rising.
    pub fn as_slice(&self) -> &[(Nid, Oid)]
        ensures items { result.now ≡ self.now }
        ensures rising { IsRising self.now }
    {
        &self.items
    }

    /// Gives the vector back.
    pub fn into_vec(self) -> Vec<(Nid, Oid)>
        ensures items { result.items ≡ self }
        ensures rising { IsRising self }
    {
        self.items
    }
}
