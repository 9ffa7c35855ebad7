// Which nodes have which repositories.
ghost use Rattle.std.specs.Prelude.{◌≡◌, ◌↔◌, ◌⊎◌, ◌||◌, Bool, Contains, IfOk, OnOk, IsTrue, false};
ghost use Rattle.announcements.specs.Held.{kept_in};
ghost use Rattle.rad_base.specs.declared.names.Nid.{Nid};
ghost use Rattle.rad_base.specs.declared.names.Rid.{Rid};
ghost use Rattle.routing.specs.RoutesOf.{AreNodes, AreRoutes, has_route};

use announcements::Table;
use rad_base::{Nid, Nids, NoMemory, Rid};
use std::alloc::Global;
use std::collections::BTreeSet;

/// For each repository the nodes whose kept inventory names it.
#[derive(Drop)]
pub struct Routes {
    // Each has a node: none is the bound below the nodes of a repository.
    pub(crate) pairs: BTreeSet<(Rid, Option<Nid>)>,
}

impl Routes {
    // No routes.
    fn new(alloc: Global) -> Self
        ensures { (rid : Rid) (node : Nid) → has_route result rid node ≡ false }
    {
        Routes {
            pairs: BTreeSet::new(alloc),
        }
    }

    // Adds a node for a repository.
    fn add(&mut self, rid: Rid, node: Nid) -> Result<(), NoMemory>
        ensures { OnOk result ((r : Rid) (n : Nid) → IsTrue (has_route self.new r n)
            ↔ (IsTrue (has_route self.old r n) ⊎ ((r ≡ rid) × (n ≡ node)))) }
    {
        self.pairs.insert((rid, Some(node)))?;
        Ok(())
    }

    // Adds a node for each of some repositories.
    fn add_all(&mut self, node: Nid, rids: &[Rid]) -> Result<(), NoMemory>
        ensures { OnOk result ((r : Rid) (n : Nid) → IsTrue (has_route self.new r n)
            ↔ (IsTrue (has_route self.old r n) ⊎ ((n ≡ node) × Contains rids.now r))) }
    {
        for rid in rids {
            self.add(*rid, node)?;
        }
        Ok(())
    }

    /// The routes by the inventories that a table keeps. `NoMemory`: memory for them was refused.
    pub fn of(alloc: Global, table: &Table) -> Result<Routes, NoMemory>
        ensures { IfOk result (AreRoutes (kept_in table.now)) }
    {
        let mut routes = Routes::new(alloc);
        let nodes = table.inventories(alloc)?;
        for node in nodes.as_slice() {
            if let Some(rids) = table.inventory(node) {
                routes.add_all(*node, rids)?;
            }
        }
        Ok(routes)
    }

    /// The nodes whose inventory names a repository, rising. `NoMemory`: memory for them was
    /// refused.
    pub fn nodes(&self, alloc: Global, rid: &Rid) -> Result<Nids, NoMemory>
        ensures { IfOk result (AreNodes self.now rid.now) }
    {
        let mut nodes = Nids::new(alloc);
        for (other, node) in self.pairs.range((*rid, None)..) {
            if other != rid {
                break;
            }
            if let Some(node) = node {
                nodes.push(*node)?;
            }
        }
        Ok(nodes)
    }
}
