// The links of a walk, kept backwards.
ghost use Rattle.std.specs.Prelude.{◌≡◌, ◌↔◌, ◌⊎◌, OnOk, Contains, map};
ghost use Rattle.commit_graph.specs.declared.root.Root.{Root};
ghost use Rattle.commit_graph.specs.Pairs.{pair_of};
ghost use Rattle.commit_graph.specs.Backward.{LinksTo, before_in};

use crate::Root;
use crate::root::pair_of;
use git_object::LinkTo;
use std::alloc::{AllocError, Global};
use std::collections::BTreeMap;

/// For each pair the pairs that link to it, once for each link.
#[derive(Drop)]
pub(crate) struct Backward {
    pub(crate) from: BTreeMap<Root, Vec<Root>>,
}

impl Backward {
    pub(crate) fn new(alloc: Global) -> Self
        ensures { (p q : Root) → LinksTo result p q → ⊥ }
    {
        Backward {
            from: BTreeMap::new(alloc),
        }
    }

    // Adds a link from one pair to another.
    fn add(&mut self, alloc: Global, from: Root, to: Root) -> Result<(), AllocError>
        ensures { OnOk result ((p q : Root) → LinksTo self.new p q
            ↔ (LinksTo self.old p q ⊎ ((p ≡ from) × (q ≡ to)))) }
    {
        let mut list = match self.from.remove(&to) {
            Some(list) => list,
            None => Vec::new(alloc),
        };
        list.push(from)?;
        self.from.insert(to, list)?;
        Ok(())
    }

    /// Adds the links of a pair.
    pub(crate) fn add_links(
        &mut self,
        alloc: Global,
        from: Root,
        links: &[LinkTo],
    ) -> Result<(), AllocError>
        ensures { OnOk result ((p q : Root) → LinksTo self.new p q
            ↔ (LinksTo self.old p q ⊎ ((p ≡ from) × Contains (map pair_of links.now) q))) }
    {
        for link in links {
            self.add(alloc, from, pair_of(*link))?;
        }
        Ok(())
    }

    /// The pairs that link to one.
    pub(crate) fn before(&self, to: Root) -> &[Root]
        ensures { result.now ≡ before_in self.now to }
    {
        match self.from.get(&to) {
            Some(list) => list.as_slice(),
            None => &[],
        }
    }
}
