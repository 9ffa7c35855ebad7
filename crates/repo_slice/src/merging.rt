// Remotes of which some are replaced or added.
ghost use Rattle.std.specs.Prelude.{◌≡◌, IfOk, OnOk};
ghost use Rattle.std.specs.Option.{option_or};
ghost use Rattle.std.specs.BTreeMap.{get};
ghost use Rattle.rad_base.specs.declared.names.Nid.{Nid};
ghost use Rattle.rad_base.specs.Order.{IsRising, commit_of, nid_cmp};
ghost use Rattle.repo_slice.specs.Standing.{Replaces};

use rad_base::{Nid, NoMemory, Oid, Remotes};
use std::alloc::{AllocError, Global};
use std::collections::BTreeMap;

// Puts each remote into a map.
fn put_all(map: &mut BTreeMap<Nid, Oid>, pairs: &[(Nid, Oid)]) -> Result<(), NoMemory>
    requires { IsRising pairs.now }
    ensures { OnOk result ((node : Nid) → get nid_cmp map.new node
        ≡ option_or (commit_of pairs.now node) (get nid_cmp map.old node)) }
{
    for (node, commit) in pairs {
        map.insert(*node, *commit)?;
    }
    Ok(())
}

// The remotes in a map, in order of their keys.
fn pairs_of(alloc: Global, map: &BTreeMap<Nid, Oid>) -> Result<Vec<(Nid, Oid)>, AllocError>
    ensures { IfOk result (λ pairs. pairs.items ≡ map.now.entries) }
{
    let mut pairs = Vec::new(alloc);
    for (node, commit) in map {
        pairs.push((*node, *commit))?;
    }
    Ok(pairs)
}

/// The old remotes with some replaced or added. `NoMemory`: memory was refused.
pub fn merged(alloc: Global, old: &Remotes, some: &Remotes) -> Result<Remotes, NoMemory>
    ensures { IfOk result (Replaces old.now some.now) }
{
    let mut map = BTreeMap::new(alloc);
    put_all(&mut map, old.as_slice())?;
    put_all(&mut map, some.as_slice())?;
    let pairs = pairs_of(alloc, &map)?;
    let _count = map.len();
    Ok(Remotes::of(pairs))
}
