// The names that a repository's peers need not send again.
ghost use Rattle.std.specs.Prelude.{◌≡◌, ◌↔◌, ◌⊎◌, List, Contains, Some, IfOk, OnOk, IsTrue};
ghost use Rattle.std.specs.BTreeSet.{IsOrdered, contains};
ghost use Rattle.rad_base.specs.declared.names.Nid.{Nid};
ghost use Rattle.rad_base.specs.declared.names.Oid.{Oid};
ghost use Rattle.rad_base.specs.Order.{oid_cmp};
ghost use Rattle.repo_slice.specs.Keeps.{AreRisingNames};
ghost use Rattle.slice_names.specs.Names.{AreTold};

use rad_base::{Nid, NoMemory, Oid, Oids};
use std::alloc::{AllocError, Global};
use std::collections::BTreeSet;

// The names of a set, rising.
fn keys_of(alloc: Global, names: &BTreeSet<Oid>) -> Result<Vec<Oid>, AllocError>
    ensures keys { IfOk result (λ list. list.items ≡ names.now.keys) }
    ensures ordered { IsOrdered oid_cmp names.now }
{
    names.iter().copied().collect(alloc)
}

// Adds the commits of some remotes.
fn add_commits(names: &mut BTreeSet<Oid>, remotes: &[(Nid, Oid)]) -> Result<(), AllocError>
    ensures { OnOk result (AreTold names.old names.new remotes.now) }
{
    for remote in remotes {
        names.insert(remote.1)?;
    }
    Ok(())
}

// A set of one name.
fn one(alloc: Global, id: Oid) -> Result<BTreeSet<Oid>, AllocError>
    ensures { IfOk result (λ set. (oid : Oid) → IsTrue (contains oid_cmp set oid) ↔ (id ≡ oid)) }
{
    let mut names = BTreeSet::new(alloc);
    names.insert(id)?;
    Ok(names)
}

// A set of one name, or of none.
fn set_of(alloc: Global, id: Option<Oid>) -> Result<BTreeSet<Oid>, AllocError>
    ensures { IfOk result (λ set. (oid : Oid) → IsTrue (contains oid_cmp set oid) ↔ (id ≡ Some oid)) }
{
    match id {
        None => Ok(BTreeSet::new(alloc)),
        Some(id) => one(alloc, id),
    }
}

/// The names of an identity and of the commits of remotes, rising, each once.
pub fn names_of(alloc: Global, id: Option<Oid>, remotes: &[(Nid, Oid)]) -> Result<Oids, NoMemory>
    ensures rising { IfOk result AreRisingNames }
    ensures names { IfOk result (λ oids. (oid : Oid) → Contains oids oid
        ↔ ((id ≡ Some oid) ⊎ ((node : Nid) × Contains remotes.now (node, oid)))) }
{
    let mut names = set_of(alloc, id)?;
    add_commits(&mut names, remotes)?;
    let list = keys_of(alloc, &names)?;
    Ok(Oids::of(list))
}
