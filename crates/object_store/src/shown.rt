// Which repositories a store shows.
ghost use Rattle.std.specs.Prelude.{◌≡◌, ◌↔◌, ◌∷◌, ◌++◌, [], if◌then◌else◌, Contains, IfOk};
ghost use Rattle.std.specs.Prelude.{IsTrue, OnOk};
ghost use Rattle.std.specs.BTreeMap.{IsOrdered, get, keys};
ghost use Rattle.rad_base.specs.Order.{rid_cmp};
ghost use Rattle.rad_base.specs.declared.names.Rid.{Rid};
ghost use Rattle.object_store.specs.Shown.{AreRisingRids, IsBare, is_bare, is_shown};

use crate::repository::Repository;
use rad_base::{NoMemory, Rid, Rids};
use repo_slice::Slice;
use std::alloc::{AllocError, Global};
use std::collections::BTreeMap;

// Whether a slice has no object and no identity.
pub(crate) fn is_bare(slice: &Slice) -> bool
    ensures told { IsTrue result ↔ IsBare slice.now }
    ensures test { result ≡ is_bare slice.now }
{
    slice.count() == 0 && slice.id().is_none()
}

// Whether a repository is known and has an object or an identity.
fn is_shown(all: &BTreeMap<Rid, Repository>, rid: &Rid) -> bool
    ensures { result ≡ is_shown (get rid_cmp all.now rid.now) }
{
    match all.get(rid) {
        None => false,
        Some(repository) => !is_bare(&repository.slice),
    }
}

// The names of all, rising.
fn keys_of(alloc: Global, all: &BTreeMap<Rid, Repository>) -> Result<Vec<Rid>, AllocError>
    ensures keys { IfOk result (λ list. list.items ≡ keys all.now) }
    ensures ordered { IsOrdered rid_cmp all.now }
{
    all.keys().copied().collect(alloc)
}

// Adds a name, if it is shown.
fn add(shown: &mut Rids, rid: &Rid, is: bool) -> Result<(), NoMemory>
    ensures { OnOk result (shown.new ≡ (if is then shown.old ++ rid.now ∷ [] else shown.old)) }
{
    if is {
        shown.push(*rid)?;
    }
    Ok(())
}

// The names of those that have an object or an identity, rising.
pub(crate) fn shown_names(alloc: Global, all: &BTreeMap<Rid, Repository>) -> Result<Rids, NoMemory>
    ensures rising { IfOk result AreRisingRids }
    ensures names { IfOk result (λ rids. (rid : Rid) → Contains rids rid
        ↔ IsTrue (is_shown (get rid_cmp all.now rid))) }
{
    let names = keys_of(alloc, all)?;
    let mut shown = Rids::new(alloc);
    for rid in &names {
        add(&mut shown, rid, is_shown(all, rid))?;
    }
    Ok(shown)
}
