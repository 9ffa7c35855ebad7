// What offered remotes are judged by, beside the objects.
ghost use Rattle.std.specs.Prelude.{◌≡◌, ◌↔◌, Contains, IfOk, IsTrue};
ghost use Rattle.std.specs.BTreeSet.{contains};
ghost use Rattle.std.specs.List.{list_any};
ghost use Rattle.std.specs.Ordering.{eq_by_cmp};
ghost use Rattle.rad_base.specs.declared.names.Nid.{Nid};
ghost use Rattle.rad_base.specs.Order.{nid_cmp};
ghost use Rattle.repo_slice.specs.Outcomes.{AreFollowed, IsInScope};

use crate::{Scope, State};
use identity_doc::Doc;
use keyring::Keyring;
use rad_base::Nid;
use std::alloc::{AllocError, Global};
use std::collections::BTreeSet;

/// What offered remotes are judged by, beside the objects.
#[derive(Drop)]
pub(crate) struct Terms<'a> {
    pub(crate) state: &'a State,
    pub(crate) keyring: &'a Keyring,
    pub(crate) doc: &'a Doc,
    pub(crate) scope: &'a Scope,
    pub(crate) followed: &'a BTreeSet<Nid>,
    ghost known: { AreFollowed scope.now followed.now },
}

// The nodes as a set.
fn set_of(alloc: Global, nodes: &[Nid]) -> Result<BTreeSet<Nid>, AllocError>
    ensures { IfOk result (λ set. (node : Nid)
        → contains nid_cmp set node ≡ list_any (eq_by_cmp nid_cmp node) nodes.now) }
{
    let mut set = BTreeSet::new(alloc);
    for node in nodes {
        set.insert(*node)?;
    }
    Ok(set)
}

/// The nodes that are followed; none where all are wanted.
pub(crate) fn followed_of(alloc: Global, scope: &Scope) -> Result<BTreeSet<Nid>, AllocError>
    ensures { IfOk result (AreFollowed scope.now) }
{
    match scope {
        Scope::All => Ok(BTreeSet::new(alloc)),
        Scope::Followed(nodes) => set_of(alloc, nodes.as_slice()),
    }
}

fn is_delegate(delegates: &[Nid], node: &Nid) -> bool
    ensures { IsTrue result ↔ Contains delegates.now node.now }
{
    delegates.contains(node)
}

/// Whether a node is in scope.
pub(crate) fn is_in_scope(terms: &Terms<'_>, node: &Nid) -> bool
    ensures { IsTrue result
        ↔ IsInScope terms.now.scope.now terms.now.doc.now.delegates node.now }
{
    let delegates = terms.doc.delegates.as_slice();
    match terms.scope {
        Scope::All => true,
        Scope::Followed(_) => is_delegate(delegates, node) || terms.followed.contains(node),
    }
}
