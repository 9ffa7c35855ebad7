// Pairs of a name and an expected kind.
ghost use Rattle.std.specs.Prelude.{◌≡◌, ◌↔◌, IsTrue};
ghost use Rattle.commit_graph.specs.Pairs.{Accepts, as_commit, is_commit_link, pair_of};

use git_object::{Kind, LinkTo};
use rad_base::Oid;

/// A name with the kind that its object is expected to have; none stands for any kind.
#[derive(Clone, Copy, Debug, PartialEq, Eq, PartialOrd, Ord)]
pub struct Root {
    /// The name.
    pub oid: Oid,
    /// The kind that its object is expected to have; none for any.
    pub kind: Option<Kind>,
}

pub(crate) fn is_expected(expected: Option<Kind>, kind: Kind) -> bool
    ensures { IsTrue result ↔ Accepts expected kind }
{
    match expected {
        None => true,
        Some(wanted) => wanted == kind,
    }
}

pub(crate) fn commit(oid: Oid) -> Root
    ensures { result ≡ as_commit oid }
{
    Root {
        oid,
        kind: Some(Kind::Commit),
    }
}

pub(crate) fn pair_of(link: LinkTo) -> Root
    ensures { result ≡ pair_of link }
{
    Root {
        oid: link.oid,
        kind: Some(link.kind),
    }
}

pub(crate) fn is_commit_link(link: LinkTo) -> bool
    ensures { result ≡ is_commit_link link }
{
    matches!(link.kind, Kind::Commit)
}

pub(crate) fn is_named(pair: Root, oid: &Oid) -> bool
    ensures { IsTrue result ↔ (pair.oid ≡ oid.now) }
{
    pair.oid == *oid
}
