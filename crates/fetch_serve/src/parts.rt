// What requests say.
ghost use Rattle.std.specs.Prelude.{◌≡◌};
ghost use Rattle.fetch_serve.specs.Replies.{haves_of, lacks, nodes_of, rid_of};

use fetch_wire::Request;
use rad_base::{Nid, Oid, Remotes, Rid};

/// The repository that is asked for, if one is.
pub(crate) fn rid_of(request: &Request) -> Option<Rid>
    ensures { result ≡ rid_of request.now }
{
    match request {
        Request::Begin(rid, _) | Request::Sigs(rid, _, _) | Request::Tips(rid, _, _) => Some(*rid),
        Request::Done => None,
    }
}

/// The haves.
pub(crate) fn haves_of(request: &Request) -> &[Oid]
    ensures { result.now ≡ haves_of request.now }
{
    match request {
        Request::Begin(_, haves) => haves.as_slice(),
        Request::Sigs(_, haves, _) => haves.as_slice(),
        Request::Tips(_, haves, _) => haves.as_slice(),
        Request::Done => &[],
    }
}

/// The nodes that are named.
pub(crate) fn nodes_of(request: &Request) -> &[Nid]
    ensures { result.now ≡ nodes_of request.now }
{
    match request {
        Request::Begin(_, _) => &[],
        Request::Sigs(_, _, nodes) => nodes.as_slice(),
        Request::Tips(_, _, nodes) => nodes.as_slice(),
        Request::Done => &[],
    }
}

/// Whether a node that is named has no remote.
pub(crate) fn lacks(remotes: &Remotes, nodes: &[Nid]) -> bool
    ensures { result ≡ lacks remotes.now nodes.now }
{
    nodes.iter().any(|node| remotes.get(node).is_none())
}
