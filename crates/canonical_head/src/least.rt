// The least of some names.
ghost use Rattle.canonical_head.specs.Least.{IsLeastIn};

use commit_graph::lesser;
use rad_base::Oid;

/// The least of the names, if there is one.
pub(crate) fn least(names: &[Oid]) -> Option<Oid>
    ensures { IsLeastIn names.now result }
{
    let mut best = None;
    for name in names {
        best = Some(lesser(best, *name));
    }
    best
}
