// The components of a name: what stands between its slashes.
ghost use Rattle.std.specs.Prelude.{◌↔◌, IsTrue};
ghost use Rattle.std.specs.List.{Any};
ghost use Rattle.ref_name.specs.Rules.{IsBadComponent, components};

use crate::words::{begins, ends};
use rad_base::until;

fn is_bad(component: &[u8]) -> bool
    ensures { IsTrue result ↔ IsBadComponent component.now }
{
    begins(component, b".") || ends(component, b".lock")
}

pub(crate) fn has_bad_component(name: &[u8]) -> bool
    ensures { IsTrue result ↔ Any IsBadComponent (components name.now) }
{
    let mut rest = name;
    'parts: while let Some((component, more)) = until(rest, b'/') {
        if is_bad(component) {
            return true;
        }
        rest = more;
    }
    is_bad(rest)
}
