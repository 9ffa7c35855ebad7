// Reading remotes that stand one behind the other.
ghost use Rattle.std.specs.Prelude.{◌≡◌, ◌∷◌, ◌++◌, ◌≤◌, ℕ, List, length, IfOk, IfSome, IfNone};
ghost use Rattle.rad_base.specs.declared.names.Nid.{Nid};
ghost use Rattle.rad_base.specs.declared.names.Oid.{Oid};
ghost use Rattle.rad_base.specs.RemoteTexts.{AreRemotes};

use crate::fronts::remote_front;
use crate::{NoMemory, Remotes};
use std::alloc::Global;

/// So many remotes, which are all of the bytes, their keys rising. None where the bytes are no such.
pub fn remotes_in(alloc: Global, bytes: &[u8], count: u16) -> Result<Option<Remotes>, NoMemory>
    ensures found { IfOk result (λ found. IfSome found (AreRemotes bytes.now count)) }
    ensures none { IfOk result (λ found. IfNone found ((remotes : List (Nid × Oid))
        → AreRemotes bytes.now count remotes → ⊥)) }
{
    let mut remotes = Remotes::new(alloc);
    let mut rest = bytes;
    'remotes: for _ in 0..count {
        let Some((node, oid, more)) = remote_front(rest) else {
            return Ok(None);
        };
        if !remotes.is_above(&node) {
            return Ok(None);
        }
        remotes.push(node, oid)?;
        rest = more;
    }
    if rest.is_empty() {
        Ok(Some(remotes))
    } else {
        Ok(None)
    }
}
