// The objects of a put.
ghost use Rattle.std.specs.Prelude.{◌≡◌, ◌∷◌, ◌++◌, ◌≤◌, ℕ, List, length, IfOk, IfSome, IfNone};
ghost use Rattle.commit_graph.specs.Objects.{Object};
ghost use Rattle.entry_bodies.specs.Lists.{SpellObjects};

use crate::fronts::object_front;
use rad_base::{Bytes, NoMemory};
use repo_entries::Batch;
use std::alloc::Global;

/// So many objects, which are all of the bytes. None where the bytes are no such.
pub(crate) fn objects_in(alloc: Global, bytes: &[u8], count: u32) -> Result<Option<Batch>, NoMemory>
    ensures found { IfOk result (λ found. IfSome found (SpellObjects bytes.now count)) }
    ensures none { IfOk result (λ found. IfNone found ((objects : List Object)
        → SpellObjects bytes.now count objects → ⊥)) }
{
    let mut batch = Batch::new(alloc);
    let mut rest = bytes;
    'objects: for _ in 0..count {
        let Some((kind, content, more)) = object_front(rest) else {
            return Ok(None);
        };
        batch.push(kind, Bytes::copy_of(alloc, content)?)?;
        rest = more;
    }
    if rest.is_empty() {
        Ok(Some(batch))
    } else {
        Ok(None)
    }
}
