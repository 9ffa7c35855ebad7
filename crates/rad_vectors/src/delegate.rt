// Delegates, and the objects of their signed refs.
ghost use Rattle.std.specs.Prelude.{◌≡◌, ◌≤◌, length};

use rad_base::Nid;

/// A delegate: its key, and the text of its refs, of at most 32 MiB.
#[derive(Debug, Drop)]
pub(crate) struct Delegate {
    pub(crate) key: Nid,
    pub(crate) refs: Vec<u8>,
    ghost small: { length refs.items ≤ 33554432 },
}
