// Names of refs under the namespace of a node.
ghost use Rattle.std.specs.Prelude.{◌≡◌, IfOk};
ghost use Rattle.signed_refs.specs.Namespaces.{namespaced};

use rad_base::{Bytes, Nid, NoMemory};
use ref_name::RefName;
use std::alloc::Global;

/// The name under which a node's ref stands: `refs/namespaces/`, the 64 lower case hexadecimal
/// digits of the node's key, `/` and the name of the ref.
pub fn namespace(alloc: Global, node: &Nid, name: &RefName) -> Result<Bytes, NoMemory>
    ensures { IfOk result (λ bytes. bytes ≡ namespaced node.now name.now) }
{
    let key = node.text(alloc)?;
    let mut bytes = Vec::new(alloc);
    bytes.extend_from_slice(b"refs/namespaces/")?;
    bytes.extend_from_slice(key.as_slice())?;
    bytes.extend_from_slice(b"/")?;
    bytes.extend_from_slice(name.as_slice())?;
    Ok(Bytes::of(bytes))
}
