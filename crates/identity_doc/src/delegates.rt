// The keys of the delegates.
ghost use Rattle.std.specs.Prelude.{◌≡◌, ◌≢◌, IfOk, IfErr, Ok, Err, map, length};
ghost use Rattle.serde_json.specs.View.{view};
ghost use Rattle.identity_doc.specs.Documents.{key_in, is_among, next_key, element_keys};
ghost use Rattle.identity_doc.specs.declared.fault.DocFault.TheVariants.{NoMemory};

use crate::fault::DocFault;
use crate::fields::key_in;
use keyring::Keyring;
use rad_base::{Nid, Nids};
use serde_json::Value;
use std::alloc::Global;

fn is_among(keys: &[Nid], key: &Nid) -> bool
    ensures { result ≡ is_among keys.now key.now }
{
    keys.contains(key)
}

// The key of the next element, which is none of those before.
fn next_key(before: &[Nid], keyring: &Keyring, element: &Value) -> Result<Nid, DocFault>
    ensures { result ≡ next_key before.now (key_in keyring.now (view element.now)) }
{
    match key_in(keyring, element) {
        None => Err(DocFault::BadDelegate(before.len())),
        Some(key) if is_among(before, &key) => Err(DocFault::Twice(before.len())),
        Some(key) => Ok(key),
    }
}

/// The keys of the elements, all different. A scan of those before each: there are at most 255.
pub(crate) fn element_keys(
    alloc: Global,
    keyring: &Keyring,
    elements: &[Value],
) -> Result<Nids, DocFault>
    ensures read { IfOk result (λ keys.
        element_keys keyring.now (map view elements.now) ≡ Ok keys) }
    ensures count { IfOk result (λ keys. length keys ≡ length elements.now) }
    ensures refused { IfErr result (λ fault.
        fault ≢ NoMemory → element_keys keyring.now (map view elements.now) ≡ Err fault) }
{
    let mut keys = Nids::new(alloc);
    for element in elements {
        let key = next_key(keys.as_slice(), keyring, element)?;
        keys.push(key)?;
    }
    Ok(keys)
}
