// Who sees a repository.
ghost use Rattle.std.specs.Prelude.{◌≡◌, ◌≢◌, codes, IfOk, IfErr, None, Some, Ok, Err, map};
ghost use Rattle.serde_json.specs.Find.{get};
ghost use Rattle.serde_json.specs.View.{view};
ghost use Rattle.identity_doc.specs.Documents.{all_of, allowed, key_in};
ghost use Rattle.identity_doc.specs.Documents.{said_visibility, visibility_of};
ghost use Rattle.identity_doc.specs.declared.fault.DocFault.TheVariants.{BadVisibility, NoMemory};

use crate::fault::DocFault;
use crate::fields::key_in;
use keyring::Keyring;
use rad_base::Nids;
use serde_json::Value;
use std::alloc::Global;

/// Who sees a repository.
#[derive(Debug, Drop)]
pub enum Visibility {
    /// Everyone.
    Public,
    /// Its delegates and these, in the order of the document.
    Private(Nids),
}

// The keys of the elements.
fn all_keys(alloc: Global, keyring: &Keyring, elements: &[Value]) -> Result<Nids, DocFault>
    ensures read { IfOk result (λ keys.
        all_of (map (key_in keyring.now) (map view elements.now)) ≡ Some keys) }
    ensures refused { IfErr result (λ fault. fault ≢ NoMemory → (fault ≡ BadVisibility)
        × (all_of (map (key_in keyring.now) (map view elements.now)) ≡ None)) }
{
    let mut keys = Nids::new(alloc);
    for element in elements {
        match key_in(keyring, element) {
            Some(key) => keys.push(key)?,
            None => return Err(DocFault::BadVisibility),
        }
    }
    Ok(keys)
}

// Those whom a private repository allows.
#[tactic(auto, using(crate::proofs::Elements::elements_view))]
fn allowed(alloc: Global, keyring: &Keyring, said: &Value) -> Result<Nids, DocFault>
    ensures read { IfOk result (λ keys.
        allowed keyring.now (get (codes "allow") (view said.now)) ≡ Some keys) }
    ensures refused { IfErr result (λ fault. fault ≢ NoMemory → (fault ≡ BadVisibility)
        × (allowed keyring.now (get (codes "allow") (view said.now)) ≡ None)) }
{
    let Some(list) = said.get("allow") else {
        return Ok(Nids::new(alloc));
    };
    let Some(elements) = list.as_array() else {
        return Err(DocFault::BadVisibility);
    };
    let keys = all_keys(alloc, keyring, elements.as_slice())?;
    Ok(keys)
}

// The visibility that is said.
fn said_visibility(alloc: Global, keyring: &Keyring, said: &Value) -> Result<Visibility, DocFault>
    ensures read { IfOk result (λ visibility.
        said_visibility keyring.now (Some (view said.now)) ≡ Some visibility) }
    ensures refused { IfErr result (λ fault. fault ≢ NoMemory → (fault ≡ BadVisibility)
        × (said_visibility keyring.now (Some (view said.now)) ≡ None)) }
{
    match said.get("type").and_then(Value::as_str) {
        Some("public") => Ok(Visibility::Public),
        Some("private") => {
            let keys = allowed(alloc, keyring, said)?;
            Ok(Visibility::Private(keys))
        }
        _ => Err(DocFault::BadVisibility),
    }
}

/// The visibility of a document, public where nothing is said.
pub(crate) fn visibility_of(
    alloc: Global,
    keyring: &Keyring,
    value: &Value,
) -> Result<Visibility, DocFault>
    ensures read { IfOk result (λ visibility.
        visibility_of keyring.now (view value.now) ≡ Ok visibility) }
    ensures refused { IfErr result (λ fault.
        fault ≢ NoMemory → visibility_of keyring.now (view value.now) ≡ Err fault) }
{
    let Some(said) = value.get("visibility") else {
        return Ok(Visibility::Public);
    };
    let visibility = said_visibility(alloc, keyring, said)?;
    Ok(visibility)
}
