// The checks of a document that take no memory.
ghost use Rattle.std.specs.Prelude.{◌≡◌, ◌≤◌, IfOk, IfErr, OnOk, Ok, Err, map, length};
ghost use Rattle.serde_json.specs.View.{number_view, view};
ghost use Rattle.identity_doc.specs.Documents.{key_in, delegate_elements, counted_elements};
ghost use Rattle.identity_doc.specs.Documents.{threshold_number, threshold_within, payload_object};

use crate::fault::{DocFault, Field};
use keyring::Keyring;
use rad_base::Nid;
use serde_json::{Number, Value};

/// The key for which an element stands: that of its text.
pub(crate) fn key_in(keyring: &Keyring, element: &Value) -> Option<Nid>
    ensures { result ≡ key_in keyring.now (view element.now) }
{
    match element.as_str() {
        Some(text) => keyring.name(text),
        None => None,
    }
}

/// The elements of `delegates`.
#[tactic(auto, using(crate::proofs::Elements::elements_view))]
pub(crate) fn delegate_elements(value: &Value) -> Result<&[Value], DocFault>
    ensures read { IfOk result (λ elements.
        delegate_elements (view value.now) ≡ Ok (map view elements.now)) }
    ensures refused { IfErr result (λ fault. delegate_elements (view value.now) ≡ Err fault) }
{
    match value.get("delegates").and_then(Value::as_array) {
        Some(elements) => Ok(elements.as_slice()),
        None => Err(DocFault::NoField(Field::Delegates)),
    }
}

/// Whether there are 1 to 255 elements.
pub(crate) fn counted_elements(elements: &[Value]) -> Result<(), DocFault>
    ensures passed { OnOk result
        (counted_elements (map view elements.now) ≡ Ok (map view elements.now)) }
    ensures few { OnOk result (length elements.now ≤ 255) }
    ensures refused { IfErr result (λ fault. counted_elements (map view elements.now) ≡ Err fault) }
{
    if elements.is_empty() || elements.len() > 255 {
        return Err(DocFault::BadCount(elements.len()));
    }
    Ok(())
}

/// The number that is the threshold.
pub(crate) fn threshold_number(value: &Value) -> Result<&Number, DocFault>
    ensures read { IfOk result (λ number.
        threshold_number (view value.now) ≡ Ok (number_view number.now)) }
    ensures refused { IfErr result (λ fault. threshold_number (view value.now) ≡ Err fault) }
{
    match value.get("threshold").and_then(Value::as_number) {
        Some(number) => Ok(number),
        None => Err(DocFault::NoField(Field::Threshold)),
    }
}

/// The threshold, where it is an integer from 1 to this count.
pub(crate) fn threshold_within(count: usize, number: &Number) -> Result<u8, DocFault>
    requires { count ≤ 255 }
    ensures { result ≡ threshold_within count (number_view number.now) }
{
    match number.as_u64() {
        Some(threshold) if 1 <= threshold && threshold <= count as u64 => Ok(threshold as u8),
        _ => Err(DocFault::BadThreshold),
    }
}

/// The payload, which is an object.
pub(crate) fn payload_object(value: &Value) -> Result<&Value, DocFault>
    ensures read { IfOk result (λ payload.
        payload_object (view value.now) ≡ Ok (view payload.now)) }
    ensures refused { IfErr result (λ fault. payload_object (view value.now) ≡ Err fault) }
{
    match value.get("payload") {
        Some(payload) if payload.is_object() => Ok(payload),
        _ => Err(DocFault::NoField(Field::Payload)),
    }
}
