// Reading a document from its text.
ghost use Rattle.std.specs.Prelude.{IfOk, IfErr};
ghost use Rattle.serde_json.specs.View.{view};
ghost use Rattle.identity_doc.specs.Texts.{ExplainsText, ExplainsValue, IsJson, IsDocumentText};

use crate::doc::Doc;
use crate::fault::DocFault;
use keyring::Keyring;
use serde_json::Value;
use std::alloc::Global;

/// Why a text was not read as a document.
#[derive(Clone, Copy, Debug, PartialEq, Eq)]
pub(crate) enum ReadFault {
    /// It is no JSON.
    NotJson,
    /// Its value is no document: the first check that fails, and never want of memory.
    Bad(DocFault),
    /// Memory was refused.
    NoMemory,
}

// The JSON value of a text.
fn value_of(alloc: Global, bytes: &[u8]) -> Result<Value, ReadFault>
    ensures read { IfOk result (λ value. IsJson bytes.now (view value)) }
    ensures refused { IfErr result (ExplainsValue bytes.now) }
{
    match Value::from_slice(alloc, bytes) {
        Ok(value) => Ok(value),
        Err(error) if error.is_memory() => Err(ReadFault::NoMemory),
        Err(_) => Err(ReadFault::NotJson),
    }
}

/// The document of a text, which is JSON as serde_json reads it.
pub(crate) fn document_of(alloc: Global, keyring: &Keyring, bytes: &[u8]) -> Result<Doc, ReadFault>
    ensures read { IfOk result (IsDocumentText keyring.now bytes.now) }
    ensures refused { IfErr result (ExplainsText keyring.now bytes.now) }
{
    let value = value_of(alloc, bytes)?;
    match Doc::of(alloc, &value, keyring) {
        Ok(doc) => Ok(doc),
        Err(DocFault::NoMemory) => Err(ReadFault::NoMemory),
        Err(fault) => Err(ReadFault::Bad(fault)),
    }
}
