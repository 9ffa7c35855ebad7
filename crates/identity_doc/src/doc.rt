// Identity documents.
ghost use Rattle.std.specs.Prelude.{◌≡◌, ◌≢◌, ◌↔◌, IfOk, IfErr, IsTrue, Ok, Err};
ghost use Rattle.serde_json.specs.View.{view};
ghost use Rattle.identity_doc.specs.Documents.{IsDocument, IsRefused, Sees};
ghost use Rattle.identity_doc.specs.declared.fault.DocFault.TheVariants.{NoMemory};

use crate::branch::branch_in;
use crate::delegates::element_keys;
use crate::fault::DocFault;
use crate::fields::{
    counted_elements, delegate_elements, payload_object, threshold_number, threshold_within,
};
use crate::visibility::{Visibility, visibility_of};
use keyring::Keyring;
use rad_base::{Nid, Nids, Text};
use serde_json::Value;
use std::alloc::Global;

/// An identity document: who may speak for a repository, and who sees it.
#[derive(Debug, Drop)]
pub struct Doc {
    /// The keys that speak for the repository, all different, in the order of the document.
    pub delegates: Nids,
    /// How many delegates make a quorum, from 1 to their number.
    pub threshold: u8,
    /// The default branch, without `refs/heads/`, if the document names one.
    pub default_branch: Option<Text>,
    /// Who sees the repository.
    pub visibility: Visibility,
}

impl Doc {
    /// The document that a JSON value is, after the identity documents of the Radicle Heartwood
    /// protocol. A text stands for a key as `Keyring::name` says. The checks, of which the first
    /// that fails is the refusal:
    ///
    /// 1. `delegates` is there and an array, else `NoField(Delegates)`; a value that is no object
    ///    lacks every member.
    /// 2. It has 1 to 255 elements, else `BadCount` with their number.
    /// 3. Each element, from 0, is a text that has a key, else `BadDelegate` with its number; and
    ///    no element before it has this key, else `Twice` with its number.
    /// 4. `threshold` is there and a number, else `NoField(Threshold)`.
    /// 5. It is an integer from 1 to the number of delegates, else `BadThreshold`.
    /// 6. `payload` is there and an object, else `NoField(Payload)`.
    /// 7. `visibility` is absent, which is public; or an object whose `type` is `"public"`; or an
    ///    object whose `type` is `"private"` and whose `allow` is absent or an array of texts that
    ///    each have a key; else `BadVisibility`.
    ///
    /// Other members are unread. The default branch is the text
    /// `payload["xyz.radicle.project"]["defaultBranch"]`, where it is there and `refs/heads/`
    /// followed by it is a name that git-check-ref-format allows; else there is none. `NoMemory`
    /// where memory is refused.
    pub fn of(alloc: Global, value: &Value, keyring: &Keyring) -> Result<Doc, DocFault>
        ensures read { IfOk result (IsDocument (view value.now) keyring.now) }
        ensures refused { IfErr result (λ fault.
            fault ≢ NoMemory → IsRefused (view value.now) keyring.now fault) }
    {
        let elements = delegate_elements(value)?;
        counted_elements(elements)?;
        let delegates = element_keys(alloc, keyring, elements)?;
        let number = threshold_number(value)?;
        let threshold = threshold_within(delegates.as_slice().len(), number)?;
        let payload = payload_object(value)?;
        let visibility = visibility_of(alloc, keyring, value)?;
        let default_branch = branch_in(alloc, payload)?;
        Ok(Doc {
            delegates,
            threshold,
            default_branch,
            visibility,
        })
    }

    /// Whether a node sees the repository: it is public, or the node is a delegate or allowed.
    pub fn sees(&self, asker: &Nid) -> bool
        ensures { IsTrue result ↔ Sees self.now asker.now }
    {
        match &self.visibility {
            Visibility::Public => true,
            Visibility::Private(allowed) => {
                self.delegates.as_slice().contains(asker) || allowed.as_slice().contains(asker)
            }
        }
    }
}
