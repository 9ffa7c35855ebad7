// Identity documents: who may speak for a repository, and who sees it.
#![tactic(auto)]

mod blobs;
mod branch;
mod changes;
mod delegates;
mod doc;
mod fault;
mod fields;
mod id_fault;
mod identity;
mod laws;
mod majority;
mod reading;
mod signatures;
#[cfg(test)]
mod tests;
mod visibility;

pub use doc::Doc;
pub use fault::{DocFault, Field};
pub use id_fault::IdFault;
pub use identity::id_chain;
pub use laws::{
    an_identity_is_not_refused, delegate_keys, identities_stay, one_document, one_id_fault,
    one_identity, reachable_threshold,
};
pub use visibility::Visibility;
