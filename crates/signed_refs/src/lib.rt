// Signed refs: what a node's signed commit says of its refs.
#![tactic(auto)]

mod accepting;
mod blobs;
mod fault;
mod laws;
mod line;
mod namespaces;
mod reading;
mod refs;
mod signed_commit;
#[cfg(test)]
mod tests;
mod writing;

pub use blobs::refs_said;
pub use fault::{RefsFault, SigFault};
pub use laws::{
    one_reading, one_refusal, one_said, one_saying, refs_are_read_back, signed_refs_stay,
};
pub use namespaces::namespace;
pub use reading::read_refs;
pub use ref_name::{RefName, check_ref_name};
pub use refs::Refs;
pub use signed_commit::{signed, signed_closed};
pub use writing::write_refs;
