// The entries of a store's history, and what they are of.
#![tactic(auto)]

mod batch;
mod entry;
mod history;
#[cfg(test)]
mod tests;
mod whole;

pub use batch::Batch;
pub use entry::{Entry, Left};
pub use history::History;
pub use whole::Whole;
