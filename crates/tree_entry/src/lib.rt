// Entries of trees by their names, and what identity commits embed.
#![tactic(auto)]

mod commits;
mod entries;
mod identity;
mod laws;
#[cfg(test)]
mod tests;

pub use commits::{CommitTree, commit_entry, commit_tree};
pub use entries::find_entry;
pub use identity::{embedded, is_identity_root};
pub use laws::entries_stay;
