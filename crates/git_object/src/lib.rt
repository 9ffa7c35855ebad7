// Git objects: their names, their grammar and what they link to.
#![tactic(auto)]

mod bad;
mod commit;
mod digits;
mod entry;
mod kind;
mod laws;
mod link;
mod mode;
mod name;
mod named_entry;
mod tag;
#[cfg(test)]
mod tests;
mod tree;
mod writing;

pub use bad::Bad;
pub use commit::{CommitParts, Parents, read_commit};
pub use entry::TreeEntry;
pub use kind::Kind;
pub use laws::{
    commits_have_one_spelling, links_are_the_values, one_place, spellings_are_read_back,
    tags_have_one_spelling, trees_have_one_spelling, what_breaks_is_refused,
};
pub use link::{LinkTo, LinksFault, add_links, links};
pub use mode::Mode;
pub use name::name_of;
pub use named_entry::NamedEntry;
pub use tag::{TagParts, read_tag};
pub use tree::{TreeEntries, read_tree};
pub use writing::{TreeFault, write_commit, write_tag, write_tree};
