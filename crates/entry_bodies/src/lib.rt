//! The bodies of entries, as a journal keeps them.
//!
//! A put is the byte 1, the repository [20], the number of objects [4] from 1 to 1,024, and for each
//! its kind (1 commit, 2 tree, 3 blob, 4 tag), its length [4] up to 33,554,432 and its content. An
//! install is the byte 2, the repository [20], the identity [20], the number of remotes [2] up to
//! 1,024, and each remote's key [32] and commit [20], the keys strictly rising. An announcement is
//! the byte 3 and its own bytes. Numbers are big-endian.
#![tactic(auto)]

mod body;
mod fronts;
mod laws;
mod lists;
mod reading;
#[cfg(test)]
mod tests;
mod writing;

pub use body::Body;
pub use laws::bodies_have_one_item;
pub use reading::read_body;
pub use writing::{heard_body, install_body, put_body};
