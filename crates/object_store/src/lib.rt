//! A store of repositories and of announcements over a journal: what stands in it is the replay of
//! a legal history.
#![tactic(auto)]

mod faults;
mod hear;
mod install;
mod laws;
mod missed;
mod replayed;
mod reply;
mod repository;
mod shown;
mod store;
#[cfg(test)]
mod tests;
mod wanted;

pub use faults::{ClaimFault, StoreFault, Why};
pub use laws::bytes_have_one_list;
pub use repo_slice::KeepFault;
pub use store::Store;
