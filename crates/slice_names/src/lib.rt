//! The names that a repository's peers need not send again.
#![tactic(auto)]

mod names;
#[cfg(test)]
mod tests;

pub use names::names_of;
