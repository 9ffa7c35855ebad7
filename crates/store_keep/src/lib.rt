//! A keep over a store: what a fetch keeps its entries in, for one caller.
#![tactic(auto)]

mod calls;
mod keep;
mod laws;
#[cfg(test)]
mod tests;

pub use keep::StoreKeep;
pub use laws::{images_are_of_what_was_made, opened_stores_are_made};
