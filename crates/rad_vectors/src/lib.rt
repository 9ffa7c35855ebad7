//! Repositories that are made by rule, as bundles with their keyrings: for tests, benchmarks and
//! tries.
#![tactic(auto)]

mod bundle;
mod chain;
mod commit;
mod delegate;
mod generator;
mod identity;
mod keyring_lines;
mod made;
mod object;
mod order;
mod pushing;
mod signing;
#[cfg(test)]
mod tests;
mod three_delegates;

pub use generator::bundle_of;
pub use made::Made;
pub use three_delegates::fixture;
