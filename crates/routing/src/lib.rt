//! Which nodes have which repositories, which of them are taken, and from whom.
#![tactic(auto)]

mod planned;
mod repos;
mod routes;
mod rule;
mod rules;
mod rules_fault;
#[cfg(test)]
mod tests;
mod words;

pub use planned::{Planned, plan};
pub use routes::Routes;
pub use rule::{Policy, Reach, Rule};
pub use rules::Rules;
pub use rules_fault::{Reason, RulesFault};
