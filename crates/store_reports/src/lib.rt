//! What the commands print of an open store.
#![tactic(auto)]

mod audit;
mod entries;
mod generated;
mod heads;
mod show;
#[cfg(test)]
mod tests;

pub use audit::{audit_report, counts_of};
pub use generated::generated_report;
pub use heads::heads_report;
pub use show::show_report;
