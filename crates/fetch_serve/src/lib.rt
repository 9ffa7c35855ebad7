//! The replies to requests for sections.
#![tactic(auto)]

mod haves;
mod parts;
mod reply;
mod roots;
mod section;
mod shown;
#[cfg(test)]
mod tests;
mod writing;

pub use reply::answer;
pub use shown::Shown;
