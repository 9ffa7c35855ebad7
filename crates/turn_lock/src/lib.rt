// A value that threads use in turns, with passes that know what they have seen.
#![tactic(auto)]

mod held;
mod pass;
mod plays;
mod rule;
mod shares;
mod taking;
#[cfg(test)]
mod tests;
mod told;
mod turns;
mod view;

pub use held::Held;
pub use pass::Pass;
pub use told::Told;
pub use turns::{NoRoom, Turns};
