//! The table of the announcements that a node keeps, and the filters by which others ask for them.
#![tactic(auto)]

mod filter;
mod heading;
mod heard;
mod kept;
mod key;
mod laws;
mod table;
#[cfg(test)]
mod tests;

pub use filter::{Filter, FilterSize};
pub use heading::is_announcement;
pub use heard::Heard;
pub use kept::Kept;
pub use key::{Key, Topic};
pub use laws::{hearing_makes_the_table, one_table, raised_surpasses, tables_grow};
pub use table::Table;
