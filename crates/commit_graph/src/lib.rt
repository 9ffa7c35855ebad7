// Closure and history over Git objects.
#![tactic(auto)]

// `Closure` and `Chain` are reached as `answer::Closure` and `answer::Chain`: an item and another
// whose names differ only in case, as the functions here, may not stand in one module.
pub mod answer;
mod backward;
mod beyond;
mod chains;
mod closing;
mod facts;
mod failing;
mod fault;
mod follow;
mod history;
mod laws;
mod look;
mod many;
mod marked;
mod memory;
mod objects;
mod plain;
mod reaching;
mod root;
#[cfg(test)]
mod tests;
mod visited;
mod web;

pub use beyond::closure_beyond;
pub use chains::{ChainFault, chain};
pub use closing::{closure, lesser};
pub use failing::{FailingObjects, Failure};
pub use fault::{Changed, GetFault};
pub use history::{History, history_of, in_history};
pub use laws::{
    added_objects_are_not_reached, added_objects_change_no_answer, closed_where_each_is,
    objects_behind_are_added, one_answer,
};
pub use many::{closures, joined};
pub use memory::MemObjects;
pub use objects::Objects;
pub use plain::closure_by_lists;
pub use reaching::reached;
pub use root::Root;
