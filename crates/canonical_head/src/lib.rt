// The canonical head: the commit on which enough delegates agree.
#![tactic(auto)]

// `Head` is reached as `answer::Head`: an item and another whose names differ only in case, as the
// function here, may not stand in one module.
mod adjacency;
mod ancestry;
pub mod answer;
mod heads;
mod laws;
mod least;
mod nearest;
mod numbered;
mod parents;
mod plain;
mod search;
mod table;
#[cfg(test)]
mod tests;

pub use heads::head;
pub use laws::one_head;
pub use plain::head_by_histories;
