// What one repository has, and the judging of what is offered of it.
#![tactic(auto)]

mod heads;
mod identity;
mod judging;
mod keep;
mod keep_fault;
mod laws;
mod mem_keep;
mod merging;
mod outcomes;
mod progress;
mod remote;
mod rounds;
mod scope;
mod slice;
mod state;
mod stop;
mod terms;
#[cfg(test)]
mod tests;
mod tips;
mod verdict;
mod wanting;

pub use keep::Keep;
pub use keep_fault::KeepFault;
pub use laws::{
    judged_is_allowed, next_is_good, one_list_of_outcomes, one_list_of_remotes, one_verdict,
    put_keeps_good,
};
pub use mem_keep::{Made, MemKeep};
pub use merging::merged;
pub use outcomes::{Outcome, Outcomes};
pub use repo_entries::{Batch, Entry, History, Left, Whole};
pub use scope::Scope;
pub use slice::{Next, Slice, judge, wants};
pub use state::State;
pub use stop::{Halt, Stop};
pub use verdict::{IdOutcome, Judged};
pub use wanting::Stage;
