//! The words that the commands print of a job, of what a store has, and of frames.
#![tactic(auto)]

mod counts;
mod end;
mod frame;
mod head;
mod job;
mod outcome;
mod parts;
mod shown;
#[cfg(test)]
mod tests;

pub use counts::{Counts, Generated, push_audit, push_generated, push_made};
pub use end::{push_end, push_whole};
pub use frame::push_frames;
pub use head::{push_head, push_head_of};
pub use job::{push_job, push_remotes};
pub use outcome::{push_id_outcome, push_outcome};
pub use shown::{ShownRemote, push_remote, push_repository};
