//! The steps of a job: a section is read in pieces, and its objects are put in batches.
#![tactic(auto)]

mod batcher;
mod bundle_sections;
mod bundle_stop;
mod bundle_verdict;
mod import;
mod input;
mod job_end;
mod laws;
mod next_section;
mod piece;
mod repository;
mod section;
mod section_stop;
mod taken;
#[cfg(test)]
mod tests;

pub use batcher::Batcher;
pub use import::import_job;
pub use input::{Input, piece_buffer};
pub use job_end::{ImportEnd, JobEnd};
pub use laws::{
    bytes_have_a_job, fronts_are_put_first, fronts_of_bundles_enter_first,
    fronts_of_jobs_enter_first, one_bundle_job, one_cut, one_job, one_verdict_on,
    stops_of_bundles_stay, stops_of_jobs_stay,
};
pub use section::{Section, put_section};
pub use section_stop::SectionStop;
