//! Sections of objects and requests for them, from bytes that come in pieces of any length.
#![tactic(auto)]

mod fault;
mod laws;
mod part;
mod parts;
mod request;
mod request_laws;
mod request_reader;
mod request_units;
mod request_writing;
mod section_reader;
#[cfg(test)]
mod tests;
mod units;
mod writing;

pub use fault::{Break, SectionFault};
pub use laws::{
    bundles_have_one_reading, no_section_begins_another, refusals_are_read_back,
    sections_are_read_back, what_is_read_is_spelled, what_is_read_to_the_end_is_a_section,
};
pub use part::{Part, Which};
pub use parts::Parts;
pub use request::{Ask, Request, RequestFault};
pub use request_laws::{
    no_request_begins_another, requests_are_read_back, what_is_broken_begins_no_requests,
    what_is_read_of_requests_is_spelled,
};
pub use request_reader::RequestReader;
pub use request_units::{RequestUnits, Step};
pub use request_writing::write_request;
pub use section_reader::{Fed, SectionReader};
pub use units::{Next, SectionUnits};
pub use writing::{push_object, push_part, write_part};
