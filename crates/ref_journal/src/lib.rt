//! A journal of bodies behind gates on a disk.
#![tactic(auto)]

mod faults;
mod gate;
mod journal;
mod laws;
mod make;
mod parcel;
mod place;
mod record;
#[cfg(test)]
mod stop_tests;
#[cfg(test)]
mod tests;
mod walk;

pub use faults::{AppendFault, MakeFault, OpenFault, ScanFault};
pub use journal::Journal;
pub use laws::{journals_are_read_in_one_way, no_record_begins_another};
pub use parcel::Parcel;
