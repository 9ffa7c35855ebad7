//! Legal histories of a store: what a list of entries makes of its repositories and what it heard,
//! which lists are legal, and what may happen to a history and to the entry that is in doubt.
#![tactic(auto)]

mod laws;

pub use laws::{
    contents_are_short, durable_parts_are_legal, events_keep_histories_legal, remotes_only_advance,
    slices_are_good,
};
