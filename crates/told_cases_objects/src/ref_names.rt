// Names of refs.
use ref_name::check_ref_name;
use std::alloc::Global;
use told_rows::rows::Row;
use told_rows::texts::text;
use told_rows::words::bytes_of;

/// The table of names of refs.
#[derive(Clone, Copy)]
pub struct RefNames;

impl Row for RefNames {
    // `none`, or the least number of a rule that the name breaks.
    fn answer(&self, alloc: Global, asked: &str) -> Option<String> {
        match check_ref_name(&bytes_of(alloc, asked)?) {
            None => text(alloc, "none"),
            Some(rule) => format!(in alloc; "{rule}").ok(),
        }
    }
}
