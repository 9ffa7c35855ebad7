// The tables, by their names.
use crate::filters::Filters;
use crate::frames::Frames;
use crate::heard::Hearing;
use crate::messages::Messages;
use crate::requests::Requests;
use crate::rules::RulesFiles;
use crate::sections::Sections;
use std::alloc::Global;
use told_rows::cases::tally_cases;
use told_rows::rows::tally_rows;
use told_rows::running::Tables;
use told_rows::tally::Tally;

/// The names of the tables.
pub const NAMES: [&str; 7] = [
    "frames", "messages", "sections", "requests", "filters", "rules", "heard",
];

/// The tables of what goes over links.
#[derive(Clone, Copy)]
pub struct Wire;

impl Tables for Wire {
    fn tally(&self, alloc: Global, table: &str, text: &str, _keys: &[u8]) -> Option<Tally> {
        match table {
            "frames" => tally_rows(alloc, text, 1, &Frames),
            "messages" => tally_rows(alloc, text, 1, &Messages),
            "sections" => tally_rows(alloc, text, 2, &Sections),
            "requests" => tally_rows(alloc, text, 1, &Requests),
            "filters" => tally_rows(alloc, text, 2, &Filters),
            "rules" => tally_rows(alloc, text, 1, &RulesFiles),
            "heard" => tally_cases::<Hearing>(alloc, text),
            _ => None,
        }
    }
}
