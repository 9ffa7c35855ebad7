// The tables, by their names.
use crate::chains::Chain;
use crate::documents::Documents;
use crate::keyrings::Keyrings;
use crate::refs::RefsFiles;
use crate::signed::Signing;
use std::alloc::Global;
use told_rows::cases::tally_cases;
use told_rows::rows::tally_rows;
use told_rows::running::Tables;
use told_rows::tally::Tally;

/// The names of the tables.
pub const NAMES: [&str; 5] = ["keyrings", "documents", "chains", "refs", "signed"];

/// The tables of who may say what.
#[derive(Clone, Copy)]
pub struct People;

impl Tables for People {
    fn tally(&self, alloc: Global, table: &str, text: &str, keys: &[u8]) -> Option<Tally> {
        match table {
            "keyrings" => tally_rows(alloc, text, 1, &Keyrings),
            "documents" => tally_rows(alloc, text, 1, &Documents::under(alloc, keys)?),
            "chains" => tally_cases::<Chain>(alloc, text),
            "refs" => tally_rows(alloc, text, 1, &RefsFiles),
            "signed" => tally_cases::<Signing>(alloc, text),
            _ => None,
        }
    }
}
