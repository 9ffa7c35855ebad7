// The tables, by their names.
use crate::journals::Journals;
use crate::judged::Offers;
use crate::stores::Opening;
use std::alloc::Global;
use told_rows::cases::tally_cases;
use told_rows::rows::tally_rows;
use told_rows::running::Tables;
use told_rows::tally::Tally;

/// The names of the tables.
pub const NAMES: [&str; 3] = ["journals", "judged", "stores"];

/// The tables of what stands.
#[derive(Clone, Copy)]
pub struct Stores;

impl Tables for Stores {
    fn tally(&self, alloc: Global, table: &str, text: &str, _keys: &[u8]) -> Option<Tally> {
        match table {
            "journals" => tally_rows(alloc, text, 1, &Journals),
            "judged" => tally_cases::<Offers>(alloc, text),
            "stores" => tally_cases::<Opening>(alloc, text),
            _ => None,
        }
    }
}
