// The tables, by their names.
use crate::grammar::Grammar;
use crate::names::Names;
use crate::ref_names::RefNames;
use crate::varints::Varints;
use crate::{graphs, heads};
use std::alloc::Global;
use told_rows::cases::tally_cases;
use told_rows::rows::tally_rows;
use told_rows::running::Tables;
use told_rows::tally::Tally;

/// The names of the tables.
pub const NAMES: [&str; 6] = [
    "grammar",
    "names",
    "varints",
    "ref_names",
    "graphs",
    "heads",
];

/// The tables of objects.
#[derive(Clone, Copy)]
pub struct Objects;

impl Tables for Objects {
    fn tally(&self, alloc: Global, table: &str, text: &str, _keys: &[u8]) -> Option<Tally> {
        match table {
            "grammar" => tally_rows(alloc, text, 2, &Grammar),
            "names" => tally_rows(alloc, text, 2, &Names),
            "varints" => tally_rows(alloc, text, 1, &Varints),
            "ref_names" => tally_rows(alloc, text, 1, &RefNames),
            "graphs" => tally_cases::<graphs::Graph>(alloc, text),
            "heads" => tally_cases::<heads::Votes>(alloc, text),
            _ => None,
        }
    }
}
