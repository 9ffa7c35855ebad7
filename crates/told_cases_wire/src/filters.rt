// Filters of repositories.
use announcements::{Filter, FilterSize};
use rad_base::{Oid, Rid};
use std::alloc::Global;
use told_rows::rows::Row;
use told_rows::texts::{Line, text};
use told_rows::words::{cut, oid_of, words_of};

/// The table of filters.
#[derive(Clone, Copy)]
pub struct Filters;

// The size of a filter of so many bytes.
fn size_of(count: &str) -> Option<FilterSize> {
    match count {
        "1024" => Some(FilterSize::Small),
        "4096" => Some(FilterSize::Middle),
        "16384" => Some(FilterSize::Large),
        _ => None,
    }
}

/// The repository of digits.
pub fn rid_of(digits: &str) -> Option<Rid> {
    Some(Rid(oid_of(digits)?))
}

/// The filter of a size with some repositories.
pub fn filter_of(alloc: Global, size: &str, rids: &str) -> Option<Filter> {
    let mut filter = Filter::empty(alloc, size_of(size)?).ok()?;
    for digits in &words_of(alloc, rids)? {
        filter.add(&rid_of(digits)?);
    }
    Some(filter)
}

/// The filter of twenty bytes 01 and of twenty bytes 02.
pub fn some(alloc: Global) -> Option<Filter> {
    let mut filter = Filter::empty(alloc, FilterSize::Small).ok()?;
    filter.add(&Rid(Oid([1; 20])));
    filter.add(&Rid(Oid([2; 20])));
    Some(filter)
}

// Adds the numbers of the bits that are set.
fn add_bits(alloc: Global, words: &mut Line, bytes: &[u8]) -> Option<()> {
    for (place, byte) in bytes.iter().enumerate() {
        for bit in 0..8 {
            if byte >> bit & 1 == 1 {
                words.number(alloc, (place as u64).saturating_mul(8).saturating_add(bit))?;
            }
        }
    }
    Some(())
}

impl Row for Filters {
    // The bits of a repository in a filter of a size, which has it then and had it not before.
    fn answer(&self, alloc: Global, asked: &str) -> Option<String> {
        let (size, digits) = cut(asked);
        let empty = Filter::empty(alloc, size_of(size)?).ok()?;
        let filter = filter_of(alloc, size, digits)?;
        let rid = rid_of(digits)?;
        if empty.has(&rid) || !filter.has(&rid) {
            return text(alloc, "not added");
        }
        let mut words = Line::new(alloc);
        add_bits(alloc, &mut words, filter.as_bytes())?;
        Some(words.into_string())
    }
}
