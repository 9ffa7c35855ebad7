// Numbers in the encoding of RFC 9000 section 16.
use rad_base::{Varint, read_varint, write_varint};
use std::alloc::Global;
use told_rows::rows::Row;
use told_rows::texts::{Line, text};
use told_rows::words::bytes_of;

/// The table of numbers.
#[derive(Clone, Copy)]
pub struct Varints;

// Whether a number below 2^62 is written as these bytes begin.
fn is_written(value: u64, bytes: &[u8]) -> bool {
    if value >= 1 << 62 {
        return false;
    }
    let mut buffer = [0; 8];
    let size = write_varint(value, &mut buffer);
    match buffer.get(..size) {
        Some(written) => bytes.starts_with(written),
        None => false,
    }
}

impl Row for Varints {
    // The number and how many bytes it has, `short` or `long`. The number is written so again.
    fn answer(&self, alloc: Global, asked: &str) -> Option<String> {
        let bytes = bytes_of(alloc, asked)?;
        match read_varint(&bytes) {
            Varint::Short => text(alloc, "short"),
            Varint::Long => text(alloc, "long"),
            Varint::Value(value, _) if !is_written(value, &bytes) => text(
                alloc,
                "written otherwise",
            ),
            Varint::Value(value, length) => {
                let mut words = Line::new(alloc);
                words.number(alloc, value)?;
                words.number(alloc, length as u64)?;
                Some(words.into_string())
            }
        }
    }
}
