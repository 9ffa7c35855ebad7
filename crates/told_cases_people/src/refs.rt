// The bytes of refs.
use signed_refs::{RefsFault, read_refs, write_refs};
use std::alloc::Global;
use told_rows::rows::Row;
use told_rows::texts::{numbered, text};
use told_rows::words::bytes_of;

/// The table of refs.
#[derive(Clone, Copy)]
pub struct RefsFiles;

impl Row for RefsFiles {
    // `ok` and how many refs there are, which are written so again, or the refusal.
    fn answer(&self, alloc: Global, asked: &str) -> Option<String> {
        let bytes = bytes_of(alloc, asked)?;
        match read_refs(alloc, &bytes) {
            Ok(refs) => {
                let again = write_refs(alloc, &refs).ok()?;
                if again.as_slice() != bytes.as_slice() {
                    return text(alloc, "written otherwise");
                }
                numbered(alloc, "ok", refs.len() as u64)
            }
            Err(RefsFault::BadLine(line)) => numbered(alloc, "BadLine", line as u64),
            Err(RefsFault::TooMany) => text(alloc, "TooMany None"),
            Err(RefsFault::NoMemory) => None,
        }
    }
}
