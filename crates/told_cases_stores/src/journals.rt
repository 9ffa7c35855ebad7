// Journals: the bodies that they have, whatever these hold.
use rad_outside::{Disk, MemDisk};
use ref_journal::{Journal, OpenFault};
use std::alloc::Global;
use told_rows::rows::Row;
use told_rows::texts::{Line, numbered, text};
use told_rows::words::bytes_of;

/// The table of journals.
#[derive(Clone, Copy)]
pub struct Journals;

// Adds the bodies of a journal, of which there are fewer than a thousand, and where it ends.
fn add_bodies<D: Disk + Drop>(
    alloc: Global,
    words: &mut Line,
    journal: &mut Journal<D>,
) -> Option<()> {
    let mut body = Vec::new(alloc);
    let mut place = 8;
    let mut count: usize = 0;
    for _ in 0..1000 {
        match journal.scan(place, &mut body).ok()? {
            Some(next) => {
                words.bytes(alloc, &body)?;
                count = count.saturating_add(1);
                place = next;
            }
            None => break,
        }
    }
    if count == 0 {
        words.word("none")?;
    }
    words.word("end")?;
    words.number(alloc, journal.end())
}

impl Row for Journals {
    // `unmade`, `damaged` and the place, or `bodies`, each of them, `end` and the place.
    fn answer(&self, alloc: Global, asked: &str) -> Option<String> {
        let disk = MemDisk::new(alloc, bytes_of(alloc, asked)?, Vec::new(alloc));
        match Journal::open(disk) {
            Ok(mut journal) => {
                let mut words = Line::new(alloc);
                words.word("bodies")?;
                add_bodies(alloc, &mut words, &mut journal)?;
                Some(words.into_string())
            }
            Err(OpenFault::Unmade(_)) => text(alloc, "unmade"),
            Err(OpenFault::Damaged(_, place)) => numbered(alloc, "damaged", place),
            Err(OpenFault::DiskFault(_)) => text(alloc, "disk fault"),
        }
    }
}
