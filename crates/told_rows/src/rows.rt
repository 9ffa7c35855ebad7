// Tables of rows: what is asked, and the answer.
use crate::tally::Tally;
use crate::words::cut;
use std::alloc::Global;

/// A table of rows.
pub trait Row {
    /// What the calls answer to the left side of a row, as the text that a file has. None: the row
    /// is not in form, or memory was refused.
    fn answer(&self, alloc: Global, asked: &str) -> Option<String>;

    /// What of a told answer is compared: all of it, if the table says no other. None: memory was
    /// refused.
    fn compared(&self, alloc: Global, told: &str) -> Option<String> {
        String::from_str(alloc, told).ok()
    }
}

// What is asked and the answer of a row. The first words are asked where no equals sign stands
// between the two.
fn halves_of(line: &str, words: usize) -> Option<(&str, &str)> {
    if let Some(halves) = line.split_once(" = ") {
        return Some(halves);
    }
    let mut length: usize = 0;
    let mut rest = line;
    for _ in 0..words {
        let (word, behind) = cut(rest);
        length = length.saturating_add(word.len()).saturating_add(1);
        rest = behind;
    }
    Some((line.get(..length.saturating_sub(1))?, rest))
}

/// Compares each row of a file. So many words of a row stand before its answer, where no equals sign
/// does. None: a row is not in form, or memory was refused.
pub fn tally_rows<R: Row>(alloc: Global, text: &str, words: usize, table: &R) -> Option<Tally> {
    let mut tally = Tally::new(alloc);
    let mut number: u64 = 0;
    for line in text.lines() {
        number = number.saturating_add(1);
        if line.is_empty() {
            continue;
        }
        let (asked, told) = halves_of(line, words)?;
        let got = table.answer(alloc, asked);
        let got = got.as_ref().map(|text| text.as_str());
        let told = table.compared(alloc, told.trim_end())?;
        tally.add(alloc, number, line, got, told.as_str())?;
    }
    Some(tally)
}
