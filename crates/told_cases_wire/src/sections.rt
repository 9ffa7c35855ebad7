// Sections in pieces.
use fetch_wire::{Fed, Part, SectionFault, SectionReader, Which, write_part};
use std::alloc::Global;
use told_rows::pieces::{Agreed, ways};
use told_rows::rows::Row;
use told_rows::texts::{Line, text};
use told_rows::words::{bytes_of, cut};

/// The table of sections.
#[derive(Clone, Copy)]
pub struct Sections;

// What a reader made of pieces: how many parts before the end, how many bytes were used, the parts
// written again, and how it ended.
#[derive(Drop)]
struct Heard {
    parts: u64,
    used: u64,
    written: Vec<u8>,
    end: Option<String>,
}

// The section of a word.
fn which_of(word: &str) -> Option<Which> {
    match word {
        "identity" => Some(Which::Identity),
        "sigs" => Some(Which::Sigs),
        "tips" => Some(Which::Tips),
        _ => None,
    }
}

// The bytes of a part that is within its limits.
fn spelled(alloc: Global, part: &Part) -> Option<Vec<u8>> {
    match part {
        Part::Offer(offer) if offer.remotes.as_slice().len() > 1024 => None,
        Part::Object(_, content) if content.as_slice().len() > 33_554_432 => None,
        Part::Refused(code) if *code != 1 && *code != 2 => None,
        _ => write_part(alloc, part).ok(),
    }
}

// The words of an end.
fn end_of(alloc: Global, word: &str, first: u64, second: Option<u64>) -> Option<String> {
    let mut words = Line::new(alloc);
    words.word(word)?;
    words.number(alloc, first)?;
    if let Some(second) = second {
        words.number(alloc, second)?;
    }
    Some(words.into_string())
}

impl Heard {
    // No part.
    fn new(alloc: Global) -> Self {
        Heard {
            parts: 0,
            used: 0,
            written: Vec::new(alloc),
            end: None,
        }
    }

    // Adds a part, which may be the section's end.
    fn add(&mut self, alloc: Global, part: &Part) -> Option<()> {
        self.written.extend_from_slice(&spelled(alloc, part)?).ok()?;
        match part {
            Part::End => self.end = Some(end_of(alloc, "done", self.used, None)?),
            Part::Refused(code) => {
                let code = Some(u64::from(*code));
                self.end = Some(end_of(alloc, "refused", self.used, code)?);
            }
            _ => self.parts = self.parts.saturating_add(1),
        }
        Some(())
    }

    // Adds what a piece gave.
    fn add_fed(&mut self, alloc: Global, mut fed: Fed) -> Option<()> {
        self.used = self.used.saturating_add(fed.used as u64);
        for _ in 0..fed.parts.len() {
            self.add(alloc, &fed.parts.pop_front()?)?;
        }
        if fed.done == self.end.is_some() {
            Some(())
        } else {
            None
        }
    }

    // Adds the parts before a break.
    fn add_parts(&mut self, alloc: Global, parts: &[Part]) -> Option<()> {
        for part in parts {
            self.add(alloc, part)?;
        }
        Some(())
    }

    // Reads a piece, unless the section has ended.
    fn feed(&mut self, alloc: Global, reader: &mut SectionReader, piece: &[u8]) -> Option<()> {
        if self.end.is_some() {
            return Some(());
        }
        match reader.feed(alloc, piece) {
            Ok(fed) => self.add_fed(alloc, fed),
            Err(SectionFault::Bad(broken)) => {
                self.add_parts(alloc, reader.before())?;
                self.end = Some(end_of(alloc, "bad", broken.place, Some(broken.shown))?);
                Some(())
            }
            Err(SectionFault::NoMemory) => None,
        }
    }

    // The parts and the end, or where the unit begins in which the bytes end.
    fn told(&self, alloc: Global, place: u64) -> Option<String> {
        let parts = self.parts;
        match &self.end {
            Some(end) => format!(in alloc; "{parts} {end}").ok(),
            None => format!(in alloc; "{parts} short {place}").ok(),
        }
    }
}

// What pieces are read as. The parts before the end are spelled as the bytes begin.
fn read(alloc: Global, which: Which, pieces: &[&[u8]], bytes: &[u8]) -> Option<String> {
    let mut reader = SectionReader::new(alloc, which);
    let mut heard = Heard::new(alloc);
    for piece in pieces {
        heard.feed(alloc, &mut reader, piece)?;
    }
    if !bytes.starts_with(&heard.written) {
        return text(alloc, "written otherwise");
    }
    heard.told(alloc, reader.place())
}

impl Row for Sections {
    // How many parts there are and how the section ends, however it is cut.
    fn answer(&self, alloc: Global, asked: &str) -> Option<String> {
        let (word, digits) = cut(asked);
        let which = which_of(word)?;
        let bytes = bytes_of(alloc, digits)?;
        let mut agreed = Agreed::new();
        for pieces in &ways(alloc, &bytes)? {
            agreed.add(read(alloc, which, pieces, &bytes)?);
        }
        agreed.text(alloc)
    }
}
