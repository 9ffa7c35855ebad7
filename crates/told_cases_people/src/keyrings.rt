// Keyring files.
use keyring::{KeyFault, Keyring};
use std::alloc::Global;
use std::collections::BTreeSet;
use told_rows::rows::Row;
use told_rows::texts::{Line, numbered};
use told_rows::words::bytes_of;

/// The table of keyring files.
#[derive(Clone, Copy)]
pub struct Keyrings;

// The text of a line that names a key.
fn named_in(line: &str) -> Option<&str> {
    let (text, _) = line.strip_prefix("name ")?.split_once(' ')?;
    Some(text)
}

// How many lines name a key that the keyring has.
fn count_names(keyring: &Keyring, file: &str) -> usize {
    let mut count: usize = 0;
    for line in file.lines() {
        if named_in(line).is_some_and(|text| keyring.name(text).is_some()) {
            count = count.saturating_add(1);
        }
    }
    count
}

// How many different lines accept. What a keyring accepts of them cannot be asked without the
// messages.
fn count_accepts(alloc: Global, file: &str) -> Option<usize> {
    let mut lines = BTreeSet::new(alloc);
    for line in file.lines() {
        if line.starts_with("accept ") {
            lines.insert(line).ok()?;
        }
    }
    Some(lines.len())
}

impl Row for Keyrings {
    // `ok` and how many names, accepted messages and own messages there are, or `bad` and the line.
    fn answer(&self, alloc: Global, asked: &str) -> Option<String> {
        let bytes = bytes_of(alloc, asked)?;
        match Keyring::read(alloc, &bytes) {
            Ok(keyring) => {
                let file = String::from_utf8(bytes).ok()?;
                let mut words = Line::new(alloc);
                words.word("ok")?;
                words.number(alloc, count_names(&keyring, file.as_str()) as u64)?;
                words.number(alloc, count_accepts(alloc, file.as_str())? as u64)?;
                words.number(alloc, keyring.own().len() as u64)?;
                Some(words.into_string())
            }
            Err(KeyFault::BadLine(line)) => numbered(alloc, "bad", line as u64),
            Err(KeyFault::NoMemory) => None,
        }
    }
}
