// What comes of comparing rows.
use std::alloc::Global;

// So many rows that differ are shown.
const SHOWN: usize = 20;

// So many bytes of a text are shown.
const FRONT: usize = 300;

/// How many rows were asked and how many were answered as told, and lines that show the others.
#[derive(Drop)]
pub struct Tally {
    asked: usize,
    same: usize,
    lines: Vec<String>,
}

// The front of a text that is too long to be shown.
fn front(text: &str) -> &str {
    match text.get(..FRONT) {
        Some(front) => front,
        None => text,
    }
}

impl Tally {
    /// No row. It takes no memory.
    pub fn new(alloc: Global) -> Self {
        Tally {
            asked: 0,
            same: 0,
            lines: Vec::new(alloc),
        }
    }

    // Shows the row of a line of the file.
    fn show(&mut self, alloc: Global, line: u64, row: &str, got: &str, told: &str) -> Option<()> {
        if self.lines.len() >= SHOWN {
            return Some(());
        }
        let (row, got, told) = (front(row), front(got), front(told));
        let shown = format!(in alloc; "line {line}: got {got}, told {told}, at {row}").ok()?;
        self.lines.push(shown).ok()
    }

    /// Compares what a call answered to the row of a line of the file, from 1, with what is told.
    /// No answer is one that differs: the row is not in form, or memory was refused. None: memory
    /// was refused.
    pub fn add(
        &mut self,
        alloc: Global,
        line: u64,
        row: &str,
        got: Option<&str>,
        told: &str,
    ) -> Option<()> {
        self.asked = self.asked.saturating_add(1);
        let got = got.unwrap_or("no answer");
        if got == told {
            self.same = self.same.saturating_add(1);
            return Some(());
        }
        self.show(alloc, line, row, got, told)
    }

    /// How many rows were asked.
    pub fn asked(&self) -> usize {
        self.asked
    }

    /// How many rows were answered as told.
    pub fn same(&self) -> usize {
        self.same
    }

    /// Lines that show the rows that were not, the first twenty.
    pub fn lines(&self) -> &[String] {
        &self.lines
    }
}
