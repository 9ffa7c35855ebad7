// Answers as texts.
use rad_base::Oid;
use std::alloc::Global;

/// A text to which words are added.
#[derive(Drop)]
pub struct Line {
    text: String,
}

/// A text of one word.
pub fn text(alloc: Global, word: &str) -> Option<String> {
    String::from_str(alloc, word).ok()
}

/// A word and a number.
pub fn numbered(alloc: Global, word: &str, number: u64) -> Option<String> {
    format!(in alloc; "{word} {number}").ok()
}

/// The name of an object.
pub fn name_text(alloc: Global, oid: &Oid) -> Option<String> {
    hex::encode(alloc, oid.0).ok()
}

/// A word and an object name.
pub fn named(alloc: Global, word: &str, oid: &Oid) -> Option<String> {
    let digits = name_text(alloc, oid)?;
    format!(in alloc; "{word} {digits}").ok()
}

/// The text of bytes, if they are UTF-8.
pub fn of_bytes(bytes: Vec<u8>) -> Option<String> {
    String::from_utf8(bytes).ok()
}

impl Line {
    /// No word. It takes no memory.
    pub fn new(alloc: Global) -> Self {
        Line {
            text: String::new(alloc),
        }
    }

    /// Adds a word, behind a blank where one stands before it.
    pub fn word(&mut self, word: &str) -> Option<()> {
        if !self.text.is_empty() {
            self.text.push_str(" ").ok()?;
        }
        self.text.push_str(word).ok()
    }

    /// Adds a number in decimal digits.
    pub fn number(&mut self, alloc: Global, number: u64) -> Option<()> {
        let digits = format!(in alloc; "{number}").ok()?;
        self.word(digits.as_str())
    }

    /// Adds bytes in hexadecimal digits; `-` is none.
    pub fn bytes(&mut self, alloc: Global, bytes: &[u8]) -> Option<()> {
        if bytes.is_empty() {
            return self.word("-");
        }
        let digits = hex::encode(alloc, bytes).ok()?;
        self.word(digits.as_str())
    }

    /// Adds the name of an object.
    pub fn oid(&mut self, alloc: Global, oid: &Oid) -> Option<()> {
        self.bytes(alloc, &oid.0)
    }

    /// The text.
    pub fn into_string(self) -> String {
        self.text
    }
}
