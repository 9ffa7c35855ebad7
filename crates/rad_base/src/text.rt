// Texts that own their memory.
ghost use Rattle.std.specs.Prelude.{◌≡◌};
ghost use Rattle.std.specs.String.{string_bytes};

use std::marker::Model;

/// A text that owns its memory. Contracts see it as the list of its UTF-8 bytes.
#[derive(Debug, Drop)]
pub struct Text {
    inner: String,
}

impl Model for Text {
    ghost use Rattle.std.specs.Prelude.{List, ℕ};
    ghost use Rattle.std.specs.String.{string_bytes};

    ghost Value = { List ℕ };

    ghost view = { λ text. string_bytes text.inner };
}

impl Text {
    /// This text, in its string.
    pub fn of(inner: String) -> Self
        ensures { result ≡ string_bytes inner }
    {
        Text { inner }
    }

    /// The text.
    pub fn as_str(&self) -> &str
        ensures { result.now ≡ self.now }
    {
        &self.inner
    }

    /// The bytes of the text.
    pub fn as_slice(&self) -> &[u8]
        ensures { result.now ≡ self.now }
    {
        self.inner.as_bytes()
    }

    /// Gives the string back.
    pub fn into_string(self) -> String
        ensures { string_bytes result ≡ self }
    {
        self.inner
    }
}
