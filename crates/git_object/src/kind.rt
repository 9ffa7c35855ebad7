// Kinds of objects.
ghost use Rattle.std.specs.Prelude.{◌≡◌};

/// What an object is.
#[derive(Clone, Copy, Debug, PartialEq, Eq, PartialOrd, Ord, Hash)]
pub enum Kind {
    /// Any bytes, as those of a file.
    Blob,
    /// A directory: names of blobs, trees and commits elsewhere.
    Tree,
    /// A state of a tree, with the states before it.
    Commit,
    /// A name and a message on another object.
    Tag,
}

impl Kind {
    ghost use Rattle.git_object.specs.Names.{kind_word};

    /// The word of the kind, as `blob`.
    pub fn word(self) -> &'static [u8]
        ensures { result.now ≡ kind_word self }
    {
        match self {
            Kind::Blob => b"blob",
            Kind::Tree => b"tree",
            Kind::Commit => b"commit",
            Kind::Tag => b"tag",
        }
    }
}
