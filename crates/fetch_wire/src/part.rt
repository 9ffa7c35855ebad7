// Parts of sections.
use git_object::Kind;
use rad_base::{Bytes, Offer};

/// A kind of section.
#[derive(Clone, Copy, Debug, PartialEq, Eq)]
pub enum Which {
    /// The identity, and the remotes that are offered.
    Identity,
    /// The signed refs of remotes.
    Sigs,
    /// What the refs of remotes name.
    Tips,
}

/// A part of a section.
#[derive(Debug, Drop)]
pub enum Part {
    /// The head of an identity section.
    Offer(Offer),
    /// The head of a signed refs section.
    SigsHead,
    /// The head of a tips section.
    TipsHead,
    /// An object: its kind and its content.
    Object(Kind, Bytes),
    /// The end word.
    End,
    /// A refusal, which stands in place of a section: 1 or 2.
    Refused(u8),
}
