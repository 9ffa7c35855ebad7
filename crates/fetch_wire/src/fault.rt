// Why reading a section stops.

/// Where a section is broken.
#[derive(Clone, Copy, Debug, PartialEq, Eq)]
pub struct Break {
    /// Where the broken unit begins, in bytes from the section's first.
    pub place: u64,
    /// How many bytes of the section show it.
    pub shown: u64,
}

/// Why a reader of a section stops.
#[derive(Clone, Copy, Debug, PartialEq, Eq)]
pub enum SectionFault {
    /// A unit is broken.
    Bad(Break),
    /// Memory was refused.
    NoMemory,
}
