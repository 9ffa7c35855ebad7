// Why reading frames stops.
ghost use Rattle.std.specs.Prelude.{◌≡◌};
ghost use Rattle.gossip_wire.specs.Recordings.{place_of};

/// Why reading frames stops, and where, in bytes from the first.
#[derive(Clone, Copy, Debug, PartialEq, Eq)]
pub enum FrameFault {
    /// This byte is the first that differs from the magic.
    BadMagic(u64),
    /// The number that begins here is not in its shortest spelling.
    LongVarint(u64),
    /// The length that begins here is above 65,535.
    TooLong(u64),
    /// The stream that begins here is of kind 3.
    BadKind(u64),
    /// The payload that begins here is none of its kind.
    BadBody(u64),
    /// Memory was refused.
    NoMemory,
}

impl FrameFault {
    /// Where the broken unit begins, or its first wrong byte stands, in bytes from the first; `None`
    /// where memory was refused.
    pub fn place(self) -> Option<u64>
        ensures { result ≡ place_of self }
    {
        match self {
            FrameFault::BadMagic(place) => Some(place),
            FrameFault::LongVarint(place) => Some(place),
            FrameFault::TooLong(place) => Some(place),
            FrameFault::BadKind(place) => Some(place),
            FrameFault::BadBody(place) => Some(place),
            FrameFault::NoMemory => None,
        }
    }
}
