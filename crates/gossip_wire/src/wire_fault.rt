// Why a wire gives no frame.
ghost use Rattle.std.specs.Prelude.{◌≡◌};
ghost use Rattle.gossip_wire.specs.FrameReaders.{fault_of};
ghost use Rattle.gossip_wire.specs.Wires.{kept_of, wire_fault};

use crate::FrameFault;
use crate::units::FrameBreak;
use unit_reader::Stop;

/// Why a wire gives no frame.
#[derive(Clone, Copy, Debug, PartialEq, Eq)]
pub enum WireFault {
    /// The link failed. Nothing of it is lost.
    LinkFault,
    /// The link ended inside the unit that begins at this place, in bytes from its first.
    Inside(u64),
    /// The link has more bytes than the budget.
    TooLong,
    /// The bytes are no frame.
    Spoilt(FrameFault),
    /// Memory was refused.
    NoMemory,
}

impl WireFault {
    // What a wire answers from then on, if it reads no more after this fault.
    pub(crate) fn kept(self) -> Option<WireFault>
        ensures { result ≡ kept_of self }
    {
        match self {
            WireFault::Spoilt(_) => Some(self),
            WireFault::NoMemory => Some(self),
            WireFault::LinkFault => None,
            WireFault::Inside(_) => None,
            WireFault::TooLong => None,
        }
    }
}

// The fault of a unit that stopped.
pub(crate) fn fault_of_unit(stop: Stop<FrameBreak>) -> WireFault
    ensures { result ≡ wire_fault (fault_of stop) }
{
    match stop {
        Stop::Broken(FrameBreak::BadMagic(place)) => WireFault::Spoilt(FrameFault::BadMagic(place)),
        Stop::Broken(FrameBreak::LongVarint(place)) => {
            WireFault::Spoilt(FrameFault::LongVarint(place))
        }
        Stop::Broken(FrameBreak::TooLong(place)) => WireFault::Spoilt(FrameFault::TooLong(place)),
        Stop::Broken(FrameBreak::BadKind(place)) => WireFault::Spoilt(FrameFault::BadKind(place)),
        Stop::NoMemory => WireFault::NoMemory,
    }
}

// The fault of a frame that was refused.
pub(crate) fn fault_of_frame(fault: FrameFault) -> WireFault
    ensures { result ≡ wire_fault fault }
{
    match fault {
        FrameFault::NoMemory => WireFault::NoMemory,
        FrameFault::BadMagic(_) => WireFault::Spoilt(fault),
        FrameFault::LongVarint(_) => WireFault::Spoilt(fault),
        FrameFault::TooLong(_) => WireFault::Spoilt(fault),
        FrameFault::BadKind(_) => WireFault::Spoilt(fault),
        FrameFault::BadBody(_) => WireFault::Spoilt(fault),
    }
}
