// Why a JSON value is no identity document.
use rad_base::NoMemory;

/// A member that a document must have.
#[derive(Clone, Copy, Debug, PartialEq, Eq)]
pub enum Field {
    /// `delegates`, an array.
    Delegates,
    /// `threshold`, a number.
    Threshold,
    /// `payload`, an object.
    Payload,
}

/// Why a JSON value is no identity document: the first check that it fails.
#[derive(Clone, Copy, Debug, PartialEq, Eq)]
pub enum DocFault {
    /// The member is not there, or is not of its kind.
    NoField(Field),
    /// There are not 1 to 255 delegates, but this many.
    BadCount(usize),
    /// This element of `delegates`, counted from 0, is no text that has a key.
    BadDelegate(usize),
    /// The key of this element of `delegates`, counted from 0, stands before it.
    Twice(usize),
    /// The threshold is no integer from 1 to the number of delegates.
    BadThreshold,
    /// The visibility is neither public nor private, or a private one allows what is no text that
    /// has a key.
    BadVisibility,
    /// Memory was refused.
    NoMemory,
}

impl From<NoMemory> for DocFault {
    ghost use Rattle.std.specs.Prelude.{◌≡◌};
    ghost use Rattle.identity_doc.specs.declared.fault.DocFault.TheVariants.{NoMemory};

    ghost from_gives = { λ _ fault. fault ≡ NoMemory };

    fn from(_: rad_base::NoMemory) -> Self {
        DocFault::NoMemory
    }
}
