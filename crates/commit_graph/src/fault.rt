// Why an object could not be had.

use rad_base::{NoMemory, Oid};
use std::alloc::{AllocError, AllocFailed};

/// The bytes read back at a place are not those of the name that they are held under.
#[derive(Clone, Copy, Debug, PartialEq, Eq)]
pub struct Changed {
    /// Where that content begins: bytes from the start of the disk, from 0.
    pub place: u64,
    /// The name that it is held under.
    pub name: Oid,
    /// The name that the bytes have.
    pub found: Oid,
}

/// Why an object could not be had.
#[derive(Clone, Copy, Debug, PartialEq, Eq)]
pub enum GetFault {
    /// The disk was at fault, and its count of faults rose.
    DiskFault,
    /// The bytes read back have another name.
    Changed(Changed),
    /// Memory was refused.
    NoMemory,
}

impl From<AllocError> for GetFault {
    ghost use Rattle.std.specs.Prelude.{◌≡◌};
    ghost use Rattle.commit_graph.specs.declared.fault.GetFault.{GetFault};
    ghost use Rattle.commit_graph.specs.declared.fault.GetFault.TheVariants.{NoMemory};

    ghost from_gives = { λ _ fault. fault ≡ NoMemory };

    fn from(_: AllocError) -> Self {
        GetFault::NoMemory
    }
}

impl<T: Drop> From<AllocFailed<T>> for GetFault {
    ghost use Rattle.std.specs.Prelude.{◌≡◌};
    ghost use Rattle.commit_graph.specs.declared.fault.GetFault.{GetFault};
    ghost use Rattle.commit_graph.specs.declared.fault.GetFault.TheVariants.{NoMemory};

    ghost from_gives = { λ _ fault. fault ≡ NoMemory };

    fn from(_: AllocFailed<T>) -> Self {
        GetFault::NoMemory
    }
}

impl From<NoMemory> for GetFault {
    ghost use Rattle.std.specs.Prelude.{◌≡◌};
    ghost use Rattle.commit_graph.specs.declared.fault.GetFault.{GetFault};
    ghost use Rattle.commit_graph.specs.declared.fault.GetFault.TheVariants.{NoMemory as no_memory};

    ghost from_gives = { λ _ fault. fault ≡ no_memory };

    fn from(_: NoMemory) -> Self {
        GetFault::NoMemory
    }
}
