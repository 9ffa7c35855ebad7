// Why calls of a store are refused.
ghost use Rattle.std.specs.Prelude.{◌≡◌};

use rad_base::NoMemory;

/// Why a repository is not claimed.
#[derive(Clone, Copy, Debug, PartialEq, Eq)]
pub enum ClaimFault {
    /// This caller claimed it in this run.
    Claimed(u64),
    /// Memory was refused.
    NoMemory,
}

impl From<NoMemory> for ClaimFault {
    ghost use Rattle.object_store.specs.declared.faults.ClaimFault.TheVariants as faults;

    ghost from_gives = { λ _ fault. fault ≡ faults.NoMemory };

    fn from(_: NoMemory) -> Self {
        ClaimFault::NoMemory
    }
}

/// Why a store does not open.
#[derive(Clone, Copy, Debug, PartialEq, Eq)]
pub enum Why {
    /// A call of the disk failed.
    DiskFault,
    /// No journal is made: the disk has fewer than 9 bytes, or its first is not 1.
    Unmade,
    /// The least place, in bytes from 0, at which the bytes are no journal: 0 for the header, else
    /// that of a gate. Where they are a journal, the least gate whose body is no entry's.
    Damaged(u64),
    /// The first entry that is not legal, counted from 1.
    NotLegal(u64),
    /// Memory was refused.
    NoMemory,
}

/// A store that does not open. The disk comes back.
#[derive(Drop)]
pub struct StoreFault<D> {
    /// The disk.
    pub disk: D,
    /// Why.
    pub why: Why,
}
