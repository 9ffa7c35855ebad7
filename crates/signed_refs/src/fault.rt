// Why signed refs were not read or not accepted.
use commit_graph::GetFault;
use rad_base::{NoMemory, Oid};

/// Why signed refs were not read.
#[derive(Clone, Copy, Debug, PartialEq, Eq)]
pub enum RefsFault {
    /// The first line that breaks the grammar or the order, counted from 1, at most 65,536.
    BadLine(usize),
    /// There is more behind 65,536 good lines.
    TooMany,
    /// Memory was refused.
    NoMemory,
}

impl From<NoMemory> for RefsFault {
    ghost use Rattle.std.specs.Prelude.{◌≡◌};
    ghost use Rattle.signed_refs.specs.declared.fault.RefsFault.TheVariants.{NoMemory};

    ghost from_gives = { λ _ fault. fault ≡ NoMemory };

    fn from(_: rad_base::NoMemory) -> Self {
        RefsFault::NoMemory
    }
}

/// Why a node's signed commit is refused: the first of these that comes about, in this order.
#[derive(Clone, Copy, Debug, PartialEq, Eq)]
pub enum SigFault {
    /// The least name that the commit reaches and that has no object.
    Missing(Oid),
    /// The least name that the commit reaches whose object is of another kind or malformed, where
    /// none is missing.
    BadObject(Oid),
    /// The tree has no blob `refs` in the grammar of signed refs, or no blob `signature` of 64
    /// bytes.
    BadSigrefs,
    /// The keyring does not accept the node's signature over the bytes of the refs.
    NotAccepted,
    /// The ref `refs/rad/root` names no identity root of the repository.
    Grafted,
    /// An object could not be had, or memory was refused.
    Get(GetFault),
}

impl From<GetFault> for SigFault {
    ghost use Rattle.std.specs.Prelude.{◌≡◌};
    ghost use Rattle.signed_refs.specs.declared.fault.SigFault.TheVariants.{Get};

    ghost from_gives = { λ fault why. why ≡ Get fault };

    fn from(fault: GetFault) -> Self {
        SigFault::Get(fault)
    }
}
