// Why a call of a keep is refused.

use commit_graph::Changed;
use rad_base::NoMemory;

/// Why a call of a keep is refused.
#[derive(Clone, Copy, Debug, PartialEq, Eq)]
pub enum KeepFault {
    /// What lies below was at fault, and one missed entry was added.
    DiskFault,
    /// The journal would be longer than 2^40 bytes.
    Full,
    /// The bytes read back have another name.
    Changed(Changed),
    /// Memory was refused.
    NoMemory,
}

impl From<NoMemory> for KeepFault {
    ghost use Rattle.std.specs.Prelude.{◌≡◌};
    ghost use Rattle.repo_slice.specs.declared.keep_fault.KeepFault.TheVariants.{NoMemory as no_memory};

    ghost from_gives = { λ _ fault. fault ≡ no_memory };

    fn from(_: NoMemory) -> Self {
        KeepFault::NoMemory
    }
}
