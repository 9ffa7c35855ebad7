// Why a keyring file was not read.
use rad_base::NoMemory;

/// Why a keyring file was not read.
#[derive(Clone, Copy, Debug, PartialEq, Eq)]
pub enum KeyFault {
    /// The first line that breaks the grammar, counted from 1.
    BadLine(usize),
    /// Memory was refused.
    NoMemory,
}

impl From<NoMemory> for KeyFault {
    ghost use Rattle.std.specs.Prelude.{◌≡◌};
    ghost use Rattle.keyring.specs.declared.fault.KeyFault.TheVariants.{NoMemory};

    ghost from_gives = { λ _ fault. fault ≡ NoMemory };

    fn from(_: rad_base::NoMemory) -> Self {
        KeyFault::NoMemory
    }
}
