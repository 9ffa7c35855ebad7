// Names of refs, which own their memory.
ghost use Rattle.std.specs.Prelude.{◌≡◌, IfOk};

use rad_base::NoMemory;
use std::alloc::Global;
use std::marker::Model;

/// The name of a ref, which owns its memory. It may be any bytes: `check_ref_name` says which rules
/// they break. Contracts see it as the list of its bytes.
#[derive(Debug, Drop)]
pub struct RefName {
    bytes: Vec<u8>,
}

impl Model for RefName {
    ghost use Rattle.std.specs.Prelude.{List, ℕ};

    ghost Value = { List ℕ };

    ghost view = { λ name. name.bytes.items };
}

impl RefName {
    /// The name of these bytes, in their vector.
    pub fn of(bytes: Vec<u8>) -> Self
        ensures { result ≡ bytes.items }
    {
        RefName { bytes }
    }

    /// The name of a copy of these bytes.
    pub fn copy_of(alloc: Global, bytes: &[u8]) -> Result<Self, NoMemory>
        ensures { IfOk result (λ name. name ≡ bytes.now) }
    {
        let bytes = bytes.to_vec(alloc)?;
        Ok(RefName { bytes })
    }

    /// The bytes of the name.
    pub fn as_slice(&self) -> &[u8]
        ensures { result.now ≡ self.now }
    {
        &self.bytes
    }

    /// Gives the vector back.
    pub fn into_vec(self) -> Vec<u8>
        ensures { result.items ≡ self }
    {
        self.bytes
    }
}
