// What an accept line accepts.
ghost use Rattle.std.specs.Prelude.{◌≡◌};
ghost use Rattle.sha2.specs.Sha256.{sha256};

use rad_base::{Nid, Sig};
use sha2::{Digest as _, Sha256};

/// The SHA-256 of a message (FIPS 180-4).
#[derive(Clone, Copy, Debug, PartialEq, Eq, PartialOrd, Ord)]
pub struct Digest(pub [u8; 32]);

/// A key, the digest of a message, and a signature of the key that holds over it.
#[derive(Clone, Copy, Debug, PartialEq, Eq, PartialOrd, Ord)]
pub struct Accept {
    pub key: Nid,
    pub digest: Digest,
    pub sig: Sig,
}

impl Digest {
    /// The digest of a message.
    pub fn of(message: &[u8]) -> Self
        ensures { result.0 ≡ sha256 message.now }
    {
        Digest(Sha256::digest(message))
    }
}
