// The name of an object.
ghost use Rattle.std.specs.Prelude.{◌≡◌};
ghost use Rattle.git_object.specs.Names.{name};

use crate::Kind;
use itoa::Buffer;
use rad_base::Oid;
use sha1::Sha1;

/// The name of the object of this kind with these bytes, as Git gives it: the SHA-1 of the kind's
/// word, a space, the length in decimal, a NUL, and the bytes.
pub fn name_of(kind: Kind, bytes: &[u8]) -> Oid
    ensures { result ≡ name kind bytes.now }
{
    let mut digits = Buffer::new();
    let mut hasher = Sha1::new();
    hasher.update(kind.word());
    hasher.update(b" ");
    hasher.update(digits.format(bytes.len()).as_bytes());
    hasher.update(&[0]);
    hasher.update(bytes);
    Oid(hasher.finalize())
}
