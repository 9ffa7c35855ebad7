// Objects with their names.
ghost use Rattle.std.specs.Prelude.{◌≡◌, ◌≤◌, length};
ghost use Rattle.git_object.specs.Names.{name};

use git_object::{Kind, name_of};
use rad_base::Oid;

/// An object of at most 32 MiB, with its name.
#[derive(Debug, Drop)]
pub(crate) struct NamedObject {
    pub(crate) oid: Oid,
    pub(crate) kind: Kind,
    pub(crate) content: Vec<u8>,
    ghost named: { oid ≡ name kind content.items },
    ghost small: { length content.items ≤ 33554432 },
}

impl NamedObject {
    ghost use Rattle.rad_vectors.specs.Shown.{shown};

    /// The object of this kind and content.
    pub(crate) fn of(kind: Kind, content: Vec<u8>) -> Self
        requires { length content.items ≤ 33554432 }
        ensures { shown result ≡ (kind, content.items) }
    {
        let oid = name_of(kind, &content);
        NamedObject { oid, kind, content }
    }
}
