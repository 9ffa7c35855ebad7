// Signed refs of commits.
use crate::objects::{keyring_of, put};
use commit_graph::MemObjects;
use keyring::Keyring;
use rad_base::{Oid, Rid};
use signed_refs::{SigFault, signed};
use std::alloc::Global;
use told_rows::cases::{Scene, Step, asked};
use told_rows::texts::{named, numbered, text};
use told_rows::words::{cut, nid_of, oid_of};

/// A keyring, objects and a repository.
#[derive(Drop)]
pub struct Signing {
    keyring: Keyring,
    objects: MemObjects,
    rid: Oid,
}

impl Signing {
    // What a commit of a node says.
    fn signed(&mut self, alloc: Global, node: &str, commit: &str) -> Option<String> {
        let (rid, node, commit) = (Rid(self.rid), nid_of(node)?, oid_of(commit)?);
        match signed(
            alloc,
            &mut self.objects,
            &self.keyring,
            &rid,
            &node,
            &commit,
        ) {
            Ok(refs) => numbered(alloc, "ok", refs.len() as u64),
            Err(SigFault::Missing(oid)) => named(alloc, "missing", &oid),
            Err(SigFault::BadObject(oid)) => named(alloc, "bad-object", &oid),
            Err(SigFault::BadSigrefs) => text(alloc, "bad-sigrefs"),
            Err(SigFault::NotAccepted) => text(alloc, "not-accepted"),
            Err(SigFault::Grafted) => text(alloc, "grafted"),
            Err(SigFault::Get(_)) => None,
        }
    }
}

impl Scene for Signing {
    // No object, under an empty keyring.
    fn begin(alloc: Global) -> Option<Self> {
        Some(Signing {
            keyring: keyring_of(alloc, "-")?,
            objects: MemObjects::new(alloc),
            rid: Oid([0; 20]),
        })
    }

    fn follow(&mut self, alloc: Global, word: &str, rest: &str) -> Option<Step> {
        match word {
            "keyring" => self.keyring = keyring_of(alloc, rest)?,
            "object" => put(alloc, &mut self.objects, rest)?,
            "rid" => self.rid = oid_of(rest)?,
            "signed" => {
                let (node, more) = cut(rest);
                let (commit, told) = cut(more);
                return asked(alloc, self.signed(alloc, node, commit), told);
            }
            _ => return None,
        }
        Some(Step::Told)
    }
}
