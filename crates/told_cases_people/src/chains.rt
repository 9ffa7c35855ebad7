// Identity chains.
use crate::objects::{keyring_of, put};
use commit_graph::MemObjects;
use identity_doc::{DocFault, IdFault, id_chain};
use keyring::Keyring;
use rad_base::{Oid, Rid};
use std::alloc::Global;
use told_rows::cases::{Scene, Step, asked};
use told_rows::texts::{named, numbered};
use told_rows::words::oid_of;

/// A keyring, objects, a repository, and the commit whose identity is asked for.
#[derive(Drop)]
pub struct Chain {
    keyring: Keyring,
    objects: MemObjects,
    rid: Oid,
    tip: Oid,
}

/// The words of a refused document, where `none` stands for a fault that holds nothing.
pub fn doc_fault(alloc: Global, fault: DocFault, none: &str) -> Option<String> {
    match fault {
        DocFault::NoField(field) => format!(in alloc; "NoField {field:?}").ok(),
        DocFault::BadCount(count) => numbered(alloc, "BadCount", count as u64),
        DocFault::BadDelegate(number) => numbered(alloc, "BadDelegate", number as u64),
        DocFault::Twice(number) => numbered(alloc, "Twice", number as u64),
        DocFault::BadThreshold => format!(in alloc; "BadThreshold{none}").ok(),
        DocFault::BadVisibility => format!(in alloc; "BadVisibility{none}").ok(),
        DocFault::NoMemory => None,
    }
}

// A text and a word behind it.
fn with(alloc: Global, first: Option<String>, second: Option<String>) -> Option<String> {
    let (first, second) = (first?, second?);
    format!(in alloc; "{first} {second}").ok()
}

// The words of a refusal.
fn fault_text(alloc: Global, fault: IdFault) -> Option<String> {
    match fault {
        IdFault::Missing(oid) => named(alloc, "Missing", &oid),
        IdFault::BadObject(oid) => named(alloc, "BadObject", &oid),
        IdFault::TwoParents(oid) => named(alloc, "TwoParents", &oid),
        IdFault::NoRoot(oid) => named(alloc, "NoRoot", &oid),
        IdFault::NoDocument(oid) => named(alloc, "NoDocument", &oid),
        IdFault::WrongRoot(oid) => named(alloc, "WrongRoot", &oid),
        IdFault::NotJson(oid) => named(alloc, "NotJson", &oid),
        IdFault::BadDocument(oid, why) => {
            let first = named(alloc, "BadDocument", &oid);
            with(alloc, first, doc_fault(alloc, why, ""))
        }
        IdFault::BadSignatures(oid, line) => {
            let first = named(alloc, "BadSignatures", &oid);
            with(alloc, first, format!(in alloc; "{line}").ok())
        }
        IdFault::TooFew { commit, have, need } => {
            let first = named(alloc, "TooFew", &commit);
            with(alloc, first, format!(in alloc; "{have} {need}").ok())
        }
        IdFault::Get(_) => None,
    }
}

impl Chain {
    // What the chain of the tip says.
    fn identity(&mut self, alloc: Global) -> Option<String> {
        let (rid, tip) = (Rid(self.rid), self.tip);
        match id_chain(alloc, &mut self.objects, &self.keyring, &rid, &tip) {
            Ok(doc) => {
                let count = doc.delegates.as_slice().len();
                let threshold = doc.threshold;
                format!(in alloc; "ok {count} {threshold}").ok()
            }
            Err(fault) => fault_text(alloc, fault),
        }
    }
}

impl Scene for Chain {
    // No object, under an empty keyring.
    fn begin(alloc: Global) -> Option<Self> {
        Some(Chain {
            keyring: keyring_of(alloc, "-")?,
            objects: MemObjects::new(alloc),
            rid: Oid([0; 20]),
            tip: Oid([0; 20]),
        })
    }

    fn follow(&mut self, alloc: Global, word: &str, rest: &str) -> Option<Step> {
        match word {
            "keyring" => self.keyring = keyring_of(alloc, rest)?,
            "object" => put(alloc, &mut self.objects, rest)?,
            "rid" => self.rid = oid_of(rest)?,
            "tip" => self.tip = oid_of(rest)?,
            "chain" => return asked(alloc, self.identity(alloc), rest),
            _ => return None,
        }
        Some(Step::Told)
    }
}
