// Stores that are opened over journals in memory.
ghost use Rattle.std.specs.Prelude.{IfSome};
ghost use Rattle.object_store.specs.Stores.{StandsForSome};

use crate::replies::{reply, request_of};
use keyring::Keyring;
use object_store::{Store, Why};
use rad_base::{Bytes, Rid};
use rad_outside::MemDisk;
use repo_slice::Slice;
use std::alloc::Global;
use store_reports::{audit_report, heads_report, show_report};
use told_rows::cases::{Scene, Step, asked};
use told_rows::texts::{Line, numbered, text};
use told_rows::words::{bytes_of, cut, nid_of, oid_of};

/// The digits of a keyring and of a journal.
#[derive(Drop)]
pub struct Opening {
    keyring: String,
    journal: String,
}

/// The keyring of digits. None: they are none, it is refused, or memory was.
pub fn keyring_of(alloc: Global, digits: &str) -> Option<Keyring> {
    Keyring::read(alloc, &bytes_of(alloc, digits)?).ok()
}

// The words of a refusal.
fn why_text(alloc: Global, why: Why) -> Option<String> {
    match why {
        Why::DiskFault => text(alloc, "disk fault"),
        Why::Unmade => text(alloc, "unmade"),
        Why::Damaged(place) => numbered(alloc, "damaged", place),
        Why::NotLegal(number) => numbered(alloc, "not-legal", number),
        Why::NoMemory => None,
    }
}

// How many entries and announcements a store has.
fn opened_text(alloc: Global, store: &Store<MemDisk>) -> Option<String> {
    let entries = store.history().count();
    let announcements = store.table().len();
    format!(in alloc; "open {entries} {announcements}").ok()
}

// What stands of a repository.
fn slice_text(alloc: Global, slice: &Slice) -> Option<String> {
    let mut words = Line::new(alloc);
    match slice.id() {
        None => words.word("none")?,
        Some(id) => words.oid(alloc, &id)?,
    }
    words.number(alloc, slice.count())?;
    for (node, commit) in slice.remotes().as_slice() {
        words.bytes(alloc, &node.0)?;
        words.oid(alloc, commit)?;
    }
    Some(words.into_string())
}

// The names of the identity and of the remotes' commits.
fn have_text(alloc: Global, store: &Store<MemDisk>, rid: &Rid) -> Option<String> {
    let mut words = Line::new(alloc);
    for oid in store.have(alloc, rid).ok()?.as_slice() {
        words.oid(alloc, oid)?;
    }
    Some(words.into_string())
}

// What a command prints of a store.
fn report(alloc: Global, mut store: Store<MemDisk>, word: &str) -> Option<Bytes>
    requires { StandsForSome store }
{
    match word {
        "show" => show_report(alloc, &store).ok(),
        "audit" => audit_report(alloc, &store).ok(),
        "heads" => heads_report(alloc, &mut store).ok(),
        _ => None,
    }
}

impl Opening {
    // A disk with the journal.
    fn disk(&self, alloc: Global) -> Option<MemDisk> {
        let bytes = bytes_of(alloc, self.journal.as_str())?;
        Some(MemDisk::new(alloc, bytes, Vec::new(alloc)))
    }

    // The words of what opening gives.
    fn opened(&self, alloc: Global) -> Option<String> {
        let keyring = keyring_of(alloc, self.keyring.as_str())?;
        match Store::open(alloc, self.disk(alloc)?, keyring) {
            Ok(store) => opened_text(alloc, &store),
            Err(fault) => why_text(alloc, fault.why),
        }
    }

    // The store, if it is opened.
    fn store(&self, alloc: Global) -> Option<Store<MemDisk>>
        ensures { IfSome result StandsForSome }
    {
        let keyring = keyring_of(alloc, self.keyring.as_str())?;
        match Store::open(alloc, self.disk(alloc)?, keyring) {
            Ok(store) => Some(store),
            Err(_) => None,
        }
    }

    // What stands of a repository.
    fn slice(&self, alloc: Global, digits: &str) -> Option<String> {
        let store = self.store(alloc)?;
        slice_text(alloc, store.slice(&Rid(oid_of(digits)?))?)
    }

    // The names that are told of a repository.
    fn have(&self, alloc: Global, digits: &str) -> Option<String> {
        have_text(alloc, &self.store(alloc)?, &Rid(oid_of(digits)?))
    }

    // The reply to the request that digits are.
    fn reply(&self, alloc: Global, digits: &str, asker: &str) -> Option<String> {
        let request = request_of(alloc, &bytes_of(alloc, digits)?)?;
        reply(alloc, self.store(alloc)?, &request, &nid_of(asker)?)
    }

    // What a command prints, in digits.
    fn report(&self, alloc: Global, word: &str) -> Option<String> {
        let bytes = report(alloc, self.store(alloc)?, word)?;
        let mut words = Line::new(alloc);
        words.bytes(alloc, bytes.as_slice())?;
        Some(words.into_string())
    }
}

impl Scene for Opening {
    // No keyring and no journal.
    fn begin(alloc: Global) -> Option<Self> {
        Some(Opening {
            keyring: String::new(alloc),
            journal: String::new(alloc),
        })
    }

    fn follow(&mut self, alloc: Global, word: &str, rest: &str) -> Option<Step> {
        let (first, told) = cut(rest);
        match word {
            "keyring" => self.keyring = String::from_str(alloc, rest).ok()?,
            "journal" => self.journal = String::from_str(alloc, rest).ok()?,
            "open" | "unmade" | "damaged" | "not-legal" => {
                let line = format!(in alloc; "{word} {rest}").ok()?;
                let told = if rest.is_empty() { word } else { line.as_str() };
                return asked(alloc, self.opened(alloc), told);
            }
            "slice" => return asked(alloc, self.slice(alloc, first), told),
            "have" => return asked(alloc, self.have(alloc, first), told),
            "reply" => {
                let (asker, bytes) = cut(told);
                return asked(alloc, self.reply(alloc, first, asker), bytes);
            }
            "report" => return asked(alloc, self.report(alloc, first), told),
            _ => return None,
        }
        Some(Step::Told)
    }
}
