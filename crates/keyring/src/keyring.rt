// The keyring, read from its file.
ghost use Rattle.std.specs.Prelude.{◌≡◌, [], IfOk, IfErr, ℕ, List};
ghost use Rattle.std.specs.Bool.{OnTrue, OnFalse};
ghost use Rattle.keyring.specs.Contents.{accepts, contents_of, key_of, own_messages};
ghost use Rattle.keyring.specs.Keys.{BreaksKeyringAt, ExplainsKeyring, Keys, RefusedAt};
ghost use Rattle.keyring.specs.Readers.{Adds, MayNotAdd, seen};

use crate::KeyFault;
use crate::accept::{Accept, Digest};
use crate::line::{Entry, entry_front};
use crate::spelled::spelled_key;
use rad_base::{Bytes, Nid, NoMemory, Sig};
use std::alloc::Global;
use std::collections::{BTreeMap, BTreeSet};
use std::marker::Model;

/// For which key a name stands, which signatures hold, and the messages of this node's own.
#[derive(Drop)]
pub struct Keyring {
    names: BTreeMap<Vec<u8>, Nid>,
    accepted: BTreeSet<Accept>,
    own: Vec<Bytes>,
}

impl Model for Keyring {
    ghost use Rattle.std.specs.FinMap as fin;
    ghost use Rattle.std.specs.FinSet as set;
    ghost use Rattle.keyring.specs.Contents.{Contents, coded_contents};
    ghost use Rattle.keyring.specs.Readers.{by_text};

    ghost Value = { Contents };

    ghost coded = { coded_contents };

    ghost view = { λ a. record {
      names = fin.from_entries (by_text a.names.entries);
      accepted = set.from_list a.accepted.keys;
      own = a.own.items;
    } };
}

impl Keyring {
    // A keyring of no line.
    fn new(alloc: Global) -> Self
        ensures { result ≡ contents_of [] }
    {
        Keyring {
            names: BTreeMap::new(alloc),
            accepted: BTreeSet::new(alloc),
            own: Vec::new(alloc),
        }
    }

    // Adds what a line says, unless it names a text that has a name.
    fn add(&mut self, entry: Entry) -> Result<bool, NoMemory>
        ensures added { IfOk result (λ is_new.
            OnTrue is_new (Adds (seen entry) self.old self.new)) }
        ensures taken { IfOk result (λ is_new. OnFalse is_new (MayNotAdd (seen entry) self.old)) }
    {
        match entry {
            Entry::Named(text, key) => {
                let before = self.names.insert(text, key)?;
                Ok(before.is_none())
            }
            Entry::Accepted(accept) => {
                self.accepted.insert(accept)?;
                Ok(true)
            }
            Entry::Owned(message) => {
                self.own.push(Bytes::of(message))?;
                Ok(true)
            }
        }
    }

    /// Reads a keyring file, which is this project's own format. It has any number of lines, each
    /// ended by a line feed, in any order:
    ///
    /// - `name <text> <key>`: 1 to 128 bytes from `!` to `~`, and no text is named twice;
    /// - `accept <key> <SHA-256 of a message> <signature>`: lines may repeat one another;
    /// - `own <message>`: 1 to 65,535 bytes.
    ///
    /// Keys (32 bytes), digests (32), signatures (64) and messages stand in lower case hexadecimal
    /// digits. `BadLine(n)` where line n, counted from 1, is the first that breaks this.
    pub fn read(alloc: Global, bytes: &[u8]) -> Result<Keyring, KeyFault>
        ensures keys { IfOk result (λ keyring. Keys bytes.now keyring) }
        ensures refused { IfErr result (ExplainsKeyring bytes.now) }
        ensures exact { (n : ℕ) → BreaksKeyringAt n bytes.now → RefusedAt n result }
    {
        let mut keyring = Keyring::new(alloc);
        let mut rest = bytes;
        let mut number = 1;
        'reading: while !rest.is_empty() {
            let Some((entry, behind)) = entry_front(alloc, rest)? else {
                return Err(KeyFault::BadLine(number));
            };
            if !keyring.add(entry)? {
                return Err(KeyFault::BadLine(number));
            }
            rest = behind;
            number += 1;
        }
        Ok(keyring)
    }

    /// Whether the keyring accepts the key's signature over the message: whether a line accepts
    /// the key, the message's SHA-256 and the signature.
    pub fn verdict(&self, key: &Nid, message: &[u8], sig: &Sig) -> bool
        ensures { result ≡ accepts self.now key.now message.now sig.now }
    {
        let accept = Accept {
            key: *key,
            digest: Digest::of(message),
            sig: *sig,
        };
        self.accepted.contains(&accept)
    }

    /// The key for which a text stands: `did:key:fed01` and 64 lower case hexadecimal digits spell
    /// a key by themselves; any other text is looked up whole among the names.
    pub fn name(&self, text: &str) -> Option<Nid>
        ensures { result ≡ key_of self.now text.now }
    {
        match spelled_key(text.as_bytes()) {
            Some(key) => Some(key),
            None => self.names.get(text.as_bytes()).copied(),
        }
    }

    /// The messages of this node's own, in the order of their lines.
    pub fn own(&self) -> &[Bytes]
        ensures { result.now ≡ own_messages self.now }
    {
        &self.own
    }
}

#[cfg(test)]
mod tests;
