// The table of the announcements that are kept.
ghost use Rattle.std.specs.Prelude.{◌≡◌, IfOk, OnOk, OnErr, IsSome, None, List};
ghost use Rattle.std.specs.BTreeMap.{get};
ghost use Rattle.std.specs.Bool.{OnTrue, OnFalse};
ghost use Rattle.std.specs.Option.{option_copied, option_map};
ghost use Rattle.rad_base.specs.declared.names.Rid.{Rid};
ghost use Rattle.announcements.specs.Announcements.{IsAnnouncement};
ghost use Rattle.announcements.specs.Held.{HasStaged, HaveInventories, IsStaged, Stages};
ghost use Rattle.announcements.specs.Held.{inventory_of, is_inventory_key, kept_at, kept_in};
ghost use Rattle.announcements.specs.Held.{map_cmp, staged_in};
ghost use Rattle.announcements.specs.Tables.{AreSince, Follows, HasCount, IsSame, Keeps};
ghost use Rattle.announcements.specs.Tables.{answer, beside, is_wanted, nothing_kept};
ghost use Rattle.announcements.specs.declared.kept.Kept.{Kept};
ghost use Rattle.announcements.specs.declared.key.Key.{Key};

use crate::heading::{Heading, accepts, heading_of};
use crate::{Filter, Heard, Kept, Key, Topic};
use gossip_wire::{Message, write_message};
use keyring::Keyring;
use rad_base::{Bytes, Nid, Nids, NoMemory, Rid, Rids};
use std::alloc::Global;
use std::cmp::Ordering;
use std::collections::BTreeMap;

/// Of each key the greatest announcement by time and bytes, of those that were heard. One that is
/// staged has its memory, and shows in nothing until it is settled.
#[derive(Drop)]
pub struct Table {
    /// What is kept of each key. A place stands empty from when an announcement of a new key is
    /// staged until one is kept.
    places: BTreeMap<Key, Option<Kept>>,
    staged: Option<(Key, Kept)>,
}

// An announcement is early whose time is more than an hour ahead of the clock, in milliseconds.
const AHEAD: u64 = 3_600_000;

// What an announcement of a time and of these bytes is beside the one that is kept of its key.
fn beside(kept: Option<&Kept>, time: u64, bytes: &[u8]) -> Heard
    ensures { (rids : List Rid) → result
        ≡ beside (option_copied kept.entry) (record { time = time; bytes = bytes.now; rids = rids }) }
{
    let Some(kept) = kept else {
        return Heard::Raised;
    };
    match kept
        .time
        .cmp(&time)
        .then_with(|| kept.bytes.as_slice().cmp(bytes))
    {
        Ordering::Less => Heard::Raised,
        Ordering::Equal => Heard::Same,
        Ordering::Greater => Heard::Older,
    }
}

// Whether what is kept of a key is wanted.
fn is_wanted(filter: &Filter, from: u64, to: u64, key: &Key, kept: &Kept) -> bool
    ensures { result ≡ is_wanted filter.now from to (key.now, kept.now) }
{
    if kept.time < from || to < kept.time {
        return false;
    }
    match &key.rid {
        None => true,
        Some(rid) => filter.has(rid),
    }
}

// Whether a key is that of an inventory.
fn is_inventory(key: &Key) -> bool
    ensures { result ≡ is_inventory_key key.now }
{
    matches!(key.topic, Topic::Inventory) && key.rid.is_none()
}

// Makes the place of a key, where there is none.
fn make_place(places: &mut BTreeMap<Key, Option<Kept>>, key: Key) -> Result<(), NoMemory>
    ensures kept { IsSame (kept_at places.old) (kept_at places.new) }
    ensures place { OnOk result (IsSome (get map_cmp places.new key)) }
{
    if !places.contains_key(&key) {
        places.insert(key, None)?;
    }
    Ok(())
}

// Keeps an announcement of a key whose place is there, which takes no memory.
fn put(places: &mut BTreeMap<Key, Option<Kept>>, key: Key, kept: Kept)
    requires { IsSome (get map_cmp places.old key) }
    ensures { Keeps key kept (kept_at places.old) (kept_at places.new) }
{
    let _put = places.insert(key, Some(kept));
}

impl Table {
    /// Keeps nothing. It takes no memory.
    pub fn new(alloc: Global) -> Table
        ensures kept { IsSame nothing_kept (kept_in result) }
        ensures staged { staged_in result ≡ None }
    {
        Table {
            places: BTreeMap::new(alloc),
            staged: None,
        }
    }

    // What is kept of a key.
    fn kept(&self, key: &Key) -> Option<&Kept>
        ensures { option_copied result ≡ kept_in self.now key.now }
    {
        match self.places.get(key) {
            Some(kept) => kept.as_ref(),
            None => None,
        }
    }

    // Stages what a heading and its bytes say.
    fn stage_kept(
        &mut self,
        alloc: Global,
        heading: &Heading<'_>,
        bytes: Vec<u8>,
    ) -> Result<(), NoMemory>
        requires { self.old.staged ≡ None }
        ensures kept { IsSame (kept_in self.old) (kept_in self.new) }
        ensures staged { OnOk result (IsStaged self.new heading.now.key (record {
          time = heading.now.time;
          bytes = bytes.items;
          rids = heading.now.rids.now;
        })) }
        ensures none { OnErr result (staged_in self.new ≡ None) }
    {
        let rids = heading.rids.to_vec(alloc)?;
        make_place(&mut self.places, heading.key)?;
        let kept = Kept {
            time: heading.time,
            bytes: Bytes::of(bytes),
            rids: Rids::of(rids),
        };
        self.staged = Some((heading.key, kept));
        Ok(())
    }

    /// Takes all the memory that keeping an announcement needs, and answers as `hear` does. At
    /// `Raised` it is staged, and else nothing is; what was staged before is dropped. What is kept
    /// stays as it was. `NoMemory`: memory was refused, and nothing is staged.
    pub fn stage(
        &mut self,
        alloc: Global,
        message: &Message,
        now: u64,
        keyring: &Keyring,
    ) -> Result<Heard, NoMemory>
        requires { IsAnnouncement message.now }
        ensures told { IfOk result (λ heard.
            heard ≡ answer (kept_in self.old) keyring.now now message.now) }
        ensures staged { IfOk result (λ heard. Stages heard message.now self.new) }
        ensures kept { IsSame (kept_in self.old) (kept_in self.new) }
        ensures none { OnErr result (staged_in self.new ≡ None) }
    {
        self.staged = None;
        let Some(heading) = heading_of(message) else {
            return Ok(Heard::NotAccepted);
        };
        let bytes = write_message(alloc, message)?;
        if !accepts(alloc, keyring, message, &heading, &bytes)? {
            return Ok(Heard::NotAccepted);
        }
        if heading.time.saturating_sub(now) > AHEAD {
            return Ok(Heard::Early);
        }
        let heard = beside(self.kept(&heading.key), heading.time, &bytes);
        if matches!(heard, Heard::Raised) {
            self.stage_kept(alloc, &heading, bytes)?;
        }
        Ok(heard)
    }

    /// Keeps the announcement that is staged, or drops it. It takes no memory.
    pub fn settle(&mut self, keep: bool)
        requires { HasStaged self.old }
        ensures kept { OnTrue keep ((key : Key) (kept : Kept) → IsStaged self.old key kept
            → Keeps key kept (kept_in self.old) (kept_in self.new)) }
        ensures dropped { OnFalse keep (IsSame (kept_in self.old) (kept_in self.new)) }
        ensures none { staged_in self.new ≡ None }
    {
        if let Some((key, kept)) = self.staged.take() {
            if keep {
                put(&mut self.places, key, kept);
            }
        }
    }

    /// Hears an announcement, where the clock stands at `now`, in milliseconds. Its signature is
    /// accepted where the keyring accepts it over the two bytes of the type and all that follows
    /// the signature. It is kept at `Raised` alone, in place of the one of its key. `NoMemory`:
    /// memory was refused, and what is kept stays as it was.
    pub fn hear(
        &mut self,
        alloc: Global,
        message: &Message,
        now: u64,
        keyring: &Keyring,
    ) -> Result<Heard, NoMemory>
        requires { IsAnnouncement message.now }
        ensures told { IfOk result (λ heard.
            heard ≡ answer (kept_in self.old) keyring.now now message.now) }
        ensures kept { IfOk result (λ heard.
            Follows heard message.now (kept_in self.old) (kept_in self.new)) }
        ensures same { OnErr result (IsSame (kept_in self.old) (kept_in self.new)) }
        ensures staged { staged_in self.new ≡ None }
    {
        let heard = self.stage(alloc, message, now, keyring)?;
        if matches!(heard, Heard::Raised) {
            self.settle(true);
        }
        Ok(heard)
    }

    /// How many announcements are kept.
    pub fn len(&self) -> usize
        ensures { HasCount (kept_in self.now) result }
    {
        let mut count = 0;
        for (_, kept) in self.places.iter() {
            if kept.is_some() {
                count += 1;
            }
        }
        count
    }

    /// The messages that are kept and whose time is from `from` to `to`, both included, in order of
    /// type, node and repository; of refs those alone whose repository the filter has. `NoMemory`:
    /// memory for them was refused.
    pub fn since(
        &self,
        alloc: Global,
        filter: &Filter,
        from: u64,
        to: u64,
    ) -> Result<Vec<Bytes>, NoMemory>
        ensures { IfOk result (λ messages.
            AreSince (kept_in self.now) filter.now from to messages.items) }
    {
        let mut messages = Vec::new(alloc);
        for (key, kept) in self.places.iter() {
            if let Some(kept) = kept {
                if is_wanted(filter, from, to, key, kept) {
                    messages.push(Bytes::copy_of(alloc, kept.bytes.as_slice())?)?;
                }
            }
        }
        Ok(messages)
    }

    /// The nodes whose inventory is kept, rising. `NoMemory`: memory for them was refused.
    pub fn inventories(&self, alloc: Global) -> Result<Nids, NoMemory>
        ensures { IfOk result (HaveInventories (kept_in self.now)) }
    {
        let mut nodes = Nids::new(alloc);
        for (key, kept) in self.places.iter() {
            if is_inventory(key) && kept.is_some() {
                nodes.push(key.node)?;
            }
        }
        Ok(nodes)
    }

    /// The repositories of a node's inventory, as it lists them. None where none is kept.
    pub fn inventory(&self, node: &Nid) -> Option<&[Rid]>
        ensures { option_map (λ rids. rids.now) result ≡ inventory_of (kept_in self.now) node.now }
    {
        let key = Key {
            topic: Topic::Inventory,
            node: *node,
            rid: None,
        };
        match self.kept(&key) {
            Some(kept) => Some(kept.rids.as_slice()),
            None => None,
        }
    }
}
