// Reading a journal's bodies and replaying them, in one pass.
ghost use Rattle.std.specs.Prelude.{◌≡◌, ◌↔◌, ◌≤◌, List, ℕ, None, length, IsErrOf, IsTrue, OnOk};
ghost use Rattle.keyring.specs.Contents.{Contents};
ghost use Rattle.rad_base.specs.Faults.{Rose};
ghost use Rattle.ref_journal.specs.Holds.{Holds, OnlyReads};
ghost use Rattle.repo_entries.specs.Batches.{AreContents, IsBatch, content_size};
ghost use Rattle.repo_entries.specs.Items.{heard, install, put};
ghost use Rattle.entry_bodies.specs.Bodies.{HasBody, item_in};
ghost use Rattle.object_store.specs.Opens.{IsReading, IsReplay, TakesBehind, TakesOne};

use crate::hear::heard_entry;
use crate::install::{ensure_at, is_whole_advance, judge_at, stage_install_at};
use crate::repository::{Repository, admit_at, stage_put_at};
use announcements::{Heard, Table};
use entry_bodies::{Body, read_body};
use git_object::Kind;
use gossip_wire::Message;
use keyring::Keyring;
use rad_base::{Bytes, NoMemory, Offer, Rid};
use rad_outside::Disk;
use ref_journal::{Journal, ScanFault};
use repo_slice::{Batch, History, Scope};
use std::alloc::Global;
use std::collections::BTreeMap;

/// Why the bodies of a journal are not a store's.
#[derive(Clone, Copy, Debug, PartialEq, Eq)]
pub(crate) enum ReadFault {
    DiskFault,
    // The least place whose body is no entry's.
    Damaged(u64),
    // The first entry that is not legal, counted from 1.
    NotLegal(u64),
    NoMemory,
}

/// What was read so far: what stands, up to the first entry that is not legal.
#[derive(Drop)]
pub(crate) struct Replayed {
    pub(crate) repositories: BTreeMap<Rid, Repository>,
    pub(crate) table: Table,
    pub(crate) history: History,
    // The first entry that is not legal, counted from 1.
    pub(crate) illegal: Option<u64>,
}

/// The most bytes of content of a put of several objects.
const MOST_BYTES: usize = 4_194_304;

// Whether the contents of some objects are small enough to be put together.
fn are_small(objects: &[(Kind, Bytes)]) -> bool
    ensures { IsTrue result ↔ (content_size objects.now ≤ 4194304) }
{
    let mut left = MOST_BYTES;
    'objects: for object in objects {
        let size = object.1.as_slice().len();
        if size > left {
            return false;
        }
        left -= size;
    }
    true
}

// Whether one put may have these objects.
fn is_batch(batch: &Batch) -> bool
    requires some { 1 ≤ length batch.now }
    requires few { length batch.now ≤ 1024 }
    requires each { AreContents batch.now }
    ensures { IsTrue result ↔ IsBatch batch.now }
{
    batch.len() == 1 || are_small(batch.as_slice())
}

impl Replayed {
    // Takes a put that was read, where all before it stand.
    fn take_put(&mut self, alloc: Global, rid: &Rid, batch: &Batch) -> Result<(), NoMemory>
        requires legal { self.old.illegal ≡ None }
        requires body { HasBody (put rid.now batch.now 0) }
        ensures { OnOk result ((keyring : Contents)
            → TakesBehind keyring self.old self.new (put rid.now batch.now 0)) }
    {
        if !is_batch(batch) {
            self.illegal = Some(self.history.count() + 1);
            return Ok(());
        }
        self.history.make_room()?;
        ensure_at(alloc, &mut self.repositories, rid)?;
        let entry = stage_put_at(alloc, &mut self.repositories, rid, 0, batch)?;
        admit_at(alloc, &mut self.repositories, rid, &entry);
        self.history.push(entry);
        Ok(())
    }

    // Takes an install that was read, where all before it stand.
    fn take_install(
        &mut self,
        alloc: Global,
        keyring: &Keyring,
        rid: &Rid,
        offer: Offer,
    ) -> Result<(), NoMemory>
        requires legal { self.old.illegal ≡ None }
        requires body { HasBody (install rid.now offer.id offer.remotes 0) }
        requires replay { IsReplay keyring.now self.old }
        ensures { OnOk result (TakesBehind keyring.now self.old self.new
            (install rid.now offer.id offer.remotes 0)) }
    {
        self.history.make_room()?;
        ensure_at(alloc, &mut self.repositories, rid)?;
        let all = &mut self.repositories;
        let verdict = judge_at(alloc, all, rid, &offer, keyring, &Scope::All)?;
        if !is_whole_advance(&verdict, &offer.remotes) {
            self.illegal = Some(self.history.count() + 1);
            return Ok(());
        }
        let entry = stage_install_at(alloc, &mut self.repositories, rid, 0, offer)?;
        admit_at(alloc, &mut self.repositories, rid, &entry);
        self.history.push(entry);
        Ok(())
    }

    // Takes an announcement that was read, where all before it stand.
    fn take_heard(
        &mut self,
        alloc: Global,
        keyring: &Keyring,
        message: &Message,
    ) -> Result<(), NoMemory>
        requires legal { self.old.illegal ≡ None }
        requires body { HasBody (heard message.now 0) }
        ensures { OnOk result (TakesBehind keyring.now self.old self.new (heard message.now 0)) }
    {
        self.history.make_room()?;
        let entry = heard_entry(alloc, message, 0)?;
        // No time is ahead of the last one, so no announcement is early.
        let heard = self.table.hear(alloc, message, u64::MAX, keyring)?;
        if !matches!(heard, Heard::Raised) {
            self.illegal = Some(self.history.count() + 1);
            return Ok(());
        }
        self.history.push(entry);
        Ok(())
    }

    // Takes an entry that was read.
    fn take(&mut self, alloc: Global, keyring: &Keyring, body: Body) -> Result<(), NoMemory>
        requires body { HasBody (item_in body) }
        requires replay { IsReplay keyring.now self.old }
        ensures { OnOk result (TakesOne keyring.now self.old self.new (item_in body)) }
    {
        if self.illegal.is_some() {
            return Ok(());
        }
        match body {
            Body::Put(rid, batch) => self.take_put(alloc, &rid, &batch),
            Body::Install(rid, offer) => self.take_install(alloc, keyring, &rid, offer),
            Body::Heard(message) => self.take_heard(alloc, keyring, &message),
        }
    }
}

// Reads all bodies of a journal from the first gate on.
pub(crate) fn read_all<D: Disk>(
    alloc: Global,
    journal: &mut Journal<D>,
    keyring: &Keyring,
) -> Result<Replayed, ReadFault>
    ensures reads { OnlyReads D.loan D.faults D.reads_as D.images D.moment D.images_since
        journal.old.disk journal.new.disk }
    ensures keeps { (bodies : List (List ℕ)) → Holds D.reads_as D.images journal.old bodies None
        → Holds D.reads_as D.images journal.new bodies None }
    ensures cause { IsErrOf result ReadFault.DiskFault
        → Rose (D.faults journal.old.disk) (D.faults journal.new.disk) }
    ensures reading { IsReading D.reads_as D.images journal.old keyring.now result }
{
    let mut read = Replayed {
        repositories: BTreeMap::new(alloc),
        table: Table::new(alloc),
        history: History::new(alloc),
        illegal: None,
    };
    let mut place = 8;
    let mut bytes = Vec::new(alloc);
    'walking: loop {
        let next = match journal.scan(place, &mut bytes) {
            Ok(next) => next,
            Err(ScanFault::DiskFault) => return Err(ReadFault::DiskFault),
            Err(ScanFault::NoMemory) => return Err(ReadFault::NoMemory),
        };
        let Some(gate) = next else {
            break;
        };
        match read_body(alloc, &bytes) {
            Err(NoMemory) => return Err(ReadFault::NoMemory),
            Ok(None) => return Err(ReadFault::Damaged(place)),
            Ok(Some(body)) => match read.take(alloc, keyring, body) {
                Err(NoMemory) => return Err(ReadFault::NoMemory),
                Ok(()) => {}
            },
        }
        place = gate;
    }
    match read.illegal {
        Some(n) => Err(ReadFault::NotLegal(n)),
        None => Ok(read),
    }
}
