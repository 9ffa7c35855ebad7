// Hearing announcements.
ghost use Rattle.std.specs.Prelude.{◌≡◌, ◌≢◌, ◌↔◌, ◌⊎◌, ◌≤◌, ◌<◌, ◌+◌, ◌^◌, List, length};
ghost use Rattle.std.specs.Prelude.{IfErr, IfOk};
ghost use Rattle.std.specs.Prelude.{IsErrOf, OnErr, OnOk};
ghost use Rattle.rad_base.specs.Faults.{Rose};
ghost use Rattle.gossip_wire.specs.Messages.{message_text};
ghost use Rattle.announcements.specs.Announcements.{IsAnnouncement};
ghost use Rattle.announcements.specs.Held.{HasStaged, IsStaged, Stages, kept_in};
ghost use Rattle.announcements.specs.Tables.{Follows, IsSame, Keeps};
ghost use Rattle.announcements.specs.declared.kept.Kept.{Kept};
ghost use Rattle.announcements.specs.declared.key.Key.{Key};
ghost use Rattle.repo_entries.specs.Histories.{HasRoom};
ghost use Rattle.repo_entries.specs.Items.{Item};
ghost use Rattle.entry_bodies.specs.Bodies.{heard_size, heard_text};
ghost use Rattle.legal_history.specs.Cores.{Core};

use crate::Store;
use crate::missed::into_missed;
use announcements::{Filter, Heard, Table};
use entry_bodies::heard_body;
use gossip_wire::{Message, write_message};
use rad_base::{Bytes, NoMemory};
use rad_outside::Disk;
use ref_journal::{AppendFault, Parcel};
use repo_slice::{Entry, KeepFault};
use std::alloc::Global;

// The entry of an announcement.
pub(crate) fn heard_entry(alloc: Global, message: &Message, caller: u64) -> Result<Entry, NoMemory>
    requires { IsAnnouncement message.now }
    ensures { IfOk result (λ entry. entry ≡ Entry.Heard (message_text message.now) caller) }
{
    let bytes = write_message(alloc, message)?;
    Ok(Entry::Heard {
        message: Bytes::of(bytes),
        caller,
    })
}

// The body of an announcement in its frame.
pub(crate) fn heard_parcel(alloc: Global, message: &Message) -> Result<Parcel, NoMemory>
    requires { IsAnnouncement message.now }
    ensures text { IfOk result (λ parcel. parcel ≡ heard_text message.now) }
    ensures size { IfOk result (λ parcel. length parcel ≡ heard_size message.now) }
{
    let body = heard_body(alloc, message)?;
    Parcel::of(alloc, body.as_slice())
}

impl<D: Disk> Store<D> {
    ghost use Rattle.object_store.specs.Hearing.{HasHeard, IsHeardFault, Tells};
    ghost use Rattle.object_store.specs.Stores.{EndsBehindHeard, IsHearing, KeepsClaims};
    ghost use Rattle.object_store.specs.Stores.{StandsFor, answered_by};

    /// Hears an announcement, where the clock stands at `now`, in milliseconds. Only one that is
    /// raised is written, and kept behind that. `DiskFault`: a call of the disk failed, and a missed
    /// entry was added, which says what was left in doubt. `Full`: the journal would be longer than
    /// 2^40 bytes. After `Full` and `NoMemory` the history is as before; after each refusal the
    /// table is.
    pub fn hear(
        &mut self,
        alloc: Global,
        message: &Message,
        now: u64,
        caller: u64,
    ) -> Result<Heard, KeepFault>
        requires { IsAnnouncement message.now }
        ensures stays { D.loan self.new.journal.disk ≡ D.loan self.old.journal.disk }
        ensures later { D.faults self.old.journal.disk ≤ D.faults self.new.journal.disk }
        ensures cause { IsErrOf result KeepFault.DiskFault
            → Rose (D.faults self.old.journal.disk) (D.faults self.new.journal.disk) }
        ensures full { IsErrOf result KeepFault.Full
            → 2 ^ 40 < self.old.journal.end + 10 + heard_size message.now }
        ensures room { IfOk result (λ heard. heard ≡ Heard.Raised
            → self.old.journal.end + 10 + heard_size message.now ≤ 2 ^ 40) }
        ensures only_full { answered_by self.old now message.now ≡ Heard.Raised
            → 2 ^ 40 < self.old.journal.end + 10 + heard_size message.now
            → IsErrOf result KeepFault.Full ⊎ IsErrOf result KeepFault.NoMemory }
        ensures only_raised { IfOk result (λ heard. heard ≢ Heard.Raised
            → self.new.journal ≡ self.old.journal) }
        ensures told { IfOk result (λ heard. heard ≡ answered_by self.old now message.now) }
        ensures keyring { self.new.keyring ≡ self.old.keyring }
        ensures repositories { self.new.repositories ≡ self.old.repositories }
        ensures table { IfOk result (λ heard.
            Follows heard message.now (kept_in self.old.table) (kept_in self.new.table)) }
        ensures table_stays { OnErr result
            (IsSame (kept_in self.old.table) (kept_in self.new.table)) }
        ensures end { EndsBehindHeard self.old.journal.end self.new.journal.end message.now result }
        ensures claims { KeepsClaims self.old self.new }
        ensures events { (core : Core) → StandsFor self.old core.items
            → IsHearing D.reads_as D.images D.moment D.images_since self.old self.new core
            message.now now caller result }
    {
        let heard = self.stage_heard(alloc, message, now)?;
        if !matches!(heard, Heard::Raised) {
            return Ok(heard);
        }
        let entry = heard_entry(alloc, message, caller)?;
        let parcel = heard_parcel(alloc, message)?;
        self.write_heard(caller, entry, &parcel)?;
        Ok(Heard::Raised)
    }

    /// The messages that are kept and whose time is from `from` to `to`, both included, in order of
    /// type, node and repository; of refs those alone whose repository the filter has. `NoMemory`:
    /// memory for them was refused.
    pub fn since(
        &self,
        alloc: Global,
        filter: &Filter,
        from: u64,
        to: u64,
    ) -> Result<Vec<Bytes>, NoMemory>
        ensures { (items : List Item) → StandsFor self.now items → IfOk result
            (λ messages. Tells items filter.now from to messages.items) }
    {
        self.table.since(alloc, filter, from, to)
    }

    /// The table of the announcements that were heard.
    pub fn table(&self) -> &Table
        ensures { result.now ≡ self.now.table }
    {
        &self.table
    }

    // Stages an announcement, and takes the room of one entry.
    fn stage_heard(&mut self, alloc: Global, message: &Message, now: u64) -> Result<Heard, NoMemory>
        requires { IsAnnouncement message.now }
        ensures journal { self.new.journal ≡ self.old.journal }
        ensures keyring { self.new.keyring ≡ self.old.keyring }
        ensures repositories { self.new.repositories ≡ self.old.repositories }
        ensures entries { self.new.history.entries.items ≡ self.old.history.entries.items }
        ensures kept { IsSame (kept_in self.old.table) (kept_in self.new.table) }
        ensures room { OnOk result (HasRoom self.new.history) }
        ensures told { IfOk result (λ heard. heard ≡ answered_by self.old now message.now) }
        ensures staged { IfOk result (λ heard. Stages heard message.now self.new.table) }
    {
        self.history.make_room()?;
        self.table.stage(alloc, message, now, &self.keyring)
    }

    // Writes an announcement that is staged, and keeps it behind that. It takes no memory.
    fn write_heard(&mut self, caller: u64, entry: Entry, parcel: &Parcel) -> Result<(), KeepFault>
        requires staged { HasStaged self.old.table }
        requires room { HasRoom self.old.history }
        ensures stays { D.loan self.new.journal.disk ≡ D.loan self.old.journal.disk }
        ensures later { D.faults self.old.journal.disk ≤ D.faults self.new.journal.disk }
        ensures cause { IsErrOf result KeepFault.DiskFault
            → Rose (D.faults self.old.journal.disk) (D.faults self.new.journal.disk) }
        ensures full { IsErrOf result KeepFault.Full
            ↔ (2 ^ 40 < self.old.journal.end + 10 + length parcel.now) }
        ensures end { OnOk result
            (self.new.journal.end ≡ self.old.journal.end + 9 + length parcel.now) }
        ensures end_stays { OnErr result (self.new.journal.end ≡ self.old.journal.end) }
        ensures keyring { self.new.keyring ≡ self.old.keyring }
        ensures repositories { self.new.repositories ≡ self.old.repositories }
        ensures kept { OnOk result ((key : Key) (kept : Kept) → IsStaged self.old.table key kept
            → Keeps key kept (kept_in self.old.table) (kept_in self.new.table)) }
        ensures dropped { OnErr result
            (IsSame (kept_in self.old.table) (kept_in self.new.table)) }
        ensures wrote { OnOk result (HasHeard D.reads_as D.images D.moment D.images_since
            self.old self.new entry parcel.now) }
        ensures fault { IfErr result (IsHeardFault D.reads_as D.images D.moment D.images_since
            self.old self.new caller entry parcel.now) }
    {
        match self.journal.append(parcel) {
            Ok(_) => {
                self.table.settle(true);
                self.history.push(entry);
                Ok(())
            }
            Err(AppendFault::Full) => {
                self.table.settle(false);
                Err(KeepFault::Full)
            }
            Err(AppendFault::DiskFault { in_doubt }) => {
                self.table.settle(false);
                let missed = into_missed(entry, None, caller, in_doubt);
                self.history.push(missed);
                Err(KeepFault::DiskFault)
            }
        }
    }
}
