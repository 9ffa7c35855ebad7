// The store that replays.
ghost use Rattle.std.specs.Prelude.{◌≡◌, ◌≢◌, ◌↔◌, ◌⊎◌, ◌≤◌, ◌<◌, ◌+◌, ◌^◌, length, IfErr, IfOk};
ghost use Rattle.std.specs.Prelude.{IfSome};
ghost use Rattle.ref_journal.specs.Holds.{OnlyReads};
ghost use Rattle.std.specs.Prelude.{Contains, List, Some, IsErrOf, IsTrue, OnErr, OnOk};
ghost use Rattle.repo_slice.specs.Heads.{IsHeadOf};
ghost use Rattle.repo_slice.specs.Keeps.{AreRisingNames, IsNamedIn};
ghost use Rattle.repo_slice.specs.Wanted.{AreAmong, IsWantedList};
ghost use Rattle.legal_history.specs.Replays.{replay, replayed_state};
ghost use Rattle.object_store.specs.Installs.{HasIdentityAt};
ghost use Rattle.std.specs.BTreeMap.{get};
ghost use Rattle.rad_base.specs.Faults.{Rose};
ghost use Rattle.rad_base.specs.Order.{IsRising, rid_cmp};
ghost use Rattle.rad_base.specs.declared.names.Oid.{Oid};
ghost use Rattle.rad_base.specs.declared.names.Rid.{Rid};
ghost use Rattle.repo_entries.specs.Batches.{IsBatch};
ghost use Rattle.repo_entries.specs.Histories.{HasRoom};
ghost use Rattle.repo_entries.specs.Items.{Item, names_of};
ghost use Rattle.entry_bodies.specs.Bodies.{install_size, install_text, put_size, put_text};
ghost use Rattle.legal_history.specs.Cores.{Core};
ghost use Rattle.object_store.specs.Installs.{HasFew, HasStagedInstall, IsVerdictAt};
ghost use Rattle.object_store.specs.Replied.{IsReplyBy};
ghost use Rattle.object_store.specs.Repositories.{HasStagedPut, IsIdle, IsPrepared, IsSame};
ghost use Rattle.object_store.specs.Repositories.{own_rid};

use crate::install::{judge_at, stage_install_at};
use crate::missed::into_missed;
use crate::replayed::{ReadFault, read_all};
use crate::reply::reply_at;
use crate::repository::{Repository, admit_at, claim_at, stage_put_at, unstage_at};
use crate::shown::{is_bare, shown_names};
use crate::wanted::{names_at, wants_at};
use crate::{ClaimFault, StoreFault, Why};
use announcements::Table;
use canonical_head::answer::Head;
use entry_bodies::{install_body, put_body};
use fetch_wire::Request;
use keyring::Keyring;
use rad_base::{Nid, Nids, NoMemory, Offer, Oids, Remotes, Rid, Rids};
use rad_outside::Disk;
use ref_journal::{AppendFault, Journal, OpenFault, Parcel};
use repo_slice::{Batch, Entry, History, Judged, KeepFault, Scope, Slice, Stage, Whole};
use std::alloc::Global;
use std::collections::BTreeMap;

/// A store on a disk that it holds: its history, what stands of each repository, and the table of
/// the announcements that it heard.
#[derive(Drop)]
pub struct Store<D> {
    pub(crate) journal: Journal<D>,
    pub(crate) keyring: Keyring,
    pub(crate) repositories: BTreeMap<Rid, Repository>,
    pub(crate) table: Table,
    pub(crate) history: History,
}

// The body of a put in its frame.
fn put_parcel(alloc: Global, rid: &Rid, batch: &Batch) -> Result<Parcel, NoMemory>
    requires { IsBatch batch.now }
    ensures text { IfOk result (λ parcel. parcel ≡ put_text rid.now batch.now) }
    ensures size { IfOk result (λ parcel. length parcel ≡ put_size batch.now) }
{
    let body = put_body(alloc, rid, batch)?;
    Parcel::of(alloc, body.as_slice())
}

// The body of an install of what is offered, in its frame.
fn install_parcel(alloc: Global, rid: &Rid, offer: &Offer) -> Result<Parcel, NoMemory>
    requires { length offer.now.remotes ≤ 1024 }
    ensures text { IfOk result (λ parcel. parcel
        ≡ install_text rid.now offer.now.id offer.now.remotes) }
    ensures size { IfOk result (λ parcel. length parcel ≡ install_size offer.now.remotes) }
{
    let body = install_body(alloc, rid, &offer.id, &offer.remotes)?;
    Parcel::of(alloc, body.as_slice())
}

// The next identity and the remotes that advance, whose keys rise, as an offer of their own.
fn next_of(alloc: Global, judged: &Judged) -> Result<Offer, NoMemory>
    ensures next { IfOk result (λ next. (next.id ≡ judged.now.next_id)
        × (next.remotes ≡ judged.now.advanced)) }
    ensures rising { IsRising judged.now.advanced }
{
    let remotes = judged.advanced.as_slice();
    Ok(Offer {
        id: judged.next_id,
        remotes: Remotes::of(remotes.to_vec(alloc)?),
    })
}

// A refusal, with the disk.
fn fault<D>(disk: D, why: Why) -> StoreFault<D>
    ensures { result ≡ record { disk = disk; why = why } }
{
    StoreFault { disk, why }
}

impl<D: Disk> Store<D> {
    ghost use Rattle.object_store.specs.Held.{IsUnclaimed, held_in};
    ghost use Rattle.object_store.specs.Shown.{AreRisingRids, IsShownAs, ShowsRepository};
    ghost use Rattle.object_store.specs.Opened.{HasStoreOpenCause, IsOpenedStore, OpensAs};
    ghost use Rattle.object_store.specs.Opened.{disk_of_opened};
    ghost use Rattle.object_store.specs.Stores.{EndsBehind, HasClaimed, IsClaiming, IsInstall, IsPut};
    ghost use Rattle.object_store.specs.Stores.{JournalHadRoom};
    ghost use Rattle.object_store.specs.Stores.{KeepsClaims, StandsForSome, StandsFor};
    ghost use Rattle.object_store.specs.Writes.{HasWritten, IsWriteFault};

    /// Opens the store that stands on a disk, under a keyring. It writes nothing. A refusal gives
    /// the disk back.
    pub fn open(alloc: Global, disk: D, keyring: Keyring) -> Result<Store<D>, StoreFault<D>>
        ensures reads { OnlyReads D.loan D.faults D.reads_as D.images D.moment D.images_since
            disk (disk_of_opened result) }
        ensures cause { IfErr result (HasStoreOpenCause (D.faults disk) D.faults) }
        ensures stands { IfOk result (OpensAs keyring) }
        ensures unclaimed { IfOk result IsUnclaimed }
        ensures opened { IfSome (D.reads_as disk)
            (λ bytes. IsOpenedStore D.reads_as D.images keyring bytes result) }
    {
        let mut journal = match Journal::open(disk) {
            Ok(journal) => journal,
            Err(OpenFault::DiskFault(disk)) => return Err(fault(disk, Why::DiskFault)),
            Err(OpenFault::Unmade(disk)) => return Err(fault(disk, Why::Unmade)),
            Err(OpenFault::Damaged(disk, place)) => {
                return Err(fault(disk, Why::Damaged(place)));
            }
        };
        match read_all(alloc, &mut journal, &keyring) {
            Ok(read) => Ok(Store {
                journal,
                keyring,
                repositories: read.repositories,
                table: read.table,
                history: read.history,
            }),
            Err(ReadFault::DiskFault) => Err(fault(journal.close(), Why::DiskFault)),
            Err(ReadFault::Damaged(place)) => Err(fault(journal.close(), Why::Damaged(place))),
            Err(ReadFault::NotLegal(n)) => Err(fault(journal.close(), Why::NotLegal(n))),
            Err(ReadFault::NoMemory) => Err(fault(journal.close(), Why::NoMemory)),
        }
    }

    /// The entries, in order.
    pub fn history(&self) -> &History
        ensures { result.now ≡ self.now.history }
    {
        &self.history
    }

    /// What stands of a repository. None exactly where no put or install names it.
    pub fn slice(&self, rid: &Rid) -> Option<&Slice>
        ensures { (items : List Item) → StandsFor self.now items
            → IsShownAs rid.now items result }
    {
        let Some(repository) = self.repositories.get(rid) else {
            return None;
        };
        if is_bare(&repository.slice) {
            return None;
        }
        Some(&repository.slice)
    }

    /// Gives the disk and the history back. It takes no memory.
    pub fn close(self) -> (D, History)
        ensures disk { result.0 ≡ self.journal.disk }
        ensures history { result.1 ≡ self.history }
    {
        (self.journal.close(), self.history)
    }

    /// The names of the repositories that a put or an install names, rising, each once.
    pub fn repositories(&self, alloc: Global) -> Result<Rids, NoMemory>
        ensures rising { IfOk result AreRisingRids }
        ensures names { (items : List Item) → StandsFor self.now items → IfOk result
            (λ rids. (rid : Rid) → Contains rids rid ↔ ShowsRepository rid items) }
    {
        shown_names(alloc, &self.repositories)
    }

    /// The names of the identity and of the remotes' commits of a repository, rising, each once.
    /// There is none where no put or install names it.
    pub fn have(&self, alloc: Global, rid: &Rid) -> Result<Oids, NoMemory>
        ensures rising { IfOk result AreRisingNames }
        ensures names { (items : List Item) → StandsFor self.now items → IfOk result
            (λ oids. (oid : Oid) → Contains oids oid ↔ IsNamedIn (held_in rid.now items) oid) }
    {
        names_at(alloc, &self.repositories, rid)
    }

    /// Which of the offered remotes are asked for at a stage, on what stands of a repository:
    /// nothing where no put or install names it. Their keys rise. It changes nothing. Until
    /// contents are read from the disk the one refusal is `NoMemory`.
    pub fn wants(
        &mut self,
        alloc: Global,
        rid: &Rid,
        _caller: u64,
        offer: &Offer,
        scope: &Scope,
        stage: Stage,
    ) -> Result<Nids, KeepFault>
        ensures journal { self.new.journal ≡ self.old.journal }
        ensures keyring { self.new.keyring ≡ self.old.keyring }
        ensures table { self.new.table ≡ self.old.table }
        ensures claims { KeepsClaims self.old self.new }
        ensures stands { (items : List Item) → StandsFor self.old items
            → StandsFor self.new items }
        ensures fault { IfErr result (λ why. why ≡ KeepFault.NoMemory) }
        ensures wanted { (items : List Item) → StandsFor self.old items → IfOk result
            (IsWantedList (replay rid.now items).objects self.old.keyring
            (replayed_state rid.now items) offer.now scope.now stage) }
        ensures among { IfOk result (AreAmong offer.now.remotes) }
    {
        let all = &mut self.repositories;
        match wants_at(alloc, all, rid, offer, &self.keyring, scope, stage) {
            Ok(nodes) => Ok(nodes),
            Err(NoMemory) => Err(KeepFault::NoMemory),
        }
    }

    /// The canonical head of a repository that has an identity. It changes nothing. Until
    /// contents are read from the disk the one refusal is `NoMemory`.
    pub fn head(&mut self, alloc: Global, rid: &Rid, _caller: u64) -> Result<Head, KeepFault>
        requires { HasIdentityAt (get rid_cmp self.old.repositories rid.now) }
        ensures same { self.new ≡ self.old }
        ensures fault { IfErr result (λ why. why ≡ KeepFault.NoMemory) }
        ensures head { (items : List Item) → StandsFor self.old items → IfOk result
            (λ head. IsHeadOf (replay rid.now items).objects self.old.keyring
            (replayed_state rid.now items) (Some head)) }
    {
        // Where there is an identity, neither is nothing.
        let Some(repository) = self.repositories.get(rid) else {
            return Ok(Head::NoBranch);
        };
        match repository.slice.head(alloc, &self.keyring) {
            Ok(Some(head)) => Ok(head),
            Ok(None) => Ok(Head::NoBranch),
            Err(_) => Err(KeepFault::NoMemory),
        }
    }

    /// The reply to a request: to whom the document does not let see the repository, or where no
    /// identity of it stands, the refusal 1; where a node has no remote, the refusal 2; else the
    /// section of what is asked for and of none that the haves stand for, in order of name. It
    /// changes nothing. Until contents are read from the disk the one refusal is `NoMemory`.
    pub fn reply(
        &mut self,
        alloc: Global,
        request: &Request,
        asker: &Nid,
        _caller: u64,
    ) -> Result<Vec<u8>, KeepFault>
        requires { StandsForSome self.old }
        ensures same { self.new ≡ self.old }
        ensures fault { IfErr result (λ why. why ≡ KeepFault.NoMemory) }
        ensures reply { (items : List Item) → StandsFor self.old items → IfOk result
            (λ bytes. IsReplyBy items self.old.keyring request.now asker.now bytes.items) }
    {
        match reply_at(alloc, &self.repositories, &self.keyring, request, asker) {
            Ok(bytes) => Ok(bytes),
            Err(NoMemory) => Err(KeepFault::NoMemory),
        }
    }

    /// Lets a caller claim a repository for this run. `Claimed`: this caller claimed it. After a
    /// refusal the history is as before.
    pub fn claim(&mut self, alloc: Global, rid: &Rid, caller: u64) -> Result<(), ClaimFault>
        requires { 1 ≤ caller }
        ensures journal { self.new.journal ≡ self.old.journal }
        ensures keyring { self.new.keyring ≡ self.old.keyring }
        ensures table { self.new.table ≡ self.old.table }
        ensures claimed { OnOk result (HasClaimed self.new rid.now caller) }
        ensures claims { KeepsClaims self.old self.new }
        ensures events { (core : Core) → StandsFor self.old core.items
            → IsClaiming D.reads_as D.images D.moment D.images_since self.old self.new core
            rid.now caller result }
    {
        self.history.make_room()?;
        claim_at(alloc, &mut self.repositories, rid, caller)?;
        self.history.push(Entry::Claim { rid: *rid, caller });
        Ok(())
    }

    /// Puts objects into a repository that the caller claimed. `DiskFault`: a call of the disk
    /// failed, and a missed entry was added, which says what was left in doubt. `Full`: the
    /// journal would be longer than 2^40 bytes. After `Full` and `NoMemory` the history is as
    /// before.
    pub fn put(
        &mut self,
        alloc: Global,
        rid: &Rid,
        caller: u64,
        batch: &Batch,
    ) -> Result<(), KeepFault>
        requires claimed { HasClaimed self.old rid.now caller }
        requires batch { IsBatch batch.now }
        ensures stays { D.loan self.new.journal.disk ≡ D.loan self.old.journal.disk }
        ensures later { D.faults self.old.journal.disk ≤ D.faults self.new.journal.disk }
        ensures cause { IsErrOf result KeepFault.DiskFault
            → Rose (D.faults self.old.journal.disk) (D.faults self.new.journal.disk) }
        ensures full { IsErrOf result KeepFault.Full
            → 2 ^ 40 < self.old.journal.end + 10 + put_size batch.now }
        ensures only_full { 2 ^ 40 < self.old.journal.end + 10 + put_size batch.now
            → IsErrOf result KeepFault.Full ⊎ IsErrOf result KeepFault.NoMemory }
        ensures keyring { self.new.keyring ≡ self.old.keyring }
        ensures table { self.new.table ≡ self.old.table }
        ensures end { OnOk result
            (self.new.journal.end ≡ self.old.journal.end + 9 + put_size batch.now) }
        ensures end_stays { OnErr result (self.new.journal.end ≡ self.old.journal.end) }
        ensures claims { KeepsClaims self.old self.new }
        ensures events { (core : Core) → StandsFor self.old core.items
            → IsPut D.reads_as D.images D.moment D.images_since self.old self.new core
            rid.now batch.now caller result }
    {
        let (entry, parcel) = self.prepare_put(alloc, rid, caller, batch)?;
        self.write(alloc, rid, caller, entry, &parcel)
    }

    /// Judges an offer on a repository that the caller claimed, and installs what advances: the
    /// objects of the offer were put before. A whole refusal adds one refused entry and writes
    /// nothing. `DiskFault`: a call of the disk failed, and a missed entry was added, which says
    /// what was left in doubt. `Full`: the journal would be longer than 2^40 bytes. After `Full`
    /// and `NoMemory` the history is as before.
    pub fn install(
        &mut self,
        alloc: Global,
        rid: &Rid,
        caller: u64,
        offer: &Offer,
        scope: &Scope,
    ) -> Result<Result<Judged, Whole>, KeepFault>
        requires claimed { HasClaimed self.old rid.now caller }
        requires stands { StandsForSome self.old }
        ensures stays { D.loan self.new.journal.disk ≡ D.loan self.old.journal.disk }
        ensures later { D.faults self.old.journal.disk ≤ D.faults self.new.journal.disk }
        ensures cause { IsErrOf result KeepFault.DiskFault
            → Rose (D.faults self.old.journal.disk) (D.faults self.new.journal.disk) }
        ensures room { IfOk result (JournalHadRoom self.old.journal.end rid.now caller) }
        ensures keyring { self.new.keyring ≡ self.old.keyring }
        ensures table { self.new.table ≡ self.old.table }
        ensures end { EndsBehind self.old.journal.end self.new.journal.end result }
        ensures claims { KeepsClaims self.old self.new }
        ensures events { (core : Core) → StandsFor self.old core.items
            → IsInstall D.reads_as D.images D.moment D.images_since self.old self.new core
            rid.now offer.now scope.now caller result }
    {
        let judged = match self.judge(alloc, rid, offer, scope)? {
            Ok(judged) => judged,
            Err(why) => {
                self.history.push(Entry::Refused {
                    rid: *rid,
                    why,
                    caller,
                });
                return Ok(Err(why));
            }
        };
        let next = next_of(alloc, &judged)?;
        let (entry, parcel) = self.prepare_install(alloc, rid, caller, next)?;
        self.write(alloc, rid, caller, entry, &parcel)?;
        Ok(Ok(judged))
    }

    // Judges an offer on a repository, and takes the room of one entry.
    fn judge(
        &mut self,
        alloc: Global,
        rid: &Rid,
        offer: &Offer,
        scope: &Scope,
    ) -> Result<Result<Judged, Whole>, NoMemory>
        requires { HasFew (get rid_cmp self.old.repositories rid.now) }
        ensures journal { self.new.journal ≡ self.old.journal }
        ensures keyring { self.new.keyring ≡ self.old.keyring }
        ensures table { self.new.table ≡ self.old.table }
        ensures entries { self.new.history.entries.items ≡ self.old.history.entries.items }
        ensures others { (other : Rid) → other ≢ rid.now
            → get rid_cmp self.new.repositories other ≡ get rid_cmp self.old.repositories other }
        ensures same { get rid_cmp self.new.repositories rid.now
            ≡ get rid_cmp self.old.repositories rid.now }
        ensures room { OnOk result (HasRoom self.new.history) }
        ensures told { IfOk result (IsVerdictAt (get rid_cmp self.old.repositories rid.now)
            self.old.keyring offer.now scope.now) }
    {
        self.history.make_room()?;
        let all = &mut self.repositories;
        judge_at(alloc, all, rid, offer, &self.keyring, scope)
    }

    // Takes the memory of an install: its entry, its body, the room in the slice.
    fn prepare_install(
        &mut self,
        alloc: Global,
        rid: &Rid,
        caller: u64,
        offer: Offer,
    ) -> Result<(Entry, Parcel), NoMemory>
        requires few { length offer.remotes ≤ 1024 }
        requires room { HasRoom self.old.history }
        ensures journal { self.new.journal ≡ self.old.journal }
        ensures keyring { self.new.keyring ≡ self.old.keyring }
        ensures table { self.new.table ≡ self.old.table }
        ensures history { self.new.history ≡ self.old.history }
        ensures others { (other : Rid) → other ≢ rid.now
            → get rid_cmp self.new.repositories other ≡ get rid_cmp self.old.repositories other }
        ensures same { IsSame (get rid_cmp self.old.repositories rid.now)
            (get rid_cmp self.new.repositories rid.now) }
        ensures idle { OnErr result (IsIdle (get rid_cmp self.old.repositories rid.now)
            → IsIdle (get rid_cmp self.new.repositories rid.now)) }
        ensures staged { OnOk result (HasStagedInstall offer.id offer.remotes
            (get rid_cmp self.old.repositories rid.now)
            (get rid_cmp self.new.repositories rid.now)) }
        ensures prepared { IfOk result (λ x.
            IsPrepared x.0 (get rid_cmp self.new.repositories rid.now)) }
        ensures entry { IfOk result (λ x. x.0
            ≡ Entry.Install (own_rid (get rid_cmp self.old.repositories rid.now) rid.now)
            offer.id offer.remotes caller) }
        ensures parcel { IfOk result (λ x. x.1
            ≡ install_text rid.now offer.id offer.remotes) }
        ensures size { IfOk result (λ x. length x.1 ≡ install_size offer.remotes) }
    {
        let parcel = install_parcel(alloc, rid, &offer)?;
        let entry = stage_install_at(alloc, &mut self.repositories, rid, caller, offer)?;
        Ok((entry, parcel))
    }

    // Writes an entry that is prepared, and lets it stand. It takes no memory.
    fn write(
        &mut self,
        alloc: Global,
        rid: &Rid,
        caller: u64,
        entry: Entry,
        parcel: &Parcel,
    ) -> Result<(), KeepFault>
        requires prepared { IsPrepared entry (get rid_cmp self.old.repositories rid.now) }
        requires room { HasRoom self.old.history }
        ensures stays { D.loan self.new.journal.disk ≡ D.loan self.old.journal.disk }
        ensures later { D.faults self.old.journal.disk ≤ D.faults self.new.journal.disk }
        ensures cause { IsErrOf result KeepFault.DiskFault
            → Rose (D.faults self.old.journal.disk) (D.faults self.new.journal.disk) }
        ensures full { IsErrOf result KeepFault.Full
            ↔ (2 ^ 40 < self.old.journal.end + 10 + length parcel.now) }
        ensures end { OnOk result
            (self.new.journal.end ≡ self.old.journal.end + 9 + length parcel.now) }
        ensures end_stays { OnErr result (self.new.journal.end ≡ self.old.journal.end) }
        ensures keyring { self.new.keyring ≡ self.old.keyring }
        ensures table { self.new.table ≡ self.old.table }
        ensures others { (other : Rid) → other ≢ rid.now
            → get rid_cmp self.new.repositories other ≡ get rid_cmp self.old.repositories other }
        ensures wrote { OnOk result (HasWritten D.reads_as D.images D.moment D.images_since
            self.old self.new rid.now entry parcel.now) }
        ensures fault { IfErr result (IsWriteFault D.reads_as D.images D.moment D.images_since
            self.old self.new rid.now caller entry parcel.now) }
    {
        match self.journal.append(parcel) {
            Ok(_) => {
                admit_at(alloc, &mut self.repositories, rid, &entry);
                self.history.push(entry);
                Ok(())
            }
            Err(AppendFault::Full) => {
                unstage_at(&mut self.repositories, rid);
                Err(KeepFault::Full)
            }
            Err(AppendFault::DiskFault { in_doubt }) => {
                unstage_at(&mut self.repositories, rid);
                let missed = into_missed(entry, Some(*rid), caller, in_doubt);
                self.history.push(missed);
                Err(KeepFault::DiskFault)
            }
        }
    }

    // Takes all the memory of a put: its entry, its body, the room in the history and in the slice.
    fn prepare_put(
        &mut self,
        alloc: Global,
        rid: &Rid,
        caller: u64,
        batch: &Batch,
    ) -> Result<(Entry, Parcel), NoMemory>
        requires { IsBatch batch.now }
        ensures journal { self.new.journal ≡ self.old.journal }
        ensures keyring { self.new.keyring ≡ self.old.keyring }
        ensures table { self.new.table ≡ self.old.table }
        ensures entries { self.new.history.entries.items ≡ self.old.history.entries.items }
        ensures others { (other : Rid) → other ≢ rid.now
            → get rid_cmp self.new.repositories other ≡ get rid_cmp self.old.repositories other }
        ensures same { IsSame (get rid_cmp self.old.repositories rid.now)
            (get rid_cmp self.new.repositories rid.now) }
        ensures idle { OnErr result (IsIdle (get rid_cmp self.old.repositories rid.now)
            → IsIdle (get rid_cmp self.new.repositories rid.now)) }
        ensures staged { OnOk result (HasStagedPut batch.now
            (get rid_cmp self.old.repositories rid.now)
            (get rid_cmp self.new.repositories rid.now)) }
        ensures prepared { IfOk result (λ x.
            IsPrepared x.0 (get rid_cmp self.new.repositories rid.now)) }
        ensures room { OnOk result (HasRoom self.new.history) }
        ensures entry { IfOk result (λ x. x.0
            ≡ Entry.Put (own_rid (get rid_cmp self.old.repositories rid.now) rid.now)
            (names_of batch.now) caller) }
        ensures parcel { IfOk result (λ x. x.1 ≡ put_text rid.now batch.now) }
        ensures size { IfOk result (λ x. length x.1 ≡ put_size batch.now) }
    {
        self.history.make_room()?;
        let parcel = put_parcel(alloc, rid, batch)?;
        let entry = stage_put_at(alloc, &mut self.repositories, rid, caller, batch)?;
        Ok((entry, parcel))
    }
}
