// What one repository has.
ghost use Rattle.std.specs.Prelude.{◌≡◌, ◌≤◌, ◌++◌, [], length, None, Some};
ghost use Rattle.std.specs.Prelude.{IfErr, IfOk, IsOk, IsSome, OnErr, OnOk, ◌⊎◌};
ghost use Rattle.rad_base.specs.declared.names.Oid.{Oid};
ghost use Rattle.rad_base.specs.Order.{commit_of};
ghost use Rattle.commit_graph.specs.InMemory.{objects_in};
ghost use Rattle.keyring.specs.Contents.{Contents};
ghost use Rattle.repo_entries.specs.Items.{names_of};
ghost use Rattle.repo_slice.specs.Good.{IsGood};
ghost use Rattle.repo_slice.specs.Heads.{IsHeadOf};
ghost use Rattle.repo_slice.specs.Slices.{AreRefsOf, Brings, HasNothingStaged, IsCertain};
ghost use Rattle.repo_slice.specs.Slices.{IsEntryFor, IsReady};
ghost use Rattle.repo_slice.specs.Slices.{Stages, objects_of, pending_of, pending_state, state_of};
ghost use Rattle.repo_slice.specs.Verdicts.{IsChecked, IsInstalled, IsVerdict};
ghost use Rattle.repo_slice.specs.Wanted.{AreAmong, IsWantedList};

use crate::heads::head_over;
use crate::judging::judge_over;
use crate::merging::merged;
use crate::wanting::wants_over;
use crate::{Batch, Entry, Judged, Scope, Stage, State, Whole};
use canonical_head::answer::Head;
use commit_graph::{GetFault, MemObjects, Objects};
use git_object::Kind;
use keyring::Keyring;
use rad_base::{Bytes, Nid, Nids, NoMemory, Offer, Oid, Remotes, Rid};
use signed_refs::{Refs, refs_said};
use std::alloc::Global;

/// The identity and the remotes that stand once a staged install is admitted.
#[derive(Debug, Drop)]
pub struct Next {
    /// The next identity commit.
    pub id: Oid,
    /// All remotes that stand then.
    pub remotes: Remotes,
}

/// What one repository has: objects, the identity and the remotes. What is staged has its memory,
/// and shows in nothing until it is admitted.
#[derive(Drop)]
pub struct Slice {
    pub(crate) objects: MemObjects,
    pub(crate) state: State,
    next: Option<Next>,
}

// Takes the memory of objects with these names.
fn stage_all(
    alloc: Global,
    objects: &mut MemObjects,
    names: &[Oid],
    batch: &[(Kind, Bytes)],
) -> Result<(), NoMemory>
    requires { names.now ≡ names_of batch.now }
    ensures there { objects.new.objects ≡ objects.old.objects }
    ensures pending { OnOk result (objects_in objects.new.pending
        ≡ objects_in (objects.old.pending ++ batch.now)) }
{
    for i in 0..batch.len() {
        let (kind, content) = &batch[i];
        objects.stage(alloc, names[i], *kind, content.as_slice())?;
    }
    Ok(())
}

impl Slice {
    /// An empty slice of this repository. It takes no memory.
    pub fn new(alloc: Global, rid: &Rid) -> Slice
        ensures objects { (oid : Oid) → objects_of result oid ≡ None }
        ensures state { state_of result ≡ record { rid = rid.now; id = None; remotes = [] } }
        ensures none { HasNothingStaged result }
    {
        Slice {
            objects: MemObjects::new(alloc),
            state: State {
                rid: *rid,
                id: None,
                remotes: Remotes::new(alloc),
            },
            next: None,
        }
    }

    /// The repository.
    pub fn rid(&self) -> &Rid
        ensures { result.now ≡ (state_of self.now).rid }
    {
        &self.state.rid
    }

    /// The identity commit, if there is one.
    pub fn id(&self) -> Option<Oid>
        ensures { result ≡ (state_of self.now).id }
    {
        self.state.id
    }

    /// The commit of a node, if it has a remote.
    pub fn remote(&self, node: &Nid) -> Option<Oid>
        ensures { result ≡ commit_of (state_of self.now).remotes node.now }
    {
        self.state.remotes.get(node)
    }

    /// Each remote's key with its commit.
    pub fn remotes(&self) -> &Remotes
        ensures { result.now ≡ (state_of self.now).remotes }
    {
        &self.state.remotes
    }

    /// How many objects there are.
    pub fn count(&self) -> u64
        ensures { result ≡ length self.now.objects.objects }
    {
        self.objects.len() as u64
    }

    /// The refs that a node's commit says. Of a slice that is good under some keyring, None exactly
    /// where the node has no remote. `GetFault` is want of memory.
    pub fn refs_of(&self, alloc: Global, node: &Nid) -> Result<Option<Refs>, GetFault>
        ensures told { (keyring : Contents)
            → IsGood (objects_of self.now) keyring (state_of self.now)
            → IfOk result (AreRefsOf (objects_of self.now) (state_of self.now) node.now) }
        ensures fault { IfErr result (λ why. why ≡ GetFault.NoMemory) }
    {
        let Some(commit) = self.state.remotes.get(node) else {
            return Ok(None);
        };
        let mut objects = self;
        refs_said(alloc, &mut objects, &commit)
    }

    /// The canonical head of a slice that is good under this keyring. None exactly without an
    /// identity. `GetFault` is want of memory.
    pub fn head(&self, alloc: Global, keyring: &Keyring) -> Result<Option<Head>, GetFault>
        ensures told { IsGood (objects_of self.now) keyring.now (state_of self.now)
            → IfOk result (IsHeadOf (objects_of self.now) keyring.now (state_of self.now)) }
        ensures fault { IfErr result (λ why. why ≡ GetFault.NoMemory) }
    {
        let mut objects = self;
        head_over(alloc, &mut objects, &self.state, keyring)
    }

    // Takes the memory of the remotes that stand behind an install.
    fn stage_install(&mut self, alloc: Global, id: Oid, remotes: &Remotes) -> Result<(), NoMemory>
        ensures there { self.new.objects ≡ self.old.objects }
        ensures state { self.new.state ≡ self.old.state }
        ensures staged { OnOk result
            (IsInstalled self.old.state id remotes.now (pending_state self.new)) }
        ensures next { OnOk result (IsSome self.new.next) }
        ensures same { OnErr result (self.new ≡ self.old) }
    {
        let remotes = merged(alloc, &self.state.remotes, remotes)?;
        self.next = Some(Next { id, remotes });
        Ok(())
    }

    // Takes the memory that an entry needs, where nothing is staged.
    fn stage_entry(&mut self, alloc: Global, entry: &Entry, batch: &Batch) -> Result<(), NoMemory>
        requires entry { IsEntryFor (state_of self.old).rid entry.now batch.now }
        requires none { HasNothingStaged self.old }
        ensures there { objects_of self.new ≡ objects_of self.old }
        ensures state { state_of self.new ≡ state_of self.old }
        ensures staged { OnOk result (Stages self.old entry.now batch.now self.new) }
        ensures ready { OnOk result (IsReady self.new entry.now) }
        ensures certain { OnOk result (IsCertain self.new entry.now) }
    {
        match entry {
            Entry::Put { names, .. } => {
                let objects = &mut self.objects;
                stage_all(alloc, objects, names.as_slice(), batch.as_slice())
            }
            Entry::Install { id, remotes, .. } => self.stage_install(alloc, *id, remotes),
            _ => Ok(()),
        }
    }

    /// Takes all the memory that admitting an entry needs: a put of the objects of the batch into
    /// this repository, with their names in order, or an install of it, with an empty batch. What
    /// the slice has stays as it was, and what was staged before is dropped. After `NoMemory`
    /// nothing is staged.
    pub fn stage(&mut self, alloc: Global, entry: &Entry, batch: &Batch) -> Result<(), NoMemory>
        requires { IsEntryFor (state_of self.old).rid entry.now batch.now }
        ensures there { objects_of self.new ≡ objects_of self.old }
        ensures state { state_of self.new ≡ state_of self.old }
        ensures staged { OnOk result (Stages self.old entry.now batch.now self.new) }
        ensures ready { OnOk result (IsReady self.new entry.now) }
        ensures certain { OnOk result (IsCertain self.new entry.now) }
        ensures none { OnErr result (HasNothingStaged self.new) }
    {
        self.unstage();
        match self.stage_entry(alloc, entry, batch) {
            Ok(()) => Ok(()),
            Err(NoMemory) => {
                self.unstage();
                Err(NoMemory)
            }
        }
    }

    /// Lets go of what is staged. It takes no memory.
    pub fn unstage(&mut self)
        ensures there { self.new.objects.objects ≡ self.old.objects.objects }
        ensures pending { self.new.objects.pending ≡ self.new.objects.objects }
        ensures state { state_of self.new ≡ state_of self.old }
        ensures none { HasNothingStaged self.new }
    {
        self.objects.unstage();
        self.next = None;
    }

    // Lets the staged install stand; where none is staged, takes its memory first.
    fn install(&mut self, alloc: Global, id: Oid, remotes: &Remotes) -> Result<(), NoMemory>
        requires { (self.old.next ≡ None)
            ⊎ IsInstalled self.old.state id remotes.now (pending_state self.old) }
        ensures there { self.new.objects ≡ self.old.objects }
        ensures state { OnOk result
            (IsInstalled self.old.state id remotes.now self.new.state × (self.new.next ≡ None)) }
        ensures same { OnErr result (self.new ≡ self.old) }
        ensures certain { IsSome self.old.next → IsOk result }
    {
        if self.next.is_none() {
            self.stage_install(alloc, id, remotes)?;
        }
        if let Some(next) = self.next.take() {
            self.state.id = Some(next.id);
            self.state.remotes = next.remotes;
        }
        Ok(())
    }

    /// Lets an entry of this repository stand: a put that is staged, or an install, beside which
    /// nothing else is staged. What is staged is admitted without memory, and nothing is staged
    /// then. `NoMemory` comes of an install alone that is not staged, and leaves the slice as it
    /// was.
    pub fn admit(&mut self, alloc: Global, entry: &Entry) -> Result<(), NoMemory>
        requires { IsReady self.old entry.now }
        ensures there { OnOk result (objects_of self.new ≡ pending_of self.old) }
        ensures state { OnOk result (Brings (state_of self.old) entry.now (state_of self.new)) }
        ensures none { OnOk result (HasNothingStaged self.new) }
        ensures same { OnErr result (self.new ≡ self.old) }
        ensures certain { IsCertain self.old entry.now → IsOk result }
    {
        match entry {
            Entry::Install { id, remotes, .. } => self.install(alloc, *id, remotes),
            _ => {
                self.objects.admit();
                Ok(())
            }
        }
    }
}

impl Objects for &Slice {
    ghost use Rattle.std.specs.Prelude.{None, Some};
    ghost use Rattle.commit_graph.specs.InMemory.{objects_are_named};
    ghost use Rattle.repo_slice.specs.Slices.{objects_of};

    ghost content = { λ slice. Some (objects_of slice.now) };

    ghost faults = { λ _. 0 };

    ghost looks = { λ _. 0 };

    ghost Beside = { Unit {0} };

    ghost beside = { λ _. tt };

    ghost places = { λ _ _. None };

    fn get(&mut self, oid: &Oid) -> Result<Option<(Kind, &[u8])>, GetFault> {
        let slice: &Slice = self;
        Ok(slice.objects.object(oid))
    }

    ghost named = { λ slice m e. objects_are_named slice.now.objects.objects m e };
}

/// Judges an offer on what the slice has, which stays: its objects were put before. The slice is
/// good under this keyring. A whole refusal is an answer; `GetFault` is want of memory.
pub fn judge(
    alloc: Global,
    slice: &mut Slice,
    offer: &Offer,
    keyring: &Keyring,
    scope: &Scope,
) -> Result<Result<Judged, Whole>, GetFault>
    requires { length (state_of slice.old).remotes ≤ 1024 }
    ensures told { IsGood (objects_of slice.old) keyring.now (state_of slice.old)
        → IfOk result (IsVerdict (objects_of slice.old) keyring.now (state_of slice.old)
        offer.now scope.now) }
    ensures checked { IfOk result (λ verdict. IfErr verdict IsChecked) }
    ensures stays { slice.new ≡ slice.old }
    ensures fault { IfErr result (λ why. why ≡ GetFault.NoMemory) }
{
    let slice: &Slice = slice;
    let mut objects = slice;
    judge_over(alloc, &mut objects, &slice.state, offer, keyring, scope)
}

/// Which of the offered remotes a job asks for at a stage: on the slice as it is then, which stays.
/// Their keys rise. The slice is good under this keyring. `GetFault` is want of memory.
pub fn wants(
    alloc: Global,
    slice: &mut Slice,
    offer: &Offer,
    keyring: &Keyring,
    scope: &Scope,
    stage: Stage,
) -> Result<Nids, GetFault>
    ensures told { IsGood (objects_of slice.old) keyring.now (state_of slice.old)
        → IfOk result (IsWantedList (objects_of slice.old) keyring.now (state_of slice.old)
        offer.now scope.now stage) }
    ensures among { IfOk result (AreAmong offer.now.remotes) }
    ensures stays { slice.new ≡ slice.old }
    ensures fault { IfErr result (λ why. why ≡ GetFault.NoMemory) }
{
    let slice: &Slice = slice;
    let mut objects = slice;
    let state = &slice.state;
    wants_over(alloc, &mut objects, state, offer, keyring, scope, stage)
}
