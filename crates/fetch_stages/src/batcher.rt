// Objects that come one after the other, put in batches.
ghost use Rattle.std.specs.Prelude.{◌≡◌, ◌↔◌, ◌≤◌, List, [], ◌∷◌, ◌++◌, length};
ghost use Rattle.std.specs.Prelude.{IfErr, IsTrue, OnErr, OnOk};
ghost use Rattle.git_object.specs.declared.kind.Kind.{Kind};
ghost use Rattle.commit_graph.specs.Objects.{Object};
ghost use Rattle.repo_entries.specs.Batches.{IsWithin};
ghost use Rattle.repo_entries.specs.Items.{put};
ghost use Rattle.repo_slice.specs.Keeps.{IsKeepCause, IsNoChange, LeavesOthers, StopsIn};
ghost use Rattle.fetch_stages.specs.Puts.{FindsPlace, Joins, PutsAll, PutsBatches, PutsForPlace};
ghost use Rattle.fetch_stages.specs.Puts.{StopsJoining, StopsPutting};

use git_object::Kind;
use rad_base::{Bytes, NoMemory, Rid};
use repo_slice::{Batch, Keep, KeepFault};
use std::alloc::Global;
use std::marker::Model;

/// The most objects of a batch.
const MOST_OBJECTS: usize = 1024;

/// The most content bytes of a batch of several objects.
const MOST_BYTES: u64 = 4_194_304;

/// The objects that wait for their batch to be put. Contracts see their list.
#[derive(Drop)]
pub struct Batcher {
    batch: Batch,
    bytes: u64,
}

impl Model for Batcher {
    ghost use Rattle.std.specs.Prelude.{List};
    ghost use Rattle.commit_graph.specs.Objects.{Object};
    ghost use Rattle.fetch_stages.specs.Waiting.{IsWaiting};

    ghost Value = { List Object };

    ghost view = { λ batcher. batcher.batch };

    ghost invariant = { λ batcher. IsWaiting batcher.batch batcher.bytes };
}

impl Batcher {
    /// No object waits.
    pub fn new(alloc: Global) -> Self
        ensures { result ≡ [] }
    {
        Batcher {
            batch: Batch::new(alloc),
            bytes: 0,
        }
    }

    // Whether no object waits.
    fn is_empty(&self) -> bool
        ensures { IsTrue result ↔ (self.now ≡ []) }
    {
        self.batch.len() == 0
    }

    // Whether an object finds its place behind others that wait.
    fn has_room(&self, content: &Bytes) -> bool
        ensures { (kind : Kind) → IsTrue result
            ↔ IsWithin (self.now ++ (kind, content.now) ∷ []) }
    {
        let size = content.as_slice().len() as u64;
        self.batch.len() < MOST_OBJECTS && size <= MOST_BYTES && self.bytes <= MOST_BYTES - size
    }

    // Puts the objects that wait, of which there are some.
    fn put<K: Keep>(&mut self, keep: &mut K, rid: &Rid) -> Result<(), KeepFault>
        requires stands { IsTrue ((K.constants keep.old).stands rid.now) }
        requires some { self.old ≡ [] → ⊥ }
        ensures leaves { LeavesOthers K.constants K.loan K.faults K.held rid.now keep.old keep.new }
        ensures empty { OnOk result (self.new ≡ []) }
        ensures entered { OnOk result (PutsBatches K.made K.held rid.now
            (K.constants keep.old).caller keep.old keep.new (self.old ∷ [])) }
        ensures stops { IfErr result (StopsIn K.made rid.now (K.constants keep.old).caller
            (K.end keep.new) keep.old keep.new
            (put rid.now self.old (K.constants keep.old).caller ∷ [])) }
        ensures cause { IfErr result (IsKeepCause (K.held keep.old rid.now).objects
            (K.faults keep.old) (K.faults keep.new)) }
        ensures unchanged { IfErr result IsNoChange }
    {
        keep.put(rid, &self.batch)?;
        self.batch.clear();
        self.bytes = 0;
        Ok(())
    }

    // Makes place for an object.
    fn make_place<K: Keep>(
        &mut self,
        keep: &mut K,
        rid: &Rid,
        kind: Kind,
        content: &Bytes,
    ) -> Result<(), KeepFault>
        requires stands { IsTrue ((K.constants keep.old).stands rid.now) }
        ensures leaves { LeavesOthers K.constants K.loan K.faults K.held rid.now keep.old keep.new }
        ensures place { OnOk result (PutsForPlace K.made K.held rid.now
            (K.constants keep.old).caller keep.old keep.new self.old (kind, content.now)
            self.new) }
        ensures full { IfErr result (λ _. FindsPlace self.old (kind, content.now) → ⊥) }
        ensures stops { IfErr result (StopsIn K.made rid.now (K.constants keep.old).caller
            (K.end keep.new) keep.old keep.new
            (put rid.now self.old (K.constants keep.old).caller ∷ [])) }
        ensures cause { IfErr result (IsKeepCause (K.held keep.old rid.now).objects
            (K.faults keep.old) (K.faults keep.new)) }
        ensures unchanged { IfErr result IsNoChange }
    {
        if self.is_empty() || self.has_room(content) {
            return Ok(());
        }
        self.put(keep, rid)?;
        Ok(())
    }

    // Adds an object that has its place.
    fn push(&mut self, kind: Kind, content: Bytes) -> Result<(), NoMemory>
        requires size { length content ≤ 33554432 }
        requires place { FindsPlace self.old (kind, content) }
        ensures ok { OnOk result (self.new ≡ self.old ++ (kind, content) ∷ []) }
        ensures err { OnErr result (self.new ≡ self.old) }
    {
        let size = content.as_slice().len() as u64;
        self.batch.push(kind, content)?;
        self.bytes += size;
        Ok(())
    }

    /// Adds an object. Where it does not fit into the batch that waits, this is put before. After
    /// a refusal nothing is claimed of what waits.
    pub fn add<K: Keep>(
        &mut self,
        keep: &mut K,
        rid: &Rid,
        kind: Kind,
        content: Bytes,
    ) -> Result<(), KeepFault>
        requires stands { IsTrue ((K.constants keep.old).stands rid.now) }
        requires size { length content ≤ 33554432 }
        ensures leaves { LeavesOthers K.constants K.loan K.faults K.held rid.now keep.old keep.new }
        ensures joins { OnOk result (Joins K.made K.held rid.now (K.constants keep.old).caller
            keep.old keep.new self.old ((kind, content) ∷ []) self.new) }
        ensures stops { IfErr result (StopsJoining K.made rid.now (K.constants keep.old).caller
            (K.end keep.new) keep.old keep.new self.old ((kind, content) ∷ [])) }
        ensures cause { IfErr result (IsKeepCause (K.held keep.old rid.now).objects
            (K.faults keep.old) (K.faults keep.new)) }
        ensures unchanged { IfErr result IsNoChange }
    {
        self.make_place(keep, rid, kind, &content)?;
        self.push(kind, content)?;
        Ok(())
    }

    /// Puts what waits, as no object follows.
    pub fn finish<K: Keep>(mut self, keep: &mut K, rid: &Rid) -> Result<(), KeepFault>
        requires stands { IsTrue ((K.constants keep.old).stands rid.now) }
        ensures leaves { LeavesOthers K.constants K.loan K.faults K.held rid.now keep.old keep.new }
        ensures puts { OnOk result (PutsAll K.made K.held rid.now (K.constants keep.old).caller
            keep.old keep.new self) }
        ensures stops { IfErr result (StopsPutting K.made rid.now (K.constants keep.old).caller
            (K.end keep.new) keep.old keep.new self) }
        ensures cause { IfErr result (IsKeepCause (K.held keep.old rid.now).objects
            (K.faults keep.old) (K.faults keep.new)) }
        ensures unchanged { IfErr result IsNoChange }
    {
        if self.is_empty() {
            return Ok(());
        }
        self.put(keep, rid)?;
        Ok(())
    }
}
