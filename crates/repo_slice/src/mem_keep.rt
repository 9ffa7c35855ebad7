// A keep in memory, one call of which fails.
ghost use Rattle.std.specs.Prelude.{◌≡◌, ◌≤◌, ◌∷◌, ◌++◌, [], None, IfOk, OnErr, OnOk, IsTrue};
ghost use Rattle.rad_base.specs.Faults.{Rose};
ghost use Rattle.repo_slice.specs.MemKeeps.{items_of, told_of};

use crate::{Batch, Judged, Keep, KeepFault, Scope, Stage, Whole};
use canonical_head::answer::Head;
use rad_base::{Nids, NoMemory, Offer, Oids, Rid};
use std::alloc::Global;

/// What a call of a keep in memory made.
#[derive(Drop)]
pub enum Made {
    /// A put of this batch.
    Put(Rid, Batch),
    /// An entry for a call that failed.
    Missed(Rid),
    /// The whole refusal of an offer.
    Refused(Rid, Whole),
}

/// A keep in memory for every repository, which notes what is put, asks for nothing and refuses
/// each offer. It tells no objects, and that the identity of each repository has the repository's
/// name. Behind so many puts each put meets a fault, for tests.
#[derive(Drop)]
pub struct MemKeep {
    made: Vec<Made>,
    calls_left: u64,
    faults: u64,
}

impl MemKeep {
    /// A keep whose puts fail behind so many.
    pub fn new(alloc: Global, calls: u64) -> Self
        ensures entries { items_of result ≡ [] }
    {
        MemKeep {
            made: Vec::new(alloc),
            calls_left: calls,
            faults: 0,
        }
    }

    /// What its calls made.
    pub fn made(&self) -> &[Made]
        ensures { result.now ≡ self.now.made.items }
    {
        &self.made
    }

    // Counts a fault and its missed entry.
    fn miss(&mut self, rid: &Rid) -> Result<(), NoMemory>
        ensures later { self.old.faults ≤ self.new.faults }
        ensures rose { OnOk result (Rose self.old.faults self.new.faults) }
        ensures ok { OnOk result (self.new.made.items ≡ self.old.made.items ++ Made.Missed rid.now ∷ []) }
        ensures err { OnErr result (self.new.made.items ≡ self.old.made.items) }
    {
        self.made.push(Made::Missed(*rid))?;
        self.faults = self.faults.saturating_add(1);
        Ok(())
    }

    // Adds what a call made.
    fn make(&mut self, made: Made) -> Result<(), NoMemory>
        ensures faults { self.new.faults ≡ self.old.faults }
        ensures ok { OnOk result (self.new.made.items ≡ self.old.made.items ++ made ∷ []) }
        ensures err { OnErr result (self.new.made.items ≡ self.old.made.items) }
    {
        self.made.push(made)?;
        Ok(())
    }
}

impl Keep for MemKeep {
    ghost use Rattle.std.specs.Prelude.{◌≡◌};
    ghost use Rattle.repo_slice.specs.MemKeeps.{constants_of, items_of, told_of};

    ghost Origin = { Unit {0} };

    ghost made = { λ keep origin before. before ≡ items_of keep };

    ghost held = { λ _ rid. told_of rid };

    ghost constants = { λ _. constants_of };

    ghost end = { λ _. 8 };

    ghost faults = { λ keep. keep.faults };

    ghost loan = { λ _. 0 };

    fn have(&mut self, rid: &Rid) -> Result<Oids, NoMemory> {
        let mut names = Oids::new(*self.made.allocator());
        names.push(rid.0)?;
        Ok(names)
    }

    fn wants(
        &mut self,
        _rid: &Rid,
        _offer: &Offer,
        _scope: &Scope,
        _stage: Stage,
    ) -> Result<Nids, KeepFault> {
        Ok(Nids::new(*self.made.allocator()))
    }

    fn put(&mut self, rid: &Rid, batch: &Batch) -> Result<(), KeepFault> {
        if self.calls_left == 0 {
            self.miss(rid)?;
            return Err(KeepFault::DiskFault);
        }
        self.calls_left -= 1;
        let copy = batch.copy(*self.made.allocator())?;
        self.make(Made::Put(*rid, copy))?;
        Ok(())
    }

    fn install(
        &mut self,
        rid: &Rid,
        _offer: &Offer,
        _scope: &Scope,
    ) -> Result<Result<Judged, Whole>, KeepFault> {
        self.make(Made::Refused(*rid, Whole::IdForked))?;
        Ok(Err(Whole::IdForked))
    }

    fn head(&mut self, _rid: &Rid) -> Result<Head, KeepFault> {
        Ok(Head::NoQuorum)
    }
}
