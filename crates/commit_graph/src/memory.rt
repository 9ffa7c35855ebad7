// Objects in memory.
use crate::{GetFault, Objects};
use git_object::{Kind, name_of};
use rad_base::{NoMemory, Oid};
use std::alloc::Global;
use std::collections::{BTreeMap, BTreeSet};
use std::marker::Model;

/// An object in memory.
#[derive(Drop)]
struct Held {
    kind: Kind,
    bytes: Vec<u8>,
}

/// Objects in memory, each under its name. Those whose names are staged have their memory, and are
/// there once they are admitted. Contracts see the objects that are there, and those that are there
/// once what is staged is admitted.
#[derive(Drop)]
pub struct MemObjects {
    held: BTreeMap<Oid, Held>,
    staged: BTreeSet<Oid>,
    /// How many are held and not staged.
    count: usize,
}

impl Model for MemObjects {
    ghost use Rattle.commit_graph.specs.InMemory.{Holding};
    ghost use Rattle.commit_graph.specs.Memory.{IsHolding, holding_of};

    ghost Value = { Holding };

    ghost view = { holding_of };

    ghost invariant = { IsHolding };
}

impl MemObjects {
    ghost use Rattle.std.specs.Prelude.{◌≡◌, ◌∷◌, ◌++◌, [], IfOk, OnOk, OnErr, length};
    ghost use Rattle.git_object.specs.Names.{name};
    ghost use Rattle.commit_graph.specs.InMemory.{objects_in};
    ghost use Rattle.commit_graph.specs.Objects.{IsFoundAs, shown};

    /// No object. It takes no memory.
    pub fn new(alloc: Global) -> Self
        ensures there { result.objects ≡ [] }
        ensures pending { result.pending ≡ [] }
    {
        MemObjects {
            held: BTreeMap::new(alloc),
            staged: BTreeSet::new(alloc),
            count: 0,
        }
    }

    /// How many objects are there.
    pub fn len(&self) -> usize
        ensures { result ≡ length self.now.objects }
    {
        self.count
    }

    /// The kind and the content of the object of a name, lent; `None` where there is none.
    pub fn object(&self, oid: &Oid) -> Option<(Kind, &[u8])>
        ensures found { shown result ≡ objects_in self.now.objects oid.now }
        ensures named { IsFoundAs oid.now result }
    {
        if self.staged.contains(oid) {
            return None;
        }
        match self.held.get(oid) {
            None => None,
            Some(held) => Some((held.kind, held.bytes.as_slice())),
        }
    }

    /// Takes the memory of one object more, which is there once it is admitted. A name that is held
    /// keeps its object. `NoMemory` leaves all as it was.
    pub fn stage(
        &mut self,
        alloc: Global,
        oid: Oid,
        kind: Kind,
        bytes: &[u8],
    ) -> Result<(), NoMemory>
        requires { oid ≡ name kind bytes.now }
        ensures there { self.new.objects ≡ self.old.objects }
        ensures pending { OnOk result (objects_in self.new.pending
            ≡ objects_in (self.old.pending ++ (kind, bytes.now) ∷ [])) }
        ensures refused { OnErr result (self.new.pending ≡ self.old.pending) }
    {
        if self.held.contains_key(&oid) {
            return Ok(());
        }
        let bytes = bytes.to_vec(alloc)?;
        self.staged.insert(oid)?;
        match self.held.insert(oid, Held { kind, bytes }) {
            Ok(_) => Ok(()),
            Err(_) => {
                self.staged.remove(&oid);
                Err(NoMemory)
            }
        }
    }

    /// Lets what is staged be there. It takes no memory.
    pub fn admit(&mut self)
        ensures there { self.new.objects ≡ self.old.pending }
        ensures pending { self.new.pending ≡ self.old.pending }
    {
        self.staged.clear();
        self.count = self.held.len();
    }

    /// Lets go of what is staged. It takes no memory.
    pub fn unstage(&mut self)
        ensures there { self.new.objects ≡ self.old.objects }
        ensures pending { self.new.pending ≡ self.new.objects }
    {
        while let Some(oid) = self.staged.pop_first() {
            self.held.remove(&oid);
        }
    }

    /// Adds an object under its name, which is the answer, and admits what is staged. A name that
    /// is held keeps its object. `NoMemory` leaves all as it was.
    pub fn put(&mut self, alloc: Global, kind: Kind, bytes: &[u8]) -> Result<Oid, NoMemory>
        ensures name { IfOk result (λ oid. oid ≡ name kind bytes.now) }
        ensures there { OnOk result (objects_in self.new.objects
            ≡ objects_in (self.old.pending ++ (kind, bytes.now) ∷ [])) }
        ensures pending { OnOk result (self.new.pending ≡ self.new.objects) }
        ensures refused { OnErr result (self.new ≡ self.old) }
    {
        let oid = name_of(kind, bytes);
        self.stage(alloc, oid, kind, bytes)?;
        self.admit();
        Ok(oid)
    }
}

impl Objects for MemObjects {
    ghost use Rattle.std.specs.Prelude.{None, Some};
    ghost use Rattle.commit_graph.specs.InMemory.{objects_in, objects_are_named};

    ghost content = { λ store. Some (objects_in store.objects) };

    ghost faults = { λ _. 0 };

    ghost looks = { λ _. 0 };

    ghost Beside = { Unit {0} };

    ghost beside = { λ _. tt };

    ghost places = { λ _ _. None };

    fn get(&mut self, oid: &Oid) -> Result<Option<(Kind, &[u8])>, GetFault> {
        Ok(self.object(oid))
    }

    ghost named = { λ store m e. objects_are_named store.objects m e };
}

impl Objects for &MemObjects {
    ghost use Rattle.std.specs.Prelude.{None, Some};
    ghost use Rattle.commit_graph.specs.InMemory.{objects_in, objects_are_named};

    ghost content = { λ store. Some (objects_in store.now.objects) };

    ghost faults = { λ _. 0 };

    ghost looks = { λ _. 0 };

    ghost Beside = { Unit {0} };

    ghost beside = { λ _. tt };

    ghost places = { λ _ _. None };

    fn get(&mut self, oid: &Oid) -> Result<Option<(Kind, &[u8])>, GetFault> {
        let store: &MemObjects = self;
        Ok(store.object(oid))
    }

    ghost named = { λ store m e. objects_are_named store.now.objects m e };
}
