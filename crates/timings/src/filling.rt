// Slices that are filled with objects in batches.
ghost use Rattle.std.specs.Prelude.{◌≡◌};
ghost use Rattle.repo_entries.specs.Items.{names_of};

use git_object::{Kind, name_of};
use rad_base::{Bytes, NoMemory, Oid, Oids, Rid};
use repo_slice::{Batch, Entry, Slice};
use std::alloc::Global;
use std::mem;

/// How many objects a batch has at most.
pub const BATCH: u32 = 1024;

/// A batch, and the names of its objects.
#[derive(Drop)]
pub struct NamedBatch {
    names: Oids,
    batch: Batch,
    ghost named: { names ≡ names_of batch },
}

impl NamedBatch {
    /// The names of a batch, with it.
    pub fn of(alloc: Global, batch: Batch) -> Result<NamedBatch, NoMemory> {
        let names = batch.names(alloc)?;
        Ok(NamedBatch { names, batch })
    }

    /// Stages and admits the objects.
    pub fn put(self, alloc: Global, slice: &mut Slice) -> Result<(), NoMemory> {
        let NamedBatch { names, batch } = self;
        let entry = Entry::Put {
            rid: *slice.rid(),
            names,
            caller: 0,
        };
        slice.stage(alloc, &entry, &batch)?;
        slice.admit(alloc, &entry)
    }
}

/// A slice, and the objects that are put into it next.
#[derive(Drop)]
pub struct Filling {
    slice: Slice,
    batch: Batch,
}

impl Filling {
    /// An empty slice of this repository.
    pub fn new(alloc: Global, rid: &Rid) -> Filling {
        Filling {
            slice: Slice::new(alloc, rid),
            batch: Batch::new(alloc),
        }
    }

    /// Adds an object, and answers its name. It is put as soon as a batch is full.
    pub fn add(&mut self, alloc: Global, kind: Kind, content: Vec<u8>) -> Result<Oid, NoMemory> {
        let oid = name_of(kind, &content);
        self.batch.push(kind, Bytes::of(content))?;
        if self.batch.len() >= BATCH as usize {
            let batch = mem::replace(&mut self.batch, Batch::new(alloc));
            NamedBatch::of(alloc, batch)?.put(alloc, &mut self.slice)?;
        }
        Ok(oid)
    }

    /// The slice with all that was added.
    pub fn finish(self, alloc: Global) -> Result<Slice, NoMemory> {
        let Filling { mut slice, batch } = self;
        NamedBatch::of(alloc, batch)?.put(alloc, &mut slice)?;
        Ok(slice)
    }
}
