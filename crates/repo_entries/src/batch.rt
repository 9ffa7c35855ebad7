// Objects that are put together.
ghost use Rattle.std.specs.Prelude.{◌≡◌, ◌∷◌, ◌++◌, [], length, IfOk, OnOk, OnErr};
ghost use Rattle.repo_entries.specs.Items.{names_of};

use git_object::{Kind, name_of};
use rad_base::{Bytes, NoMemory, Oids};
use std::alloc::Global;
use std::marker::Model;

/// Objects that are put together, in order. Contracts see it as the list of kinds and contents.
#[derive(Debug, Drop)]
pub struct Batch {
    items: Vec<(Kind, Bytes)>,
}

impl Model for Batch {
    ghost use Rattle.std.specs.Prelude.{List};
    ghost use Rattle.commit_graph.specs.Objects.{Object};

    ghost Value = { List Object };

    ghost view = { λ batch. batch.items.items };
}

impl Batch {
    /// No object. It takes no memory.
    pub fn new(alloc: Global) -> Self
        ensures { result ≡ [] }
    {
        Batch {
            items: Vec::new(alloc),
        }
    }

    /// Adds an object at the end. `NoMemory`: memory was refused, and the batch stays as it was.
    pub fn push(&mut self, kind: Kind, content: Bytes) -> Result<(), NoMemory>
        ensures ok { OnOk result (self.new ≡ self.old ++ (kind, content) ∷ []) }
        ensures err { OnErr result (self.new ≡ self.old) }
    {
        self.items.push((kind, content))?;
        Ok(())
    }

    /// How many objects there are.
    pub fn len(&self) -> usize
        ensures { result ≡ length self.now }
    {
        self.items.len()
    }

    /// The objects, in order.
    pub fn as_slice(&self) -> &[(Kind, Bytes)]
        ensures { result.now ≡ self.now }
    {
        &self.items
    }

    /// A copy. `NoMemory`: memory for it was refused.
    pub fn copy(&self, alloc: Global) -> Result<Batch, NoMemory>
        ensures { IfOk result (λ copy. copy ≡ self.now) }
    {
        let mut items = Vec::new(alloc);
        for (kind, content) in &self.items {
            let content = Bytes::copy_of(alloc, content.as_slice())?;
            items.push((*kind, content))?;
        }
        Ok(Batch { items })
    }

    /// The names of the objects, in order. `NoMemory`: memory for them was refused.
    pub fn names(&self, alloc: Global) -> Result<Oids, NoMemory>
        ensures { IfOk result (λ names. names ≡ names_of self.now) }
    {
        let mut names = Oids::new(alloc);
        for (kind, content) in &self.items {
            names.push(name_of(*kind, content.as_slice()))?;
        }
        Ok(names)
    }

    /// Lets all objects go.
    pub fn clear(&mut self)
        ensures { self.new ≡ [] }
    {
        self.items.clear();
    }
}
