// Refs: names with an object each, the names strictly rising.
ghost use Rattle.std.specs.Prelude.{◌≡◌, ◌∷◌, ◌++◌, ◌↔◌, [], length, Contains, Some};
ghost use Rattle.std.specs.Prelude.{IsTrue, OnErr, OnOk};
ghost use Rattle.rad_base.specs.declared.names.Oid.{Oid};
ghost use Rattle.signed_refs.specs.Lines.{AreRising, IsAboveNames, order_of};

use rad_base::{NoMemory, Oid};
use ref_name::RefName;
use std::alloc::Global;
use std::cmp::Ordering;
use std::marker::Model;

/// Names of refs with the name of an object each, the refs' names strictly rising by their bytes.
/// Contracts see it as the list of pairs.
#[derive(Debug, Drop)]
pub struct Refs {
    items: Vec<(RefName, Oid)>,
}

impl Model for Refs {
    ghost use Rattle.std.specs.Prelude.{List};
    ghost use Rattle.signed_refs.specs.Lines.{AreRising, Line};

    ghost Value = { List Line };

    ghost view = { λ refs. refs.items.items };

    ghost invariant = { λ refs. AreRising refs.items.items };
}

impl Refs {
    /// No ref.
    pub fn new(alloc: Global) -> Self
        ensures { result ≡ [] }
    {
        Refs {
            items: Vec::new(alloc),
        }
    }

    /// These refs, in their vector. The names are strictly rising.
    pub fn of(items: Vec<(RefName, Oid)>) -> Self
        requires { AreRising items.items }
        ensures { result ≡ items.items }
    {
        Refs { items }
    }

    /// Adds a ref whose name is above those before it.
    pub fn push(&mut self, name: RefName, oid: Oid) -> Result<(), NoMemory>
        requires { IsAboveNames self.old name }
        ensures ok { OnOk result (self.new ≡ self.old ++ (name, oid) ∷ []) }
        ensures err { OnErr result (self.new ≡ self.old) }
    {
        self.items.push((name, oid))?;
        Ok(())
    }

    /// Whether a name is above those of the refs.
    pub fn is_below(&self, name: &[u8]) -> bool
        ensures { IsTrue result ↔ IsAboveNames self.now name.now }
    {
        match self.items.last() {
            None => true,
            Some((last, _)) => last.as_slice().cmp(name) == Ordering::Less,
        }
    }

    /// How many refs there are.
    pub fn len(&self) -> usize
        ensures { result ≡ length self.now }
    {
        self.items.len()
    }

    /// The object of the ref of this name. None where there is no such ref.
    pub fn get(&self, name: &[u8]) -> Option<Oid>
        ensures { (oid : Oid) → (result ≡ Some oid) ↔ Contains self.now (name.now, oid) }
    {
        match self.items.binary_search_by(
            |line: &(RefName, Oid)| -> Ordering
                ensures { result ≡ order_of name.entry.now line.now }
            { line.0.as_slice().cmp(name) },
        ) {
            Ok(at) => Some(self.items[at].1),
            Err(_) => None,
        }
    }

    /// The refs, their names strictly rising.
    pub fn as_slice(&self) -> &[(RefName, Oid)]
        ensures items { result.now ≡ self.now }
        ensures rising { AreRising self.now }
    {
        &self.items
    }

    /// Gives the vector back.
    pub fn into_vec(self) -> Vec<(RefName, Oid)>
        ensures items { result.items ≡ self }
        ensures rising { AreRising self }
    {
        self.items
    }
}
