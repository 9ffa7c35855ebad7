// Commits with their numbers.
ghost use Rattle.std.specs.Prelude.{◌≡◌, ◌<◌, ◌^◌, [], length, slice_get, OnOk, OnErr, IfOk, Some};
ghost use Rattle.rad_base.specs.Lists.{AllDiffer};
ghost use Rattle.commit_graph.specs.Lists.{Adds};
ghost use Rattle.canonical_head.specs.Ancestries.{IsNumberedAs};

use rad_base::Oid;
use std::alloc::{AllocError, Global};
use std::collections::BTreeMap;
use std::marker::Model;

/// Commits, each with a number, from 0 in the order of coming. Contracts see it as their list.
#[derive(Drop)]
pub(crate) struct Numbered {
    numbers: BTreeMap<Oid, usize>,
    commits: Vec<Oid>,
}

impl Model for Numbered {
    ghost use Rattle.std.specs.Prelude.{List};
    ghost use Rattle.rad_base.specs.declared.names.Oid.{Oid};
    ghost use Rattle.canonical_head.specs.Numbers.{IsNumbered};

    ghost Value = { List Oid };

    ghost view = { λ v. v.commits.items };

    ghost invariant = { λ v. IsNumbered v.numbers v.commits.items };
}

impl Numbered {
    pub(crate) fn new(alloc: Global) -> Self
        ensures { result ≡ [] }
    {
        Numbered {
            numbers: BTreeMap::new(alloc),
            commits: Vec::new(alloc),
        }
    }

    pub(crate) fn len(&self) -> usize
        ensures counted { result ≡ length self.now }
        ensures differ { AllDiffer self.now }
    {
        self.commits.len()
    }

    pub(crate) fn at(&self, number: usize) -> Oid
        requires { number < length self.now }
        ensures { slice_get self.now number ≡ Some result }
    {
        self.commits[number]
    }

    /// The number of a commit, which is added at the end unless it is there.
    pub(crate) fn number(&mut self, oid: Oid) -> Result<usize, AllocError>
        ensures number { IfOk result (λ number. slice_get self.new number ≡ Some oid) }
        ensures ok { OnOk result (Adds self.old oid self.new) }
        ensures err { OnErr result (self.new ≡ self.old) }
        ensures few { length self.new < 2 ^ 64 }
    {
        let number = self.commits.len();
        if let Some(old) = self.numbers.insert(oid, number)? {
            // It was there, so its number stays.
            let _ = self.numbers.insert(oid, old);
            return Ok(old);
        }
        match self.commits.push(oid) {
            Ok(()) => Ok(number),
            Err(_) => {
                self.numbers.remove(&oid);
                Err(AllocError)
            }
        }
    }

    /// The numbers of some commits, in their order; those that are not there are added at the end.
    pub(crate) fn number_all(
        &mut self,
        alloc: Global,
        oids: &[Oid],
    ) -> Result<Vec<usize>, AllocError>
        ensures { IfOk result (λ row. IsNumberedAs self.old oids.now self.new row.items) }
    {
        let mut row = Vec::new(alloc);
        for oid in oids {
            row.push(self.number(*oid)?)?;
        }
        Ok(row)
    }

    /// The commits, in their order.
    pub(crate) fn into_vec(self) -> Vec<Oid>
        ensures { result.items ≡ self }
    {
        self.commits
    }
}
