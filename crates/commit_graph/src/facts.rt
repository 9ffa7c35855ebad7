// What is known of the names that a walk looked up, each of them once.
ghost use Rattle.std.specs.Prelude.{◌≡◌, ◌≤◌, ◌+◌, IfOk, None};
ghost use Rattle.std.specs.Option.{ForSome};
ghost use Rattle.commit_graph.specs.Faults.{KeepsObjects};
ghost use Rattle.commit_graph.specs.Facts.{IsRead, IsTestedNew, ShowsFact, fact_in};

use crate::look::{Looked, read};
use crate::root::is_expected;
use crate::{GetFault, Objects, Root};
use git_object::{Kind, LinkTo};
use rad_base::{Oid, Steps};
use std::alloc::Global;
use std::collections::BTreeMap;
use std::mem;
use std::sync::ledger::Ledger;

/// What is known of a name that was looked up.
#[derive(Drop)]
pub(crate) enum Fact {
    Missing,
    Malformed,
    /// Its object is well formed and of this kind, and its links were taken.
    Taken(Kind),
    /// Its object is well formed and of this kind. The links are kept until they are taken.
    Waiting(Kind, Vec<LinkTo>),
}

// Looks up a name, which is one step. Its links are read into the list of the walk, which then
// waits with them.
fn look_up<O: Objects, L: Ledger>(
    alloc: Global,
    objects: &mut O,
    oid: Oid,
    links: &mut Vec<LinkTo>,
    steps: &mut Steps<L>,
) -> Result<Fact, GetFault>
    ensures told { ForSome (O.content objects.old) (λ m. IfOk result (IsRead m oid)) }
    ensures keeps { KeepsObjects O.content O.beside O.places O.faults Some objects.old objects.new
        result }
    ensures looked { O.looks objects.new ≤ O.looks objects.old + 1 }
    ensures cost { steps.new ≡ steps.old + 1 }
{
    steps.tick();
    match objects.get(&oid)? {
        None => Ok(Fact::Missing),
        Some((kind, bytes)) => {
            if !read(kind, bytes, links)? {
                return Ok(Fact::Malformed);
            }
            Ok(Fact::Waiting(kind, mem::replace(links, Vec::new(alloc))))
        }
    }
}

// What a pair shows by the fact of its name. One of the right kind takes the links that wait, whose
// list is that of the walk from then on.
fn shown_by<'a>(
    alloc: Global,
    fact: &mut Fact,
    pair: Root,
    links: &'a mut Vec<LinkTo>,
) -> Looked<'a>
    ensures { ShowsFact pair fact.old fact.new result }
{
    match fact {
        Fact::Missing => Looked::Missing,
        Fact::Malformed => Looked::Unfit,
        Fact::Taken(kind) => {
            if !is_expected(pair.kind, *kind) {
                return Looked::Unfit;
            }
            Looked::Fit(&[])
        }
        Fact::Waiting(kind, waiting) => {
            let kind = *kind;
            if !is_expected(pair.kind, kind) {
                return Looked::Unfit;
            }
            *links = mem::replace(waiting, Vec::new(alloc));
            *fact = Fact::Taken(kind);
            Looked::Fit(links)
        }
    }
}

/// What is known of the names that were looked up, with the links that wait.
#[derive(Drop)]
pub(crate) struct Facts {
    pub(crate) by_name: BTreeMap<Oid, Fact>,
}

impl Facts {
    pub(crate) fn new(alloc: Global) -> Self
        ensures { (oid : Oid) → fact_in result oid ≡ None }
    {
        Facts {
            by_name: BTreeMap::new(alloc),
        }
    }

    /// What a pair shows, with the links that are followed from it, in the list of the walk; a name
    /// gives its links once. It is looked up the first time, which is one step.
    pub(crate) fn test<'a, O: Objects, L: Ledger>(
        &mut self,
        alloc: Global,
        objects: &mut O,
        pair: Root,
        links: &'a mut Vec<LinkTo>,
        steps: &mut Steps<L>,
    ) -> Result<Looked<'a>, GetFault>
        ensures told { ForSome (O.content objects.old) (λ m. IfOk result
            (λ looked. IsTestedNew m pair self.old self.new looked steps.old steps.new)) }
        ensures keeps { KeepsObjects O.content O.beside O.places O.faults Some objects.old
            objects.new result }
        ensures looked { O.looks objects.new + steps.old ≤ O.looks objects.old + steps.new }
        ensures cost { steps.new ≤ steps.old + 1 }
        ensures counted { steps.old ≤ steps.new }
    {
        if let Some(fact) = self.by_name.get_mut(&pair.oid) {
            return Ok(shown_by(alloc, fact, pair, links));
        }
        let mut fact = look_up(alloc, objects, pair.oid, links, steps)?;
        let looked = shown_by(alloc, &mut fact, pair, links);
        self.by_name.insert(pair.oid, fact)?;
        Ok(looked)
    }
}
