// A closure that does not walk again what is known to be closed.
ghost use Rattle.std.specs.Prelude.{◌≤◌, ◌+◌, ◌↔◌, Contains, IsTrue, IfOk, IfErr, OnOk};
ghost use Rattle.std.specs.Option.{ForSome};
ghost use Rattle.commit_graph.specs.Faults.{IsAskedFor, KeepsObjects};
ghost use Rattle.commit_graph.specs.Walks.{Reached};
ghost use Rattle.commit_graph.specs.Closures.{IsClosure};
ghost use Rattle.commit_graph.specs.Beyond.{AllClosed, IsLinkBeyond, GrowsBeyond, HasCostBeyond};
ghost use Rattle.commit_graph.specs.Beyond.{Leaves, TestsPairsOnce};
ghost use Rattle.commit_graph.specs.Facts.{IsAccepted, IsTested};

use crate::answer::Closure;
use crate::closing::{answer, lesser};
use crate::facts::Facts;
use crate::look::Looked;
use crate::reaching::add_names;
use crate::root::is_expected;
use crate::visited::Visited;
use crate::{GetFault, Objects, Root};
use git_object::LinkTo;
use rad_base::{Oid, Steps};
use std::alloc::Global;
use std::collections::BTreeSet;
use std::sync::ledger::Ledger;

// Whether a pair has an object, of the expected kind.
fn is_accepted<O: Objects>(objects: &mut O, pair: Root) -> Result<bool, GetFault>
    ensures told { ForSome (O.content objects.old)
        (λ m. IfOk result (λ is. IsTrue is ↔ IsAccepted m pair)) }
    ensures keeps { KeepsObjects O.content O.beside O.places O.faults Some objects.old objects.new
        result }
    ensures looked { O.looks objects.new ≤ O.looks objects.old + 1 }
    ensures asked { IfErr result (IsAskedFor pair.oid) }
{
    match objects.get(&pair.oid) {
        Err(fault) => Err(fault),
        Ok(None) => Ok(false),
        Ok(Some((kind, _))) => Ok(is_expected(pair.kind, kind)),
    }
}

/// Tests a pair, which is one step: what it shows, with the links that are followed from it, in the
/// list of the walk. A known name has none, and another gives its links once.
fn test_pair<'a, O: Objects, L: Ledger>(
    alloc: Global,
    objects: &mut O,
    known: &BTreeSet<Oid>,
    facts: &mut Facts,
    pair: Root,
    links: &'a mut Vec<LinkTo>,
    steps: &mut Steps<L>,
) -> Result<Looked<'a>, GetFault>
    ensures told { ForSome (O.content objects.old) (λ m. IfOk result
        (λ looked. IsTested m known.now pair facts.old facts.new looked steps.old steps.new)) }
    ensures keeps { KeepsObjects O.content O.beside O.places O.faults Some objects.old objects.new
        result }
    ensures looked { O.looks objects.new + steps.old ≤ O.looks objects.old + steps.new }
    ensures cost { steps.new ≤ steps.old + 2 }
    ensures counted { steps.old ≤ steps.new }
{
    steps.tick();
    if !known.contains(&pair.oid) {
        return facts.test(alloc, objects, pair, links, steps);
    }
    if is_accepted(objects, pair)? {
        Ok(Looked::Fit(&[]))
    } else {
        Ok(Looked::Unfit)
    }
}

/// What a walk comes to that stops at known names, with the pairs that it tested.
#[derive(Drop)]
struct Searched {
    answer: Closure,
    pairs: Visited,
}

fn search<O: Objects, L: Ledger>(
    alloc: Global,
    objects: &mut O,
    known: &BTreeSet<Oid>,
    roots: &[Root],
    steps: &mut Steps<L>,
) -> Result<Searched, GetFault>
    requires { ForSome (O.content objects.old) (λ m. AllClosed m known.now) }
    ensures told { ForSome (O.content objects.old)
        (λ m. IfOk result (λ s. IsClosure m roots.now s.answer)) }
    ensures reach { ForSome (O.content objects.old) (λ m. IfOk result (λ s. (pair : Root)
        → Contains s.pairs pair ↔ Reached (IsLinkBeyond m known.now) roots.now pair)) }
    ensures cost { ForSome (O.content objects.old)
        (λ m. HasCostBeyond m known.now roots.now steps.old steps.new) }
    ensures once { ForSome (O.content objects.old)
        (λ m. OnOk result (TestsPairsOnce m known.now roots.now steps.old steps.new)) }
    ensures keeps { KeepsObjects O.content O.beside O.places O.faults Some objects.old objects.new
        result }
    ensures looked { O.looks objects.new + steps.old ≤ O.looks objects.old + steps.new }
{
    let mut facts = Facts::new(alloc);
    let mut found = Visited::new(alloc);
    let mut buffer = Vec::new(alloc);
    found.extend(roots)?;
    let mut missing = None;
    let mut unfit = None;
    let mut i = 0;
    while i < found.len() {
        let pair = found.at(i);
        match test_pair(alloc, objects, known, &mut facts, pair, &mut buffer, steps)? {
            Looked::Missing => missing = Some(lesser(missing, pair.oid)),
            Looked::Unfit => unfit = Some(lesser(unfit, pair.oid)),
            Looked::Fit(links) => found.follow(links)?,
        }
        i += 1;
    }
    Ok(Searched {
        answer: answer(missing, unfit),
        pairs: found,
    })
}

/// Whether all that the roots reach is there, of its expected kind and well formed, as `closure`
/// tells it, with no walk over the names that are known to be closed, each as the kind of its
/// object.
///
/// At `Closed` the names that a walk from the roots reaches over no known name are known too; after
/// want of memory some of them may be; after any other answer the known names are as before.
///
/// A step is one look-up of an object or one test of a link, which at a known name includes the
/// look at its object's kind. Where the objects are told there are at most as many as the names
/// that are so reached and were not known, and the links of those of them whose objects are as
/// expected and well formed, and twice the roots. Each pair that is so reached is tested once: at
/// `Ok` there are at most as many steps as such names and such pairs.
///
/// `Err` is the fault of a look-up, or `NoMemory`.
pub fn closure_beyond<O: Objects, L: Ledger>(
    alloc: Global,
    objects: &mut O,
    known: &mut BTreeSet<Oid>,
    roots: &[Root],
    steps: &mut Steps<L>,
) -> Result<Closure, GetFault>
    requires { ForSome (O.content objects.old) (λ m. AllClosed m known.old) }
    ensures told { ForSome (O.content objects.old) (λ m. IfOk result (IsClosure m roots.now)) }
    ensures grown { ForSome (O.content objects.old)
        (λ m. IfOk result (GrowsBeyond m known.old roots.now known.new)) }
    ensures left { Leaves result known.old known.new }
    ensures closed { ForSome (O.content objects.old) (λ m. AllClosed m known.new) }
    ensures cost { ForSome (O.content objects.old)
        (λ m. HasCostBeyond m known.old roots.now steps.old steps.new) }
    ensures once { ForSome (O.content objects.old)
        (λ m. OnOk result (TestsPairsOnce m known.old roots.now steps.old steps.new)) }
    ensures keeps { KeepsObjects O.content O.beside O.places O.faults Some objects.old objects.new
        result }
    ensures looked { O.looks objects.new + steps.old ≤ O.looks objects.old + steps.new }
{
    let found = search(alloc, objects, known, roots, steps)?;
    if let Closure::Closed = found.answer {
        add_names(known, found.pairs.as_slice())?;
    }
    Ok(found.answer)
}
