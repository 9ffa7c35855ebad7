// The closures of many roots at once.
ghost use Rattle.std.specs.Prelude.{◌≡◌, ◌≤◌, ◌+◌, List, length, IfOk};
ghost use Rattle.std.specs.Option.{ForSome};
ghost use Rattle.std.specs.BTreeSet.{IsOrdered};
ghost use Rattle.commit_graph.specs.declared.root.Root.{Root};
ghost use Rattle.commit_graph.specs.Faults.{KeepsObjects};
ghost use Rattle.commit_graph.specs.Closures.{CoversReached, IsClosure};
ghost use Rattle.commit_graph.specs.Objects.{ObjectMap};
ghost use Rattle.commit_graph.specs.PairOrder.{pair_cmp};
ghost use Rattle.commit_graph.specs.Marking.{AreMarks, RisesByName};
ghost use Rattle.commit_graph.specs.Many.{AreClosures};

use crate::answer::Closure;
use crate::backward::Backward;
use crate::closing::{answer, lesser};
use crate::marked::Marks;
use crate::web::walk;
use crate::{GetFault, Objects, Root};
use std::alloc::{AllocError, Global};
use std::collections::BTreeSet;

// The pairs of the set, rising.
fn pairs_of(alloc: Global, pairs: &BTreeSet<Root>) -> Result<Vec<Root>, AllocError>
    ensures keys { IfOk result (λ list. list.items ≡ pairs.now.keys) }
    ensures ordered { IsOrdered pair_cmp pairs.now }
{
    pairs.iter().copied().collect(alloc)
}

// Marks each pair that reaches one of the sources with the name of the first that it reaches.
fn marks_of(alloc: Global, back: &Backward, sources: &[Root]) -> Result<Marks, AllocError>
    requires { RisesByName sources.now }
    ensures { IfOk result (AreMarks back.now sources.now) }
{
    let mut marks = Marks::new(alloc);
    let mut i = 0;
    for source in sources {
        marks.add(*source, source.oid)?;
        while i < marks.len() {
            let pair = marks.at(i);
            marks.extend(back.before(pair), source.oid)?;
            i += 1;
        }
    }
    Ok(marks)
}

// Marks each pair that reaches one of the set with the least name that it reaches.
fn marks_to(alloc: Global, back: &Backward, pairs: &BTreeSet<Root>) -> Result<Marks, AllocError>
    ensures { IfOk result (AreMarks back.now pairs.now.keys) }
{
    let sources = pairs_of(alloc, pairs)?;
    marks_of(alloc, back, sources.as_slice())
}

/// The closure of each of the roots by itself, in order, as `closure` tells it. Each pair that any
/// of them reaches is looked up at most once. `Err` is the fault of a look-up, or `NoMemory`.
pub fn closures<O: Objects>(
    alloc: Global,
    objects: &mut O,
    roots: &[Root],
) -> Result<Vec<Closure>, GetFault>
    ensures told { ForSome (O.content objects.old)
        (λ m. IfOk result (λ answers. AreClosures m roots.now answers.items)) }
    ensures keeps { KeepsObjects O.content O.beside O.places O.faults Some objects.old objects.new
        result }
    ensures looked { ForSome (O.content objects.old) (λ m. (pairs : List Root)
        → CoversReached m roots.now pairs
        → O.looks objects.new ≤ O.looks objects.old + length pairs) }
{
    let web = walk(alloc, objects, roots)?;
    let missing = marks_to(alloc, &web.back, &web.missing)?;
    let unfit = marks_to(alloc, &web.back, &web.unfit)?;
    let mut answers = Vec::new(alloc);
    for root in roots {
        answers.push(answer(missing.mark(*root), unfit.mark(*root)))?;
    }
    Ok(answers)
}

/// The closure of a list of roots, from the closures of each of them.
pub fn joined(closures: &[Closure]) -> Closure
    ensures { (m : ObjectMap) (roots : List Root) → AreClosures m roots closures.now
        → IsClosure m roots result }
{
    let mut missing = None;
    let mut unfit = None;
    for closure in closures {
        match closure {
            Closure::Closed => {}
            Closure::Missing(oid) => missing = Some(lesser(missing, *oid)),
            Closure::BadObject(oid) => unfit = Some(lesser(unfit, *oid)),
        }
    }
    answer(missing, unfit)
}
