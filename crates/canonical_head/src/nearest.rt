// The nearest tips in the histories of tips.
ghost use Rattle.std.specs.Prelude.{ℕ, ◌<◌, ◌↔◌, length, Contains, IfOk};
ghost use Rattle.canonical_head.specs.Ancestries.{IsWellNumbered, LeadAlike};

use crate::adjacency::Adjacency;
use crate::ancestry::Ancestry;
use crate::search::{Marked, search};
use std::alloc::{AllocError, Global};

// The numbers below a limit that were found.
fn found_below(alloc: Global, marked: &Marked, limit: usize) -> Result<Vec<usize>, AllocError>
    ensures { IfOk result (λ list. (number : ℕ) → Contains list.items number
        ↔ ((number < limit) × Contains marked.now.found number)) }
{
    let mut list = Vec::new(alloc);
    for number in 0..limit {
        if marked.contains(number) {
            list.push(number)?;
        }
    }
    Ok(list)
}

/// For each tip the tips to which parents lead from it with no tip between. Over all of them these
/// lead to the same tips as the parents do.
pub(crate) fn nearest_tips(alloc: Global, ancestry: &Ancestry) -> Result<Adjacency, AllocError>
    requires { IsWellNumbered ancestry.now }
    ensures { IfOk result
        (LeadAlike ancestry.now.parents (length ancestry.now.tips.items)) }
{
    let count = ancestry.tips.len();
    let mut nearest = Adjacency::new(alloc);
    for number in 0..count {
        let marked = search(alloc, &ancestry.parents, number, count)?;
        let list = found_below(alloc, &marked, count)?;
        nearest.push(&list)?;
    }
    Ok(nearest)
}
