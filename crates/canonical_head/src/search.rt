// Searches over numbers.
ghost use Rattle.std.specs.Prelude.{◌≡◌, ℕ, ◌<◌, ◌^◌, ◌↔◌, [], ◌∷◌, length, slice_get, Contains};
ghost use Rattle.std.specs.Prelude.{IsTrue, IfOk, OnOk, Some};
ghost use Rattle.commit_graph.specs.Lists.{Adds, Extends, Follows};
ghost use Rattle.commit_graph.specs.Walks.{Reached};
ghost use Rattle.canonical_head.specs.Ancestries.{GoesOn, IsInside, IsNextFrom};

use crate::adjacency::Adjacency;
use std::alloc::{AllocError, Global};
use std::marker::Model;

/// The numbers that a search has come to, each once, in the order of coming. Contracts see them,
/// and the limit that they are below.
#[derive(Drop)]
pub(crate) struct Marked {
    marks: Vec<bool>,
    queue: Vec<usize>,
}

impl Model for Marked {
    ghost use Rattle.std.specs.Prelude.{length};
    ghost use Rattle.canonical_head.specs.Marks.{Marking, IsMarking};

    ghost Value = { Marking };

    ghost view = { λ v. record { limit = length v.marks.items; found = v.queue.items } };

    ghost invariant = { λ v. IsMarking v.marks.items v.queue.items };
}

impl Marked {
    /// No number yet.
    pub(crate) fn new(alloc: Global, limit: usize) -> Result<Self, AllocError>
        ensures limit { IfOk result (λ marked. marked.limit ≡ limit) }
        ensures found { IfOk result (λ marked. marked.found ≡ []) }
    {
        let marks = vec![in alloc; false; limit]?;
        Ok(Marked {
            marks,
            queue: Vec::new(alloc),
        })
    }

    pub(crate) fn len(&self) -> usize
        ensures { result ≡ length self.now.found }
    {
        self.queue.len()
    }

    pub(crate) fn at(&self, i: usize) -> usize
        requires { i < length self.now.found }
        ensures at { slice_get self.now.found i ≡ Some result }
        ensures below { result < self.now.limit }
    {
        self.queue[i]
    }

    /// Adds a number at the end, unless it is there.
    pub(crate) fn add(&mut self, number: usize) -> Result<(), AllocError>
        requires { number < self.old.limit }
        ensures ok { OnOk result (Adds self.old.found number self.new.found) }
        ensures limit { self.new.limit ≡ self.old.limit }
        ensures few { length self.new.found < 2 ^ 64 }
    {
        if self.marks[number] {
            return Ok(());
        }
        self.queue.push(number)?;
        self.marks[number] = true;
        Ok(())
    }

    /// Adds those of the numbers that are not there yet, in order.
    pub(crate) fn extend(&mut self, numbers: &[usize]) -> Result<(), AllocError>
        requires { (number : ℕ) → Contains numbers.now number → number < self.old.limit }
        ensures ok { OnOk result (Extends self.old.found numbers.now self.new.found) }
        ensures limit { self.new.limit ≡ self.old.limit }
    {
        for number in numbers {
            self.add(*number)?;
        }
        Ok(())
    }

    pub(crate) fn contains(&self, number: usize) -> bool
        ensures { IsTrue result ↔ Contains self.now.found number }
    {
        number < self.marks.len() && self.marks[number]
    }
}

// Whether a search goes on from a number.
fn goes_on(start: usize, ends: usize, number: usize) -> bool
    ensures { IsTrue result ↔ GoesOn start ends number }
{
    number == start || ends <= number
}

// Goes on from a number, unless the search ends there.
fn follow(
    lists: &Adjacency,
    start: usize,
    ends: usize,
    marked: &mut Marked,
    number: usize,
) -> Result<(), AllocError>
    requires below { number < length lists.now }
    requires inside { IsInside lists.now }
    requires limit { marked.old.limit ≡ length lists.now }
    ensures ok { OnOk result (Follows (IsNextFrom lists.now start ends) number marked.old.found
        marked.new.found) }
    ensures limit { marked.new.limit ≡ marked.old.limit }
{
    if !goes_on(start, ends, number) {
        return Ok(());
    }
    marked.extend(lists.at(number))
}

/// The numbers to which the lists lead from one, itself included. Numbers below `ends` are found,
/// but none but the first is gone on from.
pub(crate) fn search(
    alloc: Global,
    lists: &Adjacency,
    start: usize,
    ends: usize,
) -> Result<Marked, AllocError>
    requires start { start < length lists.now }
    requires inside { IsInside lists.now }
    ensures { IfOk result (λ marked. (number : ℕ) → Contains marked.found number
        ↔ Reached (IsNextFrom lists.now start ends) (start ∷ []) number) }
{
    let mut marked = Marked::new(alloc, lists.len())?;
    marked.add(start)?;
    let mut i = 0;
    while i < marked.len() {
        let number = marked.at(i);
        follow(lists, start, ends, &mut marked, number)?;
        i += 1;
    }
    Ok(marked)
}
