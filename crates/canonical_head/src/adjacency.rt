// Lists of numbers, by number.
ghost use Rattle.std.specs.Prelude.{◌≡◌, ◌<◌, [], ◌∷◌, ◌++◌, length, slice_get, OnOk, OnErr, Some};

use std::alloc::{AllocError, Global};
use std::marker::Model;

/// Where a list begins, and where it ends, among the numbers of all lists.
#[derive(Clone, Copy, Debug)]
pub(crate) struct Span {
    from: usize,
    to: usize,
}

/// For each number, from 0, the list of those that it leads to. Contracts see it as these lists.
#[derive(Drop)]
pub(crate) struct Adjacency {
    /// The numbers of all lists, one after another.
    numbers: Vec<usize>,
    spans: Vec<Span>,
}

impl Model for Adjacency {
    ghost use Rattle.std.specs.Prelude.{ℕ, List, map};
    ghost use Rattle.canonical_head.specs.Spans.{AreSpans, part_of};

    ghost Value = { List (List ℕ) };

    ghost view = { λ v. map (part_of v.numbers.items) v.spans.items };

    ghost invariant = { λ v. AreSpans v.numbers.items v.spans.items };
}

impl Adjacency {
    pub(crate) fn new(alloc: Global) -> Self
        ensures { result ≡ [] }
    {
        Adjacency {
            numbers: Vec::new(alloc),
            spans: Vec::new(alloc),
        }
    }

    pub(crate) fn len(&self) -> usize
        ensures { result ≡ length self.now }
    {
        self.spans.len()
    }

    /// The list of a number.
    pub(crate) fn at(&self, number: usize) -> &[usize]
        requires { number < length self.now }
        ensures { slice_get self.now number ≡ Some result.now }
    {
        let span = self.spans[number];
        &self.numbers[span.from..span.to]
    }

    /// Adds the list of the next number.
    pub(crate) fn push(&mut self, list: &[usize]) -> Result<(), AllocError>
        ensures ok { OnOk result (self.new ≡ self.old ++ list.now ∷ []) }
        ensures err { OnErr result (self.new ≡ self.old) }
    {
        let from = self.numbers.len();
        self.numbers.extend_from_slice(list)?;
        let to = self.numbers.len();
        self.spans.push(Span { from, to })?;
        Ok(())
    }
}
