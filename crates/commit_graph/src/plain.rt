// A plain and slow closure, over lists without marks.
ghost use Rattle.std.specs.Prelude.{◌≡◌, ◌<◌, ◌↔◌, IfOk, OnOk, Some, Contains, length, slice_get};
ghost use Rattle.std.specs.Prelude.{map};
ghost use Rattle.std.specs.Option.{ForSome};
ghost use Rattle.commit_graph.specs.Faults.{KeepsObjects};
ghost use Rattle.commit_graph.specs.Lists.{Adds, Extends, Follows};
ghost use Rattle.commit_graph.specs.Pairs.{IsLink, pair_of};
ghost use Rattle.commit_graph.specs.Closures.{IsClosure, IsReached};

use crate::answer::Closure;
use crate::closing::{answer, lesser};
use crate::look::{Looked, look};
use crate::root::pair_of;
use crate::{GetFault, Objects, Root};
use git_object::LinkTo;
use std::alloc::{AllocError, Global};

// Adds a pair that the list lacks.
fn add_pair(list: &mut Vec<Root>, pair: Root) -> Result<(), AllocError>
    ensures { OnOk result (Adds list.old.items pair list.new.items) }
{
    if !list.contains(&pair) {
        list.push(pair)?;
    }
    Ok(())
}

// Adds those of the links that the list lacks.
fn add_links(list: &mut Vec<Root>, links: &[LinkTo]) -> Result<(), AllocError>
    ensures { OnOk result (Extends list.old.items (map pair_of links.now) list.new.items) }
{
    for link in links {
        add_pair(list, pair_of(*link))?;
    }
    Ok(())
}

// Looks up a pair of the list, and adds those of its links that the list lacks.
fn add_links_of<O: Objects>(
    objects: &mut O,
    list: &mut Vec<Root>,
    pair: Root,
    buffer: &mut Vec<LinkTo>,
) -> Result<(), GetFault>
    ensures told { ForSome (O.content objects.old)
        (λ m. OnOk result (Follows (IsLink m) pair list.old.items list.new.items)) }
    ensures keeps { KeepsObjects O.content O.beside O.places O.faults Some objects.old objects.new
        result }
{
    match look(objects, pair, buffer)? {
        Looked::Fit(links) => Ok(add_links(list, links)?),
        Looked::Missing | Looked::Unfit => Ok(()),
    }
}

pub(crate) fn pair_at(list: &[Root], i: usize) -> Root
    requires { i < length list.now }
    ensures { slice_get list.now i ≡ Some result }
{
    list[i]
}

// The pairs that are reached.
fn reached_pairs<O: Objects>(
    alloc: Global,
    objects: &mut O,
    roots: &[Root],
) -> Result<Vec<Root>, GetFault>
    ensures told { ForSome (O.content objects.old) (λ m. IfOk result (λ list. (pair : Root)
        → Contains list.items pair ↔ IsReached m roots.now pair)) }
    ensures keeps { KeepsObjects O.content O.beside O.places O.faults Some objects.old objects.new
        result }
{
    let mut list = Vec::from_slice(alloc, roots)?;
    let mut buffer = Vec::new(alloc);
    let mut i = 0;
    while i < list.len() {
        let pair = pair_at(&list, i);
        add_links_of(objects, &mut list, pair, &mut buffer)?;
        i += 1;
    }
    Ok(list)
}

/// What `closure` answers, by plain lists, in time of the square of the number of pairs: the pairs
/// that are reached first, and then the least names among them. `Err` is the fault of a look-up, or
/// `NoMemory`.
pub fn closure_by_lists<O: Objects>(
    alloc: Global,
    objects: &mut O,
    roots: &[Root],
) -> Result<Closure, GetFault>
    ensures told { ForSome (O.content objects.old) (λ m. IfOk result (IsClosure m roots.now)) }
    ensures keeps { KeepsObjects O.content O.beside O.places O.faults Some objects.old objects.new
        result }
{
    let pairs = reached_pairs(alloc, objects, roots)?;
    let mut missing = None;
    let mut unfit = None;
    let mut buffer = Vec::new(alloc);
    for pair in &pairs {
        match look(objects, *pair, &mut buffer)? {
            Looked::Missing => missing = Some(lesser(missing, pair.oid)),
            Looked::Unfit => unfit = Some(lesser(unfit, pair.oid)),
            Looked::Fit(_) => {}
        }
    }
    Ok(answer(missing, unfit))
}
