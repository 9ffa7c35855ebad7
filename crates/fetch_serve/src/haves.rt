// What haves stand for.
ghost use Rattle.std.specs.Prelude.{◌↔◌, IfOk, OnOk, IsTrue, Some};
ghost use Rattle.std.specs.Option.{ForSome};
ghost use Rattle.commit_graph.specs.Faults.{KeepsObjects};
ghost use Rattle.fetch_serve.specs.Parts.{Adds};
ghost use Rattle.fetch_serve.specs.Replies.{Among, Embeds, IsHeld, IsLineOf, IsThere, StandsFor};

use commit_graph::{GetFault, Objects, Root};
use git_object::Kind;
use rad_base::Oid;
use signed_refs::{Refs, refs_said};
use std::alloc::Global;
use tree_entry::commit_entry;

// Whether the name has an object.
fn has_object<O: Objects>(objects: &mut O, oid: &Oid) -> Result<bool, GetFault>
    ensures told { ForSome (O.content objects.old)
        (λ m. IfOk result (λ is. IsTrue is ↔ IsHeld m oid.now)) }
    ensures keeps { KeepsObjects O.content O.beside O.places O.faults Some objects.old objects.new
        result }
{
    match objects.get(oid) {
        Err(fault) => Err(fault),
        Ok(None) => Ok(false),
        Ok(Some(_)) => Ok(true),
    }
}

// Adds a name as a root of any kind, if it has an object.
fn add_there<O: Objects>(objects: &mut O, roots: &mut Vec<Root>, oid: &Oid) -> Result<(), GetFault>
    ensures told { ForSome (O.content objects.old)
        (λ m. OnOk result (Adds (IsThere m oid.now) roots.old.items roots.new.items)) }
    ensures keeps { KeepsObjects O.content O.beside O.places O.faults Some objects.old objects.new
        result }
{
    let is_there = has_object(objects, oid)?;
    if !is_there {
        return Ok(());
    }
    roots.push(Root {
        oid: *oid,
        kind: None,
    })?;
    Ok(())
}

// Adds what lines name, where it has an object.
fn add_lines<O: Objects>(
    objects: &mut O,
    roots: &mut Vec<Root>,
    refs: &Refs,
) -> Result<(), GetFault>
    ensures told { ForSome (O.content objects.old) (λ m. OnOk result
        (Adds (Among refs.now (λ line root. IsThere m line.1 root)) roots.old.items roots.new.items)) }
    ensures keeps { KeepsObjects O.content O.beside O.places O.faults Some objects.old objects.new
        result }
{
    for line in refs.as_slice() {
        add_there(objects, roots, &line.1)?;
    }
    Ok(())
}

// Whether the tree of a commit has a directory `embeds`.
fn embeds<O: Objects>(objects: &mut O, commit: &Oid) -> Result<bool, GetFault>
    ensures told { ForSome (O.content objects.old)
        (λ m. IfOk result (λ is. IsTrue is ↔ Embeds m commit.now)) }
    ensures keeps { KeepsObjects O.content O.beside O.places O.faults Some objects.old objects.new
        result }
{
    match commit_entry(objects, commit, Kind::Tree, b"embeds")? {
        Some(_) => Ok(true),
        None => Ok(false),
    }
}

// Adds what the lines of a have name.
fn add_lines_of<O: Objects>(
    alloc: Global,
    objects: &mut O,
    roots: &mut Vec<Root>,
    have: &Oid,
) -> Result<(), GetFault>
    ensures told { ForSome (O.content objects.old)
        (λ m. OnOk result (Adds (IsLineOf m have.now) roots.old.items roots.new.items)) }
    ensures keeps { KeepsObjects O.content O.beside O.places O.faults Some objects.old objects.new
        result }
{
    let embeds = embeds(objects, have)?;
    if embeds {
        return Ok(());
    }
    let Some(refs) = refs_said(alloc, objects, have)? else {
        return Ok(());
    };
    add_lines(objects, roots, &refs)?;
    Ok(())
}

// Adds what a have stands for.
fn add_have<O: Objects>(
    alloc: Global,
    objects: &mut O,
    roots: &mut Vec<Root>,
    have: &Oid,
) -> Result<(), GetFault>
    ensures told { ForSome (O.content objects.old)
        (λ m. OnOk result (Adds (StandsFor m have.now) roots.old.items roots.new.items)) }
    ensures keeps { KeepsObjects O.content O.beside O.places O.faults Some objects.old objects.new
        result }
{
    add_there(objects, roots, have)?;
    add_lines_of(alloc, objects, roots, have)?;
    Ok(())
}

/// Adds what the haves stand for.
pub(crate) fn add_haves<O: Objects>(
    alloc: Global,
    objects: &mut O,
    roots: &mut Vec<Root>,
    haves: &[Oid],
) -> Result<(), GetFault>
    ensures told { ForSome (O.content objects.old) (λ m. OnOk result
        (Adds (Among haves.now (StandsFor m)) roots.old.items roots.new.items)) }
    ensures keeps { KeepsObjects O.content O.beside O.places O.faults Some objects.old objects.new
        result }
{
    for have in haves {
        add_have(alloc, objects, roots, have)?;
    }
    Ok(())
}
