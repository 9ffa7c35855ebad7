// The roots that are asked.
ghost use Rattle.std.specs.Prelude.{◌≡◌, IfOk, OnOk, Some};
ghost use Rattle.std.specs.Option.{ForSome};
ghost use Rattle.commit_graph.specs.Faults.{KeepsObjects};
ghost use Rattle.commit_graph.specs.Objects.{ObjectMap};
ghost use Rattle.rad_base.specs.declared.names.Oid.{Oid as Name};
ghost use Rattle.fetch_serve.specs.Good.{any_kind, line_root};
ghost use Rattle.fetch_serve.specs.Parts.{Adds};
ghost use Rattle.fetch_serve.specs.Replies.{Among, IsAskedRoot, IsSigsRoot, IsTipsRoot};
ghost use Rattle.fetch_serve.specs.Showings.{showing};

use commit_graph::{GetFault, Objects, Root};
use fetch_wire::Request;
use git_object::Kind;
use rad_base::{Nid, NoMemory, Oid, Remotes};
use signed_refs::{Refs, refs_said};
use std::alloc::Global;

// Adds the commit of a node's remote.
fn add_commit(roots: &mut Vec<Root>, remotes: &Remotes, node: &Nid) -> Result<(), NoMemory>
    ensures { (m : ObjectMap) (id : Name) → OnOk result
        (Adds (IsSigsRoot (showing m id remotes.now) node.now) roots.old.items roots.new.items) }
{
    let Some(commit) = remotes.get(node) else {
        return Ok(());
    };
    roots.push(Root {
        oid: commit,
        kind: Some(Kind::Commit),
    })?;
    Ok(())
}

// Adds the commits of the nodes' remotes.
fn add_commits(roots: &mut Vec<Root>, remotes: &Remotes, nodes: &[Nid]) -> Result<(), NoMemory>
    ensures { (m : ObjectMap) (id : Name) → OnOk result
        (Adds (Among nodes.now (IsSigsRoot (showing m id remotes.now)))
        roots.old.items roots.new.items) }
{
    for node in nodes {
        add_commit(roots, remotes, node)?;
    }
    Ok(())
}

// Adds a name, of any kind.
fn add_name(roots: &mut Vec<Root>, oid: &Oid) -> Result<(), NoMemory>
    ensures { OnOk result (Adds (λ root. root ≡ any_kind oid.now)
        roots.old.items roots.new.items) }
{
    roots.push(Root {
        oid: *oid,
        kind: None,
    })?;
    Ok(())
}

// Adds what lines name, of any kind.
fn add_names(roots: &mut Vec<Root>, refs: &Refs) -> Result<(), NoMemory>
    ensures { OnOk result (Adds (Among refs.now (λ line root. root ≡ line_root line))
        roots.old.items roots.new.items) }
{
    for line in refs.as_slice() {
        add_name(roots, &line.1)?;
    }
    Ok(())
}

// Adds the names in the lines of a node's remote.
fn add_tips_of<O: Objects>(
    alloc: Global,
    objects: &mut O,
    roots: &mut Vec<Root>,
    remotes: &Remotes,
    node: &Nid,
) -> Result<(), GetFault>
    ensures told { ForSome (O.content objects.old) (λ m. (id : Name) → OnOk result
        (Adds (IsTipsRoot (showing m id remotes.now) node.now) roots.old.items roots.new.items)) }
    ensures keeps { KeepsObjects O.content O.beside O.places O.faults Some objects.old objects.new
        result }
{
    let Some(commit) = remotes.get(node) else {
        return Ok(());
    };
    let Some(refs) = refs_said(alloc, objects, &commit)? else {
        return Ok(());
    };
    add_names(roots, &refs)?;
    Ok(())
}

// Adds the names in the lines of the nodes' remotes.
fn add_tips<O: Objects>(
    alloc: Global,
    objects: &mut O,
    roots: &mut Vec<Root>,
    remotes: &Remotes,
    nodes: &[Nid],
) -> Result<(), GetFault>
    ensures told { ForSome (O.content objects.old) (λ m. (id : Name) → OnOk result
        (Adds (Among nodes.now (IsTipsRoot (showing m id remotes.now)))
        roots.old.items roots.new.items)) }
    ensures keeps { KeepsObjects O.content O.beside O.places O.faults Some objects.old objects.new
        result }
{
    for node in nodes {
        add_tips_of(alloc, objects, roots, remotes, node)?;
    }
    Ok(())
}

/// Adds the roots that a request asks.
pub(crate) fn add_asked<O: Objects>(
    alloc: Global,
    objects: &mut O,
    roots: &mut Vec<Root>,
    id: &Oid,
    remotes: &Remotes,
    request: &Request,
) -> Result<(), GetFault>
    ensures told { ForSome (O.content objects.old) (λ m. OnOk result
        (Adds (IsAskedRoot (showing m id.now remotes.now) request.now)
        roots.old.items roots.new.items)) }
    ensures keeps { KeepsObjects O.content O.beside O.places O.faults Some objects.old objects.new
        result }
{
    match request {
        Request::Begin(_, _) => roots.push(Root {
            oid: *id,
            kind: Some(Kind::Commit),
        })?,
        Request::Sigs(_, _, nodes) => add_commits(roots, remotes, nodes.as_slice())?,
        Request::Tips(_, _, nodes) => add_tips(alloc, objects, roots, remotes, nodes.as_slice())?,
        Request::Done => {}
    }
    Ok(())
}
