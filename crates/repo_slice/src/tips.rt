// The tips of branches that stored commits name.
ghost use Rattle.std.specs.Prelude.{◌≡◌, ◌∷◌, ◌++◌, [], ◌↔◌, IfOk, IsTrue, OnOk, Some};
ghost use Rattle.std.specs.Option.{ForSome};
ghost use Rattle.commit_graph.specs.Faults.{KeepsObjects};
ghost use Rattle.repo_slice.specs.Heads.{AreTips, FindsTip, FindsTipOf, IsCommitAt, if_some};

use commit_graph::{GetFault, Objects};
use git_object::Kind;
use rad_base::{Nid, NoMemory, Oid, Remotes};
use signed_refs::refs_said;
use std::alloc::Global;

// Whether the name has a commit.
fn is_commit<O: Objects>(objects: &mut O, oid: &Oid) -> Result<bool, GetFault>
    ensures told { ForSome (O.content objects.old)
        (λ m. IfOk result (λ is. IsTrue is ↔ IsCommitAt m oid.now)) }
    ensures keeps { KeepsObjects O.content O.beside O.places O.faults Some objects.old objects.new
        result }
{
    match objects.get(oid) {
        Err(fault) => Err(fault),
        Ok(Some((Kind::Commit, _))) => Ok(true),
        Ok(_) => Ok(false),
    }
}

// The commit that a signed commit names by a ref, if it does.
fn tip_in<O: Objects>(
    alloc: Global,
    objects: &mut O,
    commit: &Oid,
    name: &[u8],
) -> Result<Option<Oid>, GetFault>
    ensures told { ForSome (O.content objects.old)
        (λ m. IfOk result (FindsTip m commit.now name.now)) }
    ensures keeps { KeepsObjects O.content O.beside O.places O.faults Some objects.old objects.new
        result }
{
    let Some(refs) = refs_said(alloc, objects, commit)? else {
        return Ok(None);
    };
    let Some(oid) = refs.get(name) else {
        return Ok(None);
    };
    let found = is_commit(objects, &oid)?;
    if !found {
        return Ok(None);
    }
    Ok(Some(oid))
}

// The tip of a node, if it has one.
fn tip_of<O: Objects>(
    alloc: Global,
    objects: &mut O,
    remotes: &Remotes,
    name: &[u8],
    node: &Nid,
) -> Result<Option<Oid>, GetFault>
    ensures told { ForSome (O.content objects.old)
        (λ m. IfOk result (FindsTipOf m remotes.now name.now node.now)) }
    ensures keeps { KeepsObjects O.content O.beside O.places O.faults Some objects.old objects.new
        result }
{
    let Some(commit) = remotes.get(node) else {
        return Ok(None);
    };
    let tip = tip_in(alloc, objects, &commit, name)?;
    Ok(tip)
}

// Adds a tip, if there is one.
fn add(tips: &mut Vec<Oid>, tip: Option<Oid>) -> Result<(), NoMemory>
    ensures { OnOk result (tips.new.items ≡ tips.old.items ++ if_some tip) }
{
    if let Some(oid) = tip {
        tips.push(oid)?;
    }
    Ok(())
}

/// The tips of those of the nodes that have one, in order.
pub(crate) fn tips_of<O: Objects>(
    alloc: Global,
    objects: &mut O,
    remotes: &Remotes,
    name: &[u8],
    nodes: &[Nid],
) -> Result<Vec<Oid>, GetFault>
    ensures told { ForSome (O.content objects.old)
        (λ m. IfOk result (λ tips. AreTips m remotes.now name.now nodes.now tips.items)) }
    ensures keeps { KeepsObjects O.content O.beside O.places O.faults Some objects.old objects.new
        result }
{
    let mut tips = Vec::new(alloc);
    for node in nodes {
        let tip = tip_of(alloc, objects, remotes, name, node)?;
        add(&mut tips, tip)?;
    }
    Ok(tips)
}
