// Sections: what is sent, and their bytes.
ghost use Rattle.std.specs.Prelude.{◌≡◌, ◌≤◌, IfOk, Some, filter, length};
ghost use Rattle.std.specs.Option.{ForSome};
ghost use Rattle.rad_base.specs.declared.names.Rid.{Rid};
ghost use Rattle.commit_graph.specs.Faults.{KeepsObjects};
ghost use Rattle.keyring.specs.Contents.{Contents};
ghost use Rattle.fetch_serve.specs.Good.{IsGood};
ghost use Rattle.fetch_serve.specs.Parts.{AreBeyond, HasNames, is_beyond};
ghost use Rattle.fetch_serve.specs.Replies.{IsSection, IsSentAs};
ghost use Rattle.fetch_serve.specs.Showings.{IsGoodFor, showing};

use crate::haves::add_haves;
use crate::parts::haves_of;
use crate::roots::add_asked;
use crate::writing::{push_head, push_objects};
use commit_graph::{GetFault, Objects, Root, reached};
use fetch_wire::Request;
use rad_base::{Oid, Remotes};
use std::alloc::{AllocError, Global};
use std::collections::BTreeSet;

// The names as a set.
fn set_of(alloc: Global, names: &[Oid]) -> Result<BTreeSet<Oid>, AllocError>
    ensures { IfOk result (λ set. HasNames set names.now) }
{
    let mut set = BTreeSet::new(alloc);
    for oid in names {
        set.insert(*oid)?;
    }
    Ok(set)
}

// The names that the set lacks, in order.
fn beyond(alloc: Global, names: &[Oid], had: &BTreeSet<Oid>) -> Result<Vec<Oid>, AllocError>
    ensures { IfOk result (λ list. list.items ≡ filter (is_beyond had.now) names.now) }
{
    names
        .iter()
        .filter(|oid| !had.contains(*oid))
        .copied()
        .collect(alloc)
}

// The names that are reached from the asked roots and from none of the others, rising.
fn names_beyond<O: Objects>(
    alloc: Global,
    objects: &mut O,
    asked: &[Root],
    had: &[Root],
) -> Result<Vec<Oid>, GetFault>
    ensures told { ForSome (O.content objects.old)
        (λ m. IfOk result (λ names. AreBeyond m asked.now had.now names.items)) }
    ensures keeps { KeepsObjects O.content O.beside O.places O.faults Some objects.old objects.new
        result }
{
    let wanted = reached(alloc, objects, asked)?;
    let known = reached(alloc, objects, had)?;
    let set = set_of(alloc, known.as_slice())?;
    let names = beyond(alloc, wanted.as_slice(), &set)?;
    Ok(names)
}

// The names of what is sent, rising.
fn sent_names<O: Objects>(
    alloc: Global,
    objects: &mut O,
    id: &Oid,
    remotes: &Remotes,
    request: &Request,
) -> Result<Vec<Oid>, GetFault>
    ensures told { ForSome (O.content objects.old) (λ m. IfOk result
        (λ names. IsSentAs (showing m id.now remotes.now) request.now names.items)) }
    ensures keeps { KeepsObjects O.content O.beside O.places O.faults Some objects.old objects.new
        result }
{
    let mut asked = Vec::new(alloc);
    add_asked(alloc, objects, &mut asked, id, remotes, request)?;
    let mut had = Vec::new(alloc);
    add_haves(alloc, objects, &mut had, haves_of(request))?;
    let names = names_beyond(alloc, objects, &asked, &had)?;
    Ok(names)
}

/// The section that a request asks.
pub(crate) fn section<O: Objects>(
    alloc: Global,
    objects: &mut O,
    id: &Oid,
    remotes: &Remotes,
    request: &Request,
) -> Result<Vec<u8>, GetFault>
    requires { length remotes.now ≤ 1024 }
    ensures told { ForSome (O.content objects.old) (λ m. (keyring : Contents) (rid : Rid)
        → IsGood (showing m id.now remotes.now) keyring rid
        → IfOk result (λ bytes. IsSection (showing m id.now remotes.now) request.now bytes.items)) }
    ensures keeps { KeepsObjects O.content O.beside O.places O.faults Some objects.old objects.new
        result }
{
    let names = sent_names(alloc, objects, id, remotes, request)?;
    let mut bytes = Vec::new(alloc);
    push_head(alloc, &mut bytes, id, remotes, request)?;
    push_objects(objects, &mut bytes, &names)?;
    bytes.extend_from_slice(b"end\n")?;
    Ok(bytes)
}
