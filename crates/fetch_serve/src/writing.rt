// Writing sections.
ghost use Rattle.std.specs.Prelude.{◌≡◌, ◌++◌, ℕ, ◌≤◌, IfOk, OnOk, Some, length};
ghost use Rattle.std.specs.Option.{ForSome};
ghost use Rattle.commit_graph.specs.Faults.{KeepsObjects};
ghost use Rattle.commit_graph.specs.Objects.{Object, ObjectMap};
ghost use Rattle.fetch_wire.specs.Sections.{IsCode, part_text};
ghost use Rattle.fetch_serve.specs.Good.{IsShort};
ghost use Rattle.fetch_serve.specs.Parts.{AllThere, WritesObjects, object_bytes};
ghost use Rattle.fetch_serve.specs.Replies.{head_of, refusal_text};
ghost use Rattle.fetch_serve.specs.Showings.{showing};

use commit_graph::{GetFault, Objects};
use fetch_wire::{Part, Request, push_object, push_part, write_part};
use rad_base::{NoMemory, Offer, Oid, Remotes};
use std::alloc::Global;

const CONTENT_LIMIT: usize = 33_554_432;

/// A refusal in place of a section.
pub(crate) fn refusal(alloc: Global, code: u8) -> Result<Vec<u8>, NoMemory>
    requires { IsCode code }
    ensures { IfOk result (λ bytes. bytes.items ≡ refusal_text code) }
{
    write_part(alloc, &Part::Refused(code))
}

// The head of an identity section.
fn offer(alloc: Global, id: &Oid, remotes: &Remotes) -> Result<Offer, NoMemory>
    ensures { IfOk result (λ offer. (offer.id ≡ id.now) × (offer.remotes ≡ remotes.now)) }
{
    let copy = remotes.as_slice().to_vec(alloc)?;
    Ok(Offer {
        id: *id,
        remotes: Remotes::of(copy),
    })
}

/// Writes the head of the section that is asked behind what is there.
pub(crate) fn push_head(
    alloc: Global,
    bytes: &mut Vec<u8>,
    id: &Oid,
    remotes: &Remotes,
    request: &Request,
) -> Result<(), NoMemory>
    requires { length remotes.now ≤ 1024 }
    ensures { (m : ObjectMap) → OnOk result (bytes.new.items
        ≡ bytes.old.items ++ part_text (head_of (showing m id.now remotes.now) request.now)) }
{
    let head = match request {
        Request::Begin(_, _) => Part::Offer(offer(alloc, id, remotes)?),
        Request::Sigs(_, _, _) => Part::SigsHead,
        Request::Tips(_, _, _) => Part::TipsHead,
        Request::Done => Part::End,
    };
    push_part(bytes, &head)?;
    Ok(())
}

// Writes the object of a name behind what is there.
fn push_named<O: Objects>(objects: &mut O, bytes: &mut Vec<u8>, oid: &Oid) -> Result<(), GetFault>
    ensures told { ForSome (O.content objects.old) (λ m. IsShort m → (object : Object)
        → m oid.now ≡ Some object → OnOk result
        (bytes.new.items ≡ bytes.old.items ++ object_bytes object)) }
    ensures keeps { KeepsObjects O.content O.beside O.places O.faults Some objects.old objects.new
        result }
{
    match objects.get(oid) {
        Err(fault) => Err(fault),
        Ok(None) => Ok(()),
        Ok(Some((kind, content))) => {
            // No section has a longer one: no shown object is so long.
            if content.len() > CONTENT_LIMIT {
                return Err(GetFault::NoMemory);
            }
            push_object(bytes, kind, content)?;
            Ok(())
        }
    }
}

/// Writes the objects of the names behind what is there.
pub(crate) fn push_objects<O: Objects>(
    objects: &mut O,
    bytes: &mut Vec<u8>,
    names: &[Oid],
) -> Result<(), GetFault>
    ensures told { ForSome (O.content objects.old) (λ m. IsShort m → AllThere m names.now
        → OnOk result (WritesObjects m names.now bytes.old.items bytes.new.items)) }
    ensures keeps { KeepsObjects O.content O.beside O.places O.faults Some objects.old objects.new
        result }
{
    for oid in names {
        push_named(objects, bytes, oid)?;
    }
    Ok(())
}
