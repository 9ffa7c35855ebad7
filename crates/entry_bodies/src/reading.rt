// Reading the body of an entry.
ghost use Rattle.std.specs.Prelude.{◌≡◌, IfOk, IfSome, IfNone};
ghost use Rattle.repo_entries.specs.Items.{Item};
ghost use Rattle.entry_bodies.specs.Bodies.{SpellsItem, item_in};
ghost use Rattle.entry_bodies.specs.Readers.{Says, SaysNone};

use crate::Body;
use crate::lists::objects_in;
use announcements::is_announcement;
use gossip_wire::{MessageFault, read_message};
use rad_base::{NoMemory, Offer, Rid, four_bytes_front, oid_front, remotes_in, two_bytes_front};
use std::alloc::Global;

/// The most objects of a put.
const MOST_OBJECTS: u32 = 1_024;

/// The most remotes of an install.
const MOST_REMOTES: u16 = 1_024;

// The put that these bytes say, behind their first.
fn read_put(alloc: Global, bytes: &[u8]) -> Result<Option<Body>, NoMemory>
    ensures found { IfOk result (λ found. IfSome found (Says 1 bytes.now)) }
    ensures none { IfOk result (λ found. IfNone found (SaysNone 1 bytes.now)) }
{
    let Some((rid, rest)) = oid_front(bytes) else {
        return Ok(None);
    };
    let Some((count, rest)) = four_bytes_front(rest) else {
        return Ok(None);
    };
    if count < 1 || count > MOST_OBJECTS {
        return Ok(None);
    }
    match objects_in(alloc, rest, count)? {
        None => Ok(None),
        Some(batch) => Ok(Some(Body::Put(Rid(rid), batch))),
    }
}

// The install that these bytes say, behind their first.
fn read_install(alloc: Global, bytes: &[u8]) -> Result<Option<Body>, NoMemory>
    ensures found { IfOk result (λ found. IfSome found (Says 2 bytes.now)) }
    ensures none { IfOk result (λ found. IfNone found (SaysNone 2 bytes.now)) }
{
    let Some((rid, rest)) = oid_front(bytes) else {
        return Ok(None);
    };
    let Some((id, rest)) = oid_front(rest) else {
        return Ok(None);
    };
    let Some((count, rest)) = two_bytes_front(rest) else {
        return Ok(None);
    };
    if count > MOST_REMOTES {
        return Ok(None);
    }
    match remotes_in(alloc, rest, count)? {
        None => Ok(None),
        Some(remotes) => Ok(Some(Body::Install(Rid(rid), Offer { id, remotes }))),
    }
}

// The announcement that these bytes say, behind their first.
fn read_heard(alloc: Global, bytes: &[u8]) -> Result<Option<Body>, NoMemory>
    ensures found { IfOk result (λ found. IfSome found (Says 3 bytes.now)) }
    ensures none { IfOk result (λ found. IfNone found (SaysNone 3 bytes.now)) }
{
    match read_message(alloc, bytes) {
        Ok(message) if is_announcement(&message) => Ok(Some(Body::Heard(message))),
        Ok(_) => Ok(None),
        Err(MessageFault::BadBody) => Ok(None),
        Err(MessageFault::NoMemory) => Err(NoMemory),
    }
}

/// What the bytes say as the body of an entry. None where they are no body. `NoMemory`: memory for
/// it was refused.
pub fn read_body(alloc: Global, bytes: &[u8]) -> Result<Option<Body>, NoMemory>
    ensures found { IfOk result (λ found. IfSome found
        (λ body. SpellsItem (item_in body) bytes.now)) }
    ensures none { IfOk result (λ found. IfNone found
        ((item : Item) → SpellsItem item bytes.now → ⊥)) }
{
    match bytes.split_first() {
        Some((1, rest)) => read_put(alloc, rest),
        Some((2, rest)) => read_install(alloc, rest),
        Some((3, rest)) => read_heard(alloc, rest),
        _ => Ok(None),
    }
}
