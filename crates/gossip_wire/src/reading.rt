// Reading messages.
ghost use Rattle.std.specs.Prelude.{◌≡◌, IfOk, IfSome, IfNone, IsErrOf, IsTrue};
ghost use Rattle.std.specs.Str.{IsUtf8};
ghost use Rattle.gossip_wire.specs.Fields.{IsFilterSize};
ghost use Rattle.gossip_wire.specs.Messages.{IsOf, IsOfNone, IsSigned, SpellsMessage, signed_text};
ghost use Rattle.gossip_wire.specs.declared.message.Message.{Message};
ghost use Rattle.gossip_wire.specs.declared.message.MessageFault.TheVariants as fault;

use crate::fields::{alias_front, bytes_front, number_behind, signed_front, zeros_in};
use crate::lists::{addresses_in, rids_in};
use crate::{Message, MessageFault};
use rad_base::{
    Bytes, Nid, NoMemory, Rid, Sig, Text, eight_bytes_front, nid_front, oid_front, remotes_in,
    two_bytes_front,
};
use std::alloc::Global;

/// The most repositories of an inventory.
const MOST_RIDS: u16 = 2_973;

/// The most remotes of a message of refs.
const MOST_REMOTES: u16 = 1_024;

/// The most zero bytes that a ping asks for.
const MOST_ZEROS: u16 = 65_531;

// A hello: the node's key.
fn read_hello(bytes: &[u8]) -> Option<Message>
    ensures found { IfSome result (IsOf 1 bytes.now) }
    ensures none { IfNone result (IsOfNone 1 bytes.now) }
{
    let (node, rest) = nid_front(bytes)?;
    if rest.is_empty() {
        Some(Message::Hello { node })
    } else {
        None
    }
}

// A text of these bytes, which are UTF-8.
fn text_of(alloc: Global, bytes: &[u8]) -> Result<Option<Text>, NoMemory>
    ensures same { IfOk result (λ found. IfSome found (λ text. text ≡ bytes.now)) }
    ensures some { IfOk result (λ found. IfNone found (IsUtf8 bytes.now → ⊥)) }
{
    match String::from_utf8(bytes.to_vec(alloc)?) {
        Ok(text) => Ok(Some(Text::of(text))),
        Err(_) => Ok(None),
    }
}

// What a node says of itself, behind its signature.
fn read_about(alloc: Global, node: Nid, sig: Sig, bytes: &[u8]) -> Result<Option<Message>, NoMemory>
    requires { IsSigned node sig }
    ensures found { IfOk result (λ found. IfSome found (IsOf 2 (signed_text node sig bytes.now))) }
    ensures none { IfOk result (λ found. IfNone found
        (IsOfNone 2 (signed_text node sig bytes.now))) }
{
    let Some((features, rest)) = eight_bytes_front(bytes) else {
        return Ok(None);
    };
    let Some((time, rest)) = eight_bytes_front(rest) else {
        return Ok(None);
    };
    let Some((alias, rest)) = alias_front(rest) else {
        return Ok(None);
    };
    let Some(addresses) = addresses_in(alloc, rest)? else {
        return Ok(None);
    };
    let Some(alias) = text_of(alloc, alias)? else {
        return Ok(None);
    };
    Ok(Some(Message::Node {
        node,
        sig,
        features,
        time,
        alias,
        addresses,
    }))
}

// The repositories that a node has, behind its signature.
fn read_rids(alloc: Global, node: Nid, sig: Sig, bytes: &[u8]) -> Result<Option<Message>, NoMemory>
    requires { IsSigned node sig }
    ensures found { IfOk result (λ found. IfSome found (IsOf 4 (signed_text node sig bytes.now))) }
    ensures none { IfOk result (λ found. IfNone found
        (IsOfNone 4 (signed_text node sig bytes.now))) }
{
    let Some((count, rest)) = two_bytes_front(bytes) else {
        return Ok(None);
    };
    if count > MOST_RIDS {
        return Ok(None);
    }
    let Some((names, time)) = number_behind(rest) else {
        return Ok(None);
    };
    match rids_in(alloc, names, count)? {
        None => Ok(None),
        Some(rids) => Ok(Some(Message::Inventory {
            node,
            sig,
            rids,
            time,
        })),
    }
}

// The signed refs of a repository that a node has, behind its signature.
fn read_remotes(
    alloc: Global,
    node: Nid,
    sig: Sig,
    bytes: &[u8],
) -> Result<Option<Message>, NoMemory>
    requires { IsSigned node sig }
    ensures found { IfOk result (λ found. IfSome found (IsOf 6 (signed_text node sig bytes.now))) }
    ensures none { IfOk result (λ found. IfNone found
        (IsOfNone 6 (signed_text node sig bytes.now))) }
{
    let Some((rid, rest)) = oid_front(bytes) else {
        return Ok(None);
    };
    let Some((count, rest)) = two_bytes_front(rest) else {
        return Ok(None);
    };
    if count > MOST_REMOTES {
        return Ok(None);
    }
    let Some((pairs, time)) = number_behind(rest) else {
        return Ok(None);
    };
    match remotes_in(alloc, pairs, count)? {
        None => Ok(None),
        Some(remotes) => Ok(Some(Message::Refs {
            node,
            sig,
            rid: Rid(rid),
            remotes,
            time,
        })),
    }
}

fn read_node(alloc: Global, bytes: &[u8]) -> Result<Option<Message>, NoMemory>
    ensures found { IfOk result (λ found. IfSome found (IsOf 2 bytes.now)) }
    ensures none { IfOk result (λ found. IfNone found (IsOfNone 2 bytes.now)) }
{
    match signed_front(bytes) {
        Some((node, sig, rest)) => read_about(alloc, node, sig, rest),
        None => Ok(None),
    }
}

fn read_inventory(alloc: Global, bytes: &[u8]) -> Result<Option<Message>, NoMemory>
    ensures found { IfOk result (λ found. IfSome found (IsOf 4 bytes.now)) }
    ensures none { IfOk result (λ found. IfNone found (IsOfNone 4 bytes.now)) }
{
    match signed_front(bytes) {
        Some((node, sig, rest)) => read_rids(alloc, node, sig, rest),
        None => Ok(None),
    }
}

fn read_refs(alloc: Global, bytes: &[u8]) -> Result<Option<Message>, NoMemory>
    ensures found { IfOk result (λ found. IfSome found (IsOf 6 bytes.now)) }
    ensures none { IfOk result (λ found. IfNone found (IsOfNone 6 bytes.now)) }
{
    match signed_front(bytes) {
        Some((node, sig, rest)) => read_remotes(alloc, node, sig, rest),
        None => Ok(None),
    }
}

// Whether a filter may have so many bytes.
fn is_filter_size(size: usize) -> bool
    ensures yes { IsTrue result → IsFilterSize size }
    ensures no { IsFilterSize size → IsTrue result }
{
    matches!(size, 1_024 | 4_096 | 16_384)
}

fn read_subscription(alloc: Global, bytes: &[u8]) -> Result<Option<Message>, NoMemory>
    ensures found { IfOk result (λ found. IfSome found (IsOf 8 bytes.now)) }
    ensures none { IfOk result (λ found. IfNone found (IsOfNone 8 bytes.now)) }
{
    let Some((size, rest)) = two_bytes_front(bytes) else {
        return Ok(None);
    };
    let size = usize::from(size);
    if !is_filter_size(size) || rest.len() != size + 16 {
        return Ok(None);
    }
    let (filter, rest) = bytes_front(rest, size);
    let Some((from, rest)) = eight_bytes_front(rest) else {
        return Ok(None);
    };
    let Some((to, _)) = eight_bytes_front(rest) else {
        return Ok(None);
    };
    let filter = Bytes::copy_of(alloc, filter)?;
    Ok(Some(Message::Subscribe { filter, from, to }))
}

fn read_ping(bytes: &[u8]) -> Option<Message>
    ensures found { IfSome result (IsOf 10 bytes.now) }
    ensures none { IfNone result (IsOfNone 10 bytes.now) }
{
    let (pong, rest) = two_bytes_front(bytes)?;
    let zeros = zeros_in(rest)?;
    if pong > MOST_ZEROS {
        return None;
    }
    Some(Message::Ping { pong, zeros })
}

fn read_pong(bytes: &[u8]) -> Option<Message>
    ensures found { IfSome result (IsOf 12 bytes.now) }
    ensures none { IfNone result (IsOfNone 12 bytes.now) }
{
    let zeros = zeros_in(bytes)?;
    Some(Message::Pong { zeros })
}

// The message of this type that the bytes behind the type are.
fn read_body(alloc: Global, kind: u16, bytes: &[u8]) -> Result<Option<Message>, NoMemory>
    ensures found { IfOk result (λ found. IfSome found (IsOf kind bytes.now)) }
    ensures none { IfOk result (λ found. IfNone found (IsOfNone kind bytes.now)) }
{
    match kind {
        1 => Ok(read_hello(bytes)),
        2 => read_node(alloc, bytes),
        4 => read_inventory(alloc, bytes),
        6 => read_refs(alloc, bytes),
        8 => read_subscription(alloc, bytes),
        10 => Ok(read_ping(bytes)),
        12 => Ok(read_pong(bytes)),
        _ => Ok(None),
    }
}

/// The message that the bytes are. `BadBody`: they are none. `NoMemory`: memory for it was refused.
pub fn read_message(alloc: Global, bytes: &[u8]) -> Result<Message, MessageFault>
    ensures found { IfOk result (λ message. SpellsMessage message bytes.now) }
    ensures none { IsErrOf result fault.BadBody
        → (message : Message) → SpellsMessage message bytes.now → ⊥ }
{
    let Some((kind, rest)) = two_bytes_front(bytes) else {
        return Err(MessageFault::BadBody);
    };
    match read_body(alloc, kind, rest)? {
        None => Err(MessageFault::BadBody),
        Some(message) => Ok(message),
    }
}
