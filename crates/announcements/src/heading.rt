// What a message announces.
ghost use Rattle.std.specs.Prelude.{◌≡◌, ◌++◌, IfSome, IfNone, IfOk, length, ◌≤◌};
ghost use Rattle.std.specs.Prelude.{◌↔◌, IsTrue, None, drop, take};
ghost use Rattle.gossip_wire.specs.Messages.{message_text};
ghost use Rattle.announcements.specs.Announcements.{Announces, IsAnnouncement, announced};
ghost use Rattle.announcements.specs.Announcements.{is_accepted};

use crate::{Key, Topic};
use gossip_wire::Message;
use keyring::Keyring;
use rad_base::{Nid, NoMemory, Rid, Sig};
use std::alloc::Global;

// What a message announces, without the bytes behind its signature.
#[derive(Clone, Copy)]
pub struct Heading<'a> {
    pub key: Key,
    pub sig: Sig,
    pub rids: &'a [Rid],
    pub time: u64,
}

// The key of what a node tells of itself or of what it has.
fn key_of_node(topic: Topic, node: &Nid) -> Key
    ensures { result ≡ record { topic = topic; node = node.now; rid = None } }
{
    Key {
        topic,
        node: *node,
        rid: None,
    }
}

/// Whether a message is an announcement: it tells of a node, of what a node has, or of refs.
pub fn is_announcement(message: &Message) -> bool
    ensures { IsTrue result ↔ Announces message.now }
{
    matches!(
        message,
        Message::Node { .. } | Message::Inventory { .. } | Message::Refs { .. }
    )
}

/// What a message announces. None exactly where it is no announcement.
pub fn heading_of(message: &Message) -> Option<Heading<'_>>
    ensures key { IfSome result (λ heading. heading.key ≡ (announced message.now).key) }
    ensures sig { IfSome result (λ heading. heading.sig ≡ (announced message.now).sig) }
    ensures rids { IfSome result (λ heading. heading.rids.now ≡ (announced message.now).rids) }
    ensures time { IfSome result (λ heading. heading.time ≡ (announced message.now).time) }
    ensures none { IfNone result (Announces message.now → ⊥) }
{
    match message {
        Message::Node {
            node,
            sig,
            time,
            ..
        } => Some(Heading {
            key: key_of_node(Topic::Node, node),
            sig: *sig,
            rids: &[],
            time: *time,
        }),
        Message::Inventory {
            node,
            sig,
            rids,
            time,
        } => Some(Heading {
            key: key_of_node(Topic::Inventory, node),
            sig: *sig,
            rids: rids.as_slice(),
            time: *time,
        }),
        Message::Refs {
            node,
            sig,
            rid,
            time,
            ..
        } => Some(Heading {
            key: Key {
                topic: Topic::Refs,
                node: *node,
                rid: Some(*rid),
            },
            sig: *sig,
            rids: &[],
            time: *time,
        }),
        _ => None,
    }
}

// What is signed of an announcement that has these bytes: the two of the type, and all that follows
// the key and the signature.
fn signed_part(alloc: Global, bytes: &[u8]) -> Result<Vec<u8>, NoMemory>
    requires { 98 ≤ length bytes.now }
    ensures { IfOk result (λ part. part.items ≡ take 2 bytes.now ++ drop 98 bytes.now) }
{
    let (kind, _) = bytes.split_at(2);
    let (_, announced) = bytes.split_at(98);
    let mut part = Vec::new(alloc);
    part.extend_from_slice(kind)?;
    part.extend_from_slice(announced)?;
    Ok(part)
}

/// Whether the keyring accepts the signature of an announcement that has these bytes.
pub fn accepts(
    alloc: Global,
    keyring: &Keyring,
    message: &Message,
    heading: &Heading<'_>,
    bytes: &[u8],
) -> Result<bool, NoMemory>
    requires fits { IsAnnouncement message.now }
    requires node { heading.now.key.node ≡ (announced message.now).key.node }
    requires sig { heading.now.sig ≡ (announced message.now).sig }
    requires bytes { bytes.now ≡ message_text message.now }
    ensures { IfOk result (λ accepted. accepted ≡ is_accepted keyring.now message.now) }
{
    let signed = signed_part(alloc, bytes)?;
    Ok(keyring.verdict(&heading.key.node, &signed, &heading.sig))
}
