// Announcements by rule: the inventories of 34 nodes, and refs of repositories.
use crate::accepting::push_accept;
use announcements::{Heard, Table, is_announcement};
use git_object::{Kind, name_of};
use gossip_wire::{Message, read_message};
use keyring::Keyring;
use rad_base::{Nid, Rid};
use std::alloc::Global;
use std::marker::Model;

/// How many of the nodes are peers: the first.
pub const PEERS: u32 = 16;

const OTHERS: u32 = 18;

/// How many nodes there are.
pub const NODES: u32 = 34;

/// An announcement. Contracts see it as its message.
#[derive(Drop)]
pub struct Announcement {
    message: Message,
}

impl Model for Announcement {
    ghost use Rattle.announcements.specs.Announcements.{IsAnnouncement};
    ghost use Rattle.gossip_wire.specs.declared.message.Message.{Message};

    ghost Value = { Message };

    ghost view = { λ announcement. announcement.message };

    ghost invariant = { λ announcement. IsAnnouncement announcement.message };
}

/// Announcements, and the keyring that accepts them.
#[derive(Drop)]
pub struct Announced {
    /// The announcements.
    pub announcements: Vec<Announcement>,
    /// The keyring.
    pub keyring: Keyring,
}

/// The key of a node, from 0.
pub fn node_of(number: u32) -> Nid {
    Nid([u8::try_from(number).unwrap_or(0); 32])
}

// The bytes of an announcement up to its signature, which is the node's key, twice.
fn signed(alloc: Global, kind: u16, node: &Nid) -> Option<Vec<u8>> {
    let mut bytes = Vec::from_slice(alloc, &kind.to_be_bytes()).ok()?;
    for _ in 0..3 {
        bytes.extend_from_slice(&node.0).ok()?;
    }
    Some(bytes)
}

// The bytes of an inventory.
fn inventory(alloc: Global, node: &Nid, rids: &[Rid], time: u64) -> Option<Vec<u8>> {
    let mut bytes = signed(alloc, 4, node)?;
    let count = u16::try_from(rids.len()).ok()?;
    bytes.extend_from_slice(&count.to_be_bytes()).ok()?;
    for rid in rids {
        bytes.extend_from_slice(&rid.0.0).ok()?;
    }
    bytes.extend_from_slice(&time.to_be_bytes()).ok()?;
    Some(bytes)
}

// The bytes of the refs of a repository, of which the node's own remote is the only one.
fn refs(alloc: Global, node: &Nid, rid: &Rid, time: u64) -> Option<Vec<u8>> {
    let mut bytes = signed(alloc, 6, node)?;
    bytes.extend_from_slice(&rid.0.0).ok()?;
    bytes.extend_from_slice(&1u16.to_be_bytes()).ok()?;
    bytes.extend_from_slice(&node.0).ok()?;
    bytes.extend_from_slice(&rid.0.0).ok()?;
    bytes.extend_from_slice(&time.to_be_bytes()).ok()?;
    Some(bytes)
}

// The node that has a repository, of so many: a share of them belongs to the peers, as many to each
// as an inventory has at most where there are 100,000 repositories; the others to the other nodes.
fn owner_of(number: u32, count: u32) -> u32 {
    let each = u64::from(count).saturating_mul(2973) / 100_000;
    if u64::from(number) < each.saturating_mul(u64::from(PEERS)) {
        number % PEERS
    } else {
        PEERS.saturating_add(number % OTHERS)
    }
}

// The repositories of so many: each is the name of a file with its number.
fn rids_of(alloc: Global, count: u32) -> Option<Vec<Rid>> {
    let mut rids = Vec::new(alloc);
    for number in 0..count {
        let text = format!(in alloc; "{number}\n").ok()?;
        rids.push(Rid(name_of(Kind::Blob, text.as_bytes()))).ok()?;
    }
    Some(rids)
}

// What a node has of the repositories, rising.
fn rids_at(alloc: Global, rids: &[Rid], node: u32, count: u32) -> Option<Vec<Rid>> {
    let mut list = Vec::new(alloc);
    for (number, rid) in (0..count).zip(rids) {
        if owner_of(number, count) == node {
            list.push(*rid).ok()?;
        }
    }
    list.sort().ok()?;
    Some(list)
}

impl Announcement {
    // The announcement of these bytes, if they are one.
    fn of(alloc: Global, bytes: &[u8]) -> Option<Announcement> {
        let message = read_message(alloc, bytes).ok()?;
        if is_announcement(&message) {
            Some(Announcement { message })
        } else {
            None
        }
    }

    /// Lets a table hear it.
    pub fn hear(&self, alloc: Global, table: &mut Table, keyring: &Keyring) -> Option<Heard> {
        table.hear(alloc, &self.message, 0, keyring).ok()
    }
}

// Announcements, and the lines that accept them.
#[derive(Drop)]
struct Making {
    announcements: Vec<Announcement>,
    text: Vec<u8>,
}

impl Making {
    // Adds the announcement of these bytes. What is signed is its type and what is behind the
    // signature.
    fn add(&mut self, alloc: Global, bytes: &[u8]) -> Option<()> {
        let mut message = Vec::from_slice(alloc, bytes.get(..2)?).ok()?;
        message.extend_from_slice(bytes.get(98..)?).ok()?;
        let (node, signature) = (bytes.get(2..34)?, bytes.get(34..98)?);
        push_accept(alloc, &mut self.text, node, &message, signature)?;
        self.announcements
            .push(Announcement::of(alloc, bytes)?)
            .ok()
    }

    // Adds the inventory of each node.
    fn add_inventories(&mut self, alloc: Global, rids: &[Rid], count: u32) -> Option<()> {
        for node in 0..NODES {
            let list = rids_at(alloc, rids, node, count)?;
            let bytes = inventory(alloc, &node_of(node), &list, u64::from(node))?;
            self.add(alloc, &bytes)?;
        }
        Some(())
    }

    // Adds refs of the first repositories, as many as are left of so many announcements.
    fn add_refs(&mut self, alloc: Global, rids: &[Rid], count: u32) -> Option<()> {
        for (number, rid) in (0..count.saturating_sub(NODES)).zip(rids) {
            let node = node_of(owner_of(number, count));
            let time = u64::from(number.saturating_add(NODES));
            self.add(alloc, &refs(alloc, &node, rid, time)?)?;
        }
        Some(())
    }
}

impl Announced {
    /// So many announcements, of as many repositories: an inventory of each node, and behind them
    /// refs. Each has its number as its time.
    pub fn new(alloc: Global, count: u32) -> Option<Announced> {
        let rids = rids_of(alloc, count)?;
        let mut making = Making {
            announcements: Vec::new(alloc),
            text: Vec::new(alloc),
        };
        making.add_inventories(alloc, &rids, count)?;
        making.add_refs(alloc, &rids, count)?;
        let keyring = Keyring::read(alloc, &making.text).ok()?;
        Some(Announced {
            announcements: making.announcements,
            keyring,
        })
    }
}
