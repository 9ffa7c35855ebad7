// Messages.
use rad_base::{Bytes, Items, Nid, NoMemory, Remotes, Rid, Rids, Sig, Text};

/// Addresses of a node, each at least 1 byte and at most 255, from 21 to 7e in hexadecimal digits.
pub type Addresses = Items<Bytes>;

/// What a node tells another.
#[derive(Debug, Drop)]
pub enum Message {
    /// The first message of an end.
    Hello {
        /// The node at this end.
        node: Nid,
    },
    /// What a node says of itself.
    Node {
        /// The node.
        node: Nid,
        /// Its signature.
        sig: Sig,
        /// What it offers, a bit each.
        features: u64,
        /// When it was said, in milliseconds.
        time: u64,
        /// The name that it goes by: 1 to 32 bytes.
        alias: Text,
        /// Where it is reached: up to 16.
        addresses: Addresses,
    },
    /// Which repositories a node has.
    Inventory {
        /// The node.
        node: Nid,
        /// Its signature.
        sig: Sig,
        /// The repositories, strictly rising, up to 2,973.
        rids: Rids,
        /// When it was said, in milliseconds.
        time: u64,
    },
    /// Which signed refs of a repository a node has.
    Refs {
        /// The node.
        node: Nid,
        /// Its signature.
        sig: Sig,
        /// The repository.
        rid: Rid,
        /// The remotes, up to 1,024.
        remotes: Remotes,
        /// When it was said, in milliseconds.
        time: u64,
    },
    /// What a node wants to be told of.
    Subscribe {
        /// The filter of repositories: 1,024, 4,096 or 16,384 bytes.
        filter: Bytes,
        /// The first time, in milliseconds.
        from: u64,
        /// The last time, in milliseconds.
        to: u64,
    },
    /// Asks for a pong.
    Ping {
        /// How many zero bytes the pong is to have, up to 65,531.
        pong: u16,
        /// How many zero bytes the ping has.
        zeros: u16,
    },
    /// The answer to a ping.
    Pong {
        /// How many zero bytes it has.
        zeros: u16,
    },
}

/// Why bytes are not read as a message.
#[derive(Clone, Copy, Debug, PartialEq, Eq)]
pub enum MessageFault {
    /// The bytes are no message.
    BadBody,
    /// Memory was refused.
    NoMemory,
}

impl From<NoMemory> for MessageFault {
    ghost use Rattle.std.specs.Prelude.{◌≡◌};
    ghost use Rattle.gossip_wire.specs.declared.message.MessageFault.TheVariants as fault;

    ghost from_gives = { λ _ e. e ≡ fault.NoMemory };

    fn from(_: NoMemory) -> Self {
        MessageFault::NoMemory
    }
}
