// What an announcement is of.
use rad_base::{Nid, Rid};

/// What an announcement tells.
#[derive(Clone, Copy, Debug, PartialEq, Eq, PartialOrd, Ord)]
pub enum Topic {
    /// What a node says of itself.
    Node,
    /// Which repositories a node has.
    Inventory,
    /// Which signed refs of a repository a node has.
    Refs,
}

/// What an announcement is of. One announcement is kept of each key. Keys are in order of their
/// topic, their node and their repository.
#[derive(Clone, Copy, Debug, PartialEq, Eq, PartialOrd, Ord)]
pub struct Key {
    /// What it tells.
    pub topic: Topic,
    /// Whose announcement it is.
    pub node: Nid,
    /// The repository, of refs alone.
    pub rid: Option<Rid>,
}
