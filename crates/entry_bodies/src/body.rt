// What a body says.
use gossip_wire::Message;
use rad_base::{Offer, Rid};
use repo_entries::Batch;

/// What the body of an entry says.
#[derive(Debug, Drop)]
pub enum Body {
    /// Objects are put into this repository.
    Put(Rid, Batch),
    /// An identity and the remotes that advance are installed in this repository.
    Install(Rid, Offer),
    /// This announcement was heard.
    Heard(Message),
}
