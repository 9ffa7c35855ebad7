// What is kept of an announcement.
use rad_base::{Bytes, Rids};

/// What is kept of an announcement.
#[derive(Debug, Drop)]
pub struct Kept {
    /// When it was said, in milliseconds.
    pub time: u64,
    /// Its bytes.
    pub bytes: Bytes,
    /// The repositories of an inventory, strictly rising; none of other announcements.
    pub rids: Rids,
}
