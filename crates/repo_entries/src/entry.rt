// Entries of a store's history.
use crate::Whole;
use rad_base::{Bytes, Offer, Oid, Oids, Remotes, Rid};

/// What a refused call left in doubt: whether it is on the disk is not known.
#[derive(Debug, Drop)]
pub enum Left {
    /// Nothing new.
    Nothing,
    /// A put of objects of these names.
    Put(Oids),
    /// An install of this identity and of these remotes.
    Install(Offer),
    /// This announcement, as it is spelled.
    Heard(Bytes),
}

/// An entry of a store's history. A caller is a number from 1; it is 0 in an entry from before this
/// run.
#[derive(Debug, Drop)]
pub enum Entry {
    /// A caller takes a repository.
    Claim {
        /// The repository.
        rid: Rid,
        /// Who takes it.
        caller: u64,
    },
    /// Objects are put.
    Put {
        /// The repository.
        rid: Rid,
        /// The names of the objects, in order.
        names: Oids,
        /// Who puts them.
        caller: u64,
    },
    /// An identity and the remotes that advance are installed.
    Install {
        /// The repository.
        rid: Rid,
        /// The next identity commit.
        id: Oid,
        /// The remotes that advance.
        remotes: Remotes,
        /// Who installs them.
        caller: u64,
    },
    /// An announcement was heard.
    Heard {
        /// The announcement, as it is spelled.
        message: Bytes,
        /// Who heard it.
        caller: u64,
    },
    /// A call met a fault of the disk.
    Missed {
        /// The repository that the call was for, if it was for one.
        of: Option<Rid>,
        /// What the call left in doubt.
        left: Left,
        /// Whose call it was.
        caller: u64,
    },
    /// An offer was refused whole.
    Refused {
        /// The repository.
        rid: Rid,
        /// Why.
        why: Whole,
        /// Who offered.
        caller: u64,
    },
}
