// Requests for sections.
use rad_base::{Nids, Oids, Rid};

/// What a client asks a server for. The haves are up to 2,048 names and the nodes up to 1,024 keys,
/// both strictly rising.
#[derive(Debug, Drop)]
pub enum Request {
    /// The identity section of a repository, for one who has these.
    Begin(Rid, Oids),
    /// The signed refs section of these nodes, for one who has these.
    Sigs(Rid, Oids, Nids),
    /// The tips section of these nodes, for one who has these.
    Tips(Rid, Oids, Nids),
    /// Nothing more.
    Done,
}

/// What a request with a repository asks for.
#[derive(Clone, Copy, Debug, PartialEq, Eq)]
pub enum Ask {
    /// The identity section.
    Begin,
    /// The signed refs section.
    Sigs,
    /// The tips section.
    Tips,
}

/// Why a reader of requests stops.
#[derive(Clone, Copy, Debug, PartialEq, Eq)]
pub enum RequestFault {
    /// A request is broken, which begins at this place, in bytes from the first that was fed.
    Bad(u64),
    /// Memory was refused.
    NoMemory,
}
