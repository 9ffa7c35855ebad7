// How a job ends.

use canonical_head::answer::Head;
use commit_graph::Changed;
use rad_base::Rid;
use repo_slice::{Judged, KeepFault, Whole};

/// How a job ends.
#[derive(Debug, Drop)]
pub enum JobEnd {
    /// The offer was judged and installed; with the head that the slice has then.
    Done(Judged, Head),
    /// The offer was refused whole.
    Refused(Whole),
    /// Its sections have more than 1,073,741,824 bytes.
    TooLong,
    /// A call of the disk failed, and one missed entry was added.
    DiskFault,
    /// The journal would be longer than 2^40 bytes.
    Full,
    /// The bytes read back have another name.
    Changed(Changed),
    /// Memory was refused.
    NoMemory,
}

/// How the import of a bundle ends.
#[derive(Debug, Drop)]
pub enum ImportEnd {
    /// The job of this repository ended so.
    Ended(Rid, JobEnd),
    /// A take from the input failed.
    ReadFault,
    /// The unit that begins at this place, counted from the bundle's first byte, is broken, the
    /// bundle ends inside it, or the bundle has ended there and bytes follow.
    InputBad(u64),
    /// Memory was refused before the repository was known.
    NoMemory,
}

impl From<KeepFault> for JobEnd {
    ghost use Rattle.fetch_stages.specs.JobEnds.{end_at};
    ghost use Rattle.std.specs.Prelude.{◌≡◌};

    ghost from_gives = { λ why end. end ≡ end_at why };

    fn from(why: KeepFault) -> Self {
        match why {
            KeepFault::DiskFault => JobEnd::DiskFault,
            KeepFault::Full => JobEnd::Full,
            KeepFault::Changed(change) => JobEnd::Changed(change),
            KeepFault::NoMemory => JobEnd::NoMemory,
        }
    }
}
