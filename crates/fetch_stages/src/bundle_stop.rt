// Why the job of a bundle stops before its offer is judged.
ghost use Rattle.std.specs.Prelude.{◌≡◌};
ghost use Rattle.fetch_stages.specs.BundleJobs.{end_of};

use crate::job_end::{ImportEnd, JobEnd};
use rad_base::Rid;
use repo_slice::KeepFault;

/// How many bytes the name of a repository has.
pub(crate) const NAME_BYTES: u64 = 20;

/// Why the job of a bundle stops before its offer is judged.
#[derive(Clone, Copy, Debug)]
pub(crate) enum BundleStop {
    /// The input failed.
    ReadFault,
    /// The unit that begins at this place, counted from the first byte of its sections, is broken,
    /// or the input ends inside it.
    Bad(u64),
    /// Its sections are longer than the limit.
    TooLong,
    /// A call of the keep was refused, or memory.
    Keep(KeepFault),
}

// How the import of this repository's bundle ends.
pub(crate) fn end_by(rid: &Rid, stop: BundleStop) -> ImportEnd
    ensures { result ≡ end_of rid.now stop }
{
    match stop {
        BundleStop::ReadFault => ImportEnd::ReadFault,
        BundleStop::Bad(place) => ImportEnd::InputBad(NAME_BYTES.saturating_add(place)),
        BundleStop::TooLong => ImportEnd::Ended(*rid, JobEnd::TooLong),
        BundleStop::Keep(why) => ImportEnd::Ended(*rid, JobEnd::from(why)),
    }
}
