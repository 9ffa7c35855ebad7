// What is left of an entry that a call had to write.
ghost use Rattle.std.specs.Prelude.{◌≡◌};
ghost use Rattle.object_store.specs.Entries.{left_by, missed_entry};

use rad_base::{Offer, Rid};
use repo_slice::{Entry, Left};

// What a call that had this entry to write leaves in doubt. It takes no memory.
fn into_left(entry: Entry) -> Left
    ensures { result ≡ left_by entry }
{
    match entry {
        Entry::Put { names, .. } => Left::Put(names),
        Entry::Install { id, remotes, .. } => Left::Install(Offer { id, remotes }),
        Entry::Heard { message, .. } => Left::Heard(message),
        Entry::Claim { .. } => Left::Nothing,
        Entry::Missed { .. } => Left::Nothing,
        Entry::Refused { .. } => Left::Nothing,
    }
}

// The entry of such a call, for a repository or for the announcements, that met a fault of the disk.
// It takes no memory.
pub(crate) fn into_missed(entry: Entry, of: Option<Rid>, caller: u64, in_doubt: bool) -> Entry
    ensures { result ≡ missed_entry entry of caller in_doubt }
{
    let left = if in_doubt {
        into_left(entry)
    } else {
        Left::Nothing
    };
    Entry::Missed { of, left, caller }
}
