// The store that a command opens under its keyring.
ghost use Rattle.std.specs.Prelude.{◌≡◌, ◌≤◌, IfErr, IfOk, IfSome};
ghost use Rattle.rad_base.specs.Faults.{Rose};
ghost use Rattle.ref_journal.specs.Holds.{OnlyReads};
ghost use Rattle.object_store.specs.Held.{IsUnclaimed};
ghost use Rattle.object_store.specs.Stores.{StandsForSome};
ghost use Rattle.rad_node.specs.Opening.{HasOpened, IsKeyringFault, IsOpeningFault};
ghost use Rattle.rad_node.specs.Opening.{disk_of_opening, status_of};
ghost use Rattle.rad_node.specs.Runs.{IsKept};
ghost use Rattle.rad_node.specs.Statuses.{Files, IsKeyringEnd, SaysKeyring};

use crate::status::{Status, WhichSource};
use crate::transfer::{ReadFault, read_all};
use keyring::{KeyFault, Keyring};
use object_store::{Store, Why};
use rad_outside::{Disk, Source};
use std::alloc::Global;

/// The most bytes that a keyring file may have.
const KEYRING_LIMIT: usize = 268_435_456;

/// Why no store is opened, as the run's end. The disk comes back.
#[derive(Drop)]
pub(crate) struct Refusal<D> {
    pub(crate) disk: D,
    pub(crate) status: Status,
}

/// The keyring of a file. `ReadFault`: a take failed. `KeyringBad`: its first broken line, or 0
/// where it has more than 268,435,456 bytes. `NoMemory`: memory was refused.
pub(crate) fn read_keyring<S: Source>(alloc: Global, keys: &mut S) -> Result<Keyring, Status>
    ensures later { S.faults keys.old ≤ S.faults keys.new }
    ensures keyring { IfOk result (λ keyring.
        IfSome (S.left keys.old) (λ bytes. SaysKeyring bytes keyring)) }
    ensures refused { IfErr result (IsKeyringFault (S.left keys.old)
        (Rose (S.faults keys.old) (S.faults keys.new))) }
{
    let bytes = match read_all(alloc, keys, KEYRING_LIMIT) {
        Ok(bytes) => bytes,
        Err(ReadFault::Failed) => return Err(Status::ReadFault(WhichSource::Keys)),
        Err(ReadFault::TooLong) => return Err(Status::KeyringBad(0)),
        Err(ReadFault::NoMemory) => return Err(Status::NoMemory),
    };
    match Keyring::read(alloc, &bytes) {
        Ok(keyring) => Ok(keyring),
        Err(KeyFault::BadLine(line)) => Err(Status::KeyringBad(line as u64)),
        Err(KeyFault::NoMemory) => Err(Status::NoMemory),
    }
}

// The end of a run whose store does not open.
fn status_at(why: Why) -> Status
    ensures { result ≡ status_of why }
{
    match why {
        Why::DiskFault => Status::DiskFault,
        Why::Unmade => Status::Unmade,
        Why::Damaged(place) => Status::Damaged(place),
        Why::NotLegal(n) => Status::NotLegal(n),
        Why::NoMemory => Status::NoMemory,
    }
}

/// Reads the keyring, and opens the store on a disk under it. It writes nothing. A fault of the
/// keyring's leaves the disk unasked.
pub(crate) fn open_store<D: Disk, S: Source>(
    alloc: Global,
    disk: D,
    keys: &mut S,
) -> Result<Store<D>, Refusal<D>>
    ensures reads { OnlyReads D.loan D.faults D.reads_as D.images D.moment D.images_since
        disk (disk_of_opening result) }
    ensures kept { IsKept (D.reads_as disk) (D.reads_as (disk_of_opening result)) (D.images disk)
        (D.images (disk_of_opening result))
        (D.images_since (disk_of_opening result) (D.moment disk)) }
    ensures later { S.faults keys.old ≤ S.faults keys.new }
    ensures stands { IfOk result StandsForSome }
    ensures unclaimed { IfOk result IsUnclaimed }
    ensures opened { IfOk result (HasOpened D.reads_as D.images
        (record { keyring = S.left keys.old; store = D.reads_as disk })) }
    ensures refused { IfErr result (λ refusal. IsOpeningFault
        (record { keyring = S.left keys.old; store = D.reads_as disk })
        (Rose (S.faults keys.old) (S.faults keys.new))
        (Rose (D.faults disk) (D.faults refusal.disk)) refusal.status) }
    ensures order { IfErr result (λ refusal. IsKeyringEnd refusal.status → refusal.disk ≡ disk) }
{
    let keyring = match read_keyring(alloc, keys) {
        Ok(keyring) => keyring,
        Err(status) => return Err(Refusal { disk, status }),
    };
    match Store::open(alloc, disk, keyring) {
        Ok(store) => Ok(store),
        Err(fault) => Err(Refusal {
            status: status_at(fault.why),
            disk: fault.disk,
        }),
    }
}
