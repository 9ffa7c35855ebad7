// The reports of a store on a disk in memory.
mod journal;

ghost use Rattle.std.specs.Prelude.{IfOk};
ghost use Rattle.object_store.specs.Stores.{StandsForSome};

use crate::*;
use journal::{JOURNAL, KEYRING};
use keyring::Keyring;
use object_store::Store;
use rad_base::{Oid, Rid, parse_oid};
use rad_outside::MemDisk;
use std::alloc::Global;
use std::test::Fail;

const NAME: &[u8] = b"fd38665a716bc6e21e89857ce1cef9268f039ebc";

const SHOWN: &str = "\
    repo 0000000000000000000000000000000000000000\n\
    id none\n\
    repo 0909090909090909090909090909090909090909\n\
    id none\n\
    repo fd38665a716bc6e21e89857ce1cef9268f039ebc\n\
    id 297e20c3faf7e3b6c66b23dd3d17080eda0cabc9\n\
    remote 0101010101010101010101010101010101010101010101010101010101010101 \
    4f325260b7e9a383b8b359e19cb64518da19eb3c 1\n";

const HEADS: &str = "\
    fd38665a716bc6e21e89857ce1cef9268f039ebc at b1ff3dd5533f3275a83636b43d14c1d29c4410a1\n";

const COUNTS: &str = "entries 6 repositories 3 remotes 1 objects 13 announcements 0\n";

const MADE: &str = "\
    commits 1\n\
    objects 11\n\
    entries 6\n\
    head at b1ff3dd5533f3275a83636b43d14c1d29c4410a1\n";

const BARE: &str = "commits 0\nobjects 1\nentries 6\n";

// The store of the journal.
fn opened(alloc: Global) -> Result<Store<MemDisk>, Fail>
    ensures { IfOk result StandsForSome }
{
    let keyring = Keyring::read(alloc, &hex::decode(alloc, KEYRING)?)?;
    let disk = MemDisk::new(alloc, hex::decode(alloc, JOURNAL)?, Vec::new(alloc));
    match Store::open(alloc, disk, keyring) {
        Ok(store) => Ok(store),
        Err(_) => Err(Fail::new("not open")),
    }
}

#[test]
fn a_store_has_its_reports(rt: HostRuntime) -> Result<(), Fail> {
    let alloc = rt.alloc();
    let mut store = opened(alloc)?;
    assert_eq!(rt; show_report(alloc, &store)?.as_slice(), SHOWN.as_bytes());
    assert_eq!(rt; audit_report(alloc, &store)?.as_slice(), COUNTS.as_bytes());
    let heads = heads_report(alloc, &mut store)?;
    assert_eq!(rt; heads.as_slice(), HEADS.as_bytes());
    let rid = Rid(parse_oid(NAME).ok_or("no name")?);
    let made = generated_report(alloc, &mut store, &rid, 1)?;
    assert_eq!(rt; made.as_slice(), MADE.as_bytes());
    let bare = generated_report(alloc, &mut store, &Rid(Oid([0; 20])), 0)?;
    assert_eq!(rt; bare.as_slice(), BARE.as_bytes());
    Ok(())
}
