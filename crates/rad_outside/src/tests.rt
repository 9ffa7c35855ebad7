// The adapters over real files, and each trait through its bound.
use crate::{
    Disk, Failed, FileDisk, FileSource, Link, MemDisk, MemLink, MemSink, MemSource, Sink, Source,
};
use std::test::Fail;
use std::{env, fs, io, process};

// A path in the system's temporary folder that no other run of the tests uses.
fn path_of(rt: &HostRuntime, name: &str) -> io::Result<String> {
    let folder = env::temp_dir(rt)?;
    let folder = folder.as_str();
    let id = process::id(rt.process());
    Ok(format!(in rt.alloc(); "{folder}/rad_outside_{id}_{name}")?)
}

fn append<D: Disk>(disk: &mut D, bytes: &[u8]) -> Result<(), Failed> {
    let end = disk.size()?;
    disk.write_at(end, bytes)?;
    disk.sync()
}

// Takes up to eight times, and gives what was taken.
fn pass_on<S: Source, W: Sink>(source: &mut S, sink: &mut W) -> Result<(), Failed> {
    let mut piece = [0u8; 8];
    for _ in 0..8 {
        let n = source.take(&mut piece)?;
        sink.give(&piece[..n])?;
    }
    Ok(())
}

#[test]
fn lent_objects(rt: HostRuntime) -> Result<(), Fail> {
    let alloc = rt.alloc();
    let mut disk = MemDisk::new(alloc, b"ab".to_vec(alloc)?, vec![in alloc]?);
    assert_eq!(rt; append(&mut disk, b"c"), Ok(()));
    assert_eq!(rt; append(&mut &mut disk, b"d"), Ok(()));
    assert_eq!(rt; disk.bytes(), b"abcd".as_slice());

    let mut source = MemSource::new(b"some bytes".to_vec(alloc)?, 3, vec![in alloc; 6u64]?);
    let mut sink = MemSink::new(alloc, vec![in alloc]?);
    assert_eq!(rt; pass_on(&mut &mut source, &mut &mut sink), Err(Failed));
    assert_eq!(rt; sink.bytes(), b"some bytes".as_slice());
    Ok(())
}

// Gives back what comes, until nothing does.
fn give_back<L: Link>(link: &mut L) -> Result<(), Failed> {
    let mut piece = [0u8; 2];
    for _ in 0..8 {
        let n = link.take(&mut piece)?;
        link.give(&piece[..n])?;
    }
    Ok(())
}

#[test]
fn a_link_in_memory(rt: HostRuntime) -> Result<(), Fail> {
    let alloc = rt.alloc();
    let mut link = MemLink::new(alloc, b"abcde".to_vec(alloc)?, 3, vec![in alloc]?);
    assert_eq!(rt; give_back(&mut &mut link), Ok(()));
    assert_eq!(rt; link.output(), b"abcde".as_slice());

    let fails = vec![in alloc; 2u64, 3]?;
    let mut link = MemLink::new(alloc, b"abcde".to_vec(alloc)?, 3, fails);
    let mut into = [0u8; 4];
    assert_eq!(rt; (link.give(b"x"), link.take(&mut into)), (Ok(1), Ok(3)));
    assert_eq!(rt;
        (link.take(&mut into), link.give(b"y")),
        (Err(Failed), Err(Failed))
    );
    assert_eq!(rt; (link.take(&mut into), link.give(b"z")), (Ok(2), Ok(1)));
    assert_eq!(rt;
        (link.take(&mut into), link.output()),
        (Ok(0), b"xz".as_slice())
    );
    Ok(())
}

#[test]
fn a_file_is_made_by_the_first_write(rt: HostRuntime) -> Result<(), Fail> {
    let path = path_of(&rt, "disk")?;
    let mut into = [9u8; 8];

    let mut disk = FileDisk::new(rt, path.clone()?);
    assert_eq!(rt; disk.size(), Ok(0));
    assert_eq!(rt; disk.read_at(0, &mut into), Ok(0));
    assert_eq!(rt; disk.sync(), Ok(()));
    assert!(rt; fs::metadata(&rt, path.as_str()).is_err());

    assert_eq!(rt; disk.write_at(2, b"cde"), Ok(()));
    assert_eq!(rt; disk.write_at(0, b"ab"), Ok(()));
    assert_eq!(rt; disk.write_at(7, b""), Ok(()));
    assert_eq!(rt; disk.sync(), Ok(()));
    assert_eq!(rt; disk.size(), Ok(7));
    assert_eq!(rt; disk.read_at(1, &mut into), Ok(6));
    assert_eq!(rt; into, *b"bcde\0\0\x09\x09");

    let mut again = FileDisk::new(rt, path.clone()?);
    assert_eq!(rt; append(&mut again, b"!"), Ok(()));
    let mut source = FileSource::new(rt, path.clone()?);
    assert_eq!(rt; source.take(&mut into), Ok(8));
    assert_eq!(rt; into, *b"abcde\0\0!");
    assert_eq!(rt; source.take(&mut into), Ok(0));

    fs::remove_file(&rt, path.as_str())?;
    Ok(())
}

// Whether a disk's size, read, write and sync at a path fail, and a source's first call.
fn which_fail(rt: HostRuntime, path: &str) -> io::Result<[bool; 5]> {
    let alloc = rt.alloc();
    let mut into = [0u8; 8];
    let mut disk = FileDisk::new(rt, path.to_string(alloc)?);
    let size = disk.size().is_err();
    let read = disk.read_at(0, &mut into).is_err();
    let write = disk.write_at(0, b"a").is_err();
    let sync = disk.sync().is_err();
    let mut source = FileSource::new(rt, path.to_string(alloc)?);
    Ok([size, read, write, sync, source.take(&mut into).is_err()])
}

#[test]
fn a_path_that_cannot_be_used(rt: HostRuntime) -> Result<(), Fail> {
    let alloc = rt.alloc();
    let file = path_of(&rt, "file")?;
    fs::write(&rt, file.as_str(), "text")?;
    let folder = env::temp_dir(&rt)?;
    assert_eq!(rt; which_fail(rt, folder.as_str())?, [true; 5]);
    let below = format!(in alloc; "{file}/below")?;
    assert_eq!(rt; which_fail(rt, below.as_str())?, [true; 5]);

    let absent = format!(in alloc; "{file}.absent/below")?;
    let mut disk = FileDisk::new(rt, absent.clone()?);
    assert_eq!(rt; disk.size(), Ok(0));
    assert_eq!(rt; disk.write_at(0, b"a"), Err(Failed));
    let mut source = FileSource::new(rt, absent);
    assert_eq!(rt; source.take(&mut [0u8; 8]), Err(Failed));

    fs::remove_file(&rt, file.as_str())?;
    Ok(())
}
