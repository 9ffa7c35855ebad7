// A file and its folder as a test stands in for them: they write down what they are asked, move few
// bytes at a time, and fail where the test says so.
use std::alloc::Global;
use std::cell::{Cell, RefCell};
use std::fs::{Metadata, OpenFile, OpenOptions};
use std::io::{self, Error, ErrorKind, Read, Seek, SeekFrom, Write};
use std::rt::Files;

/// The path of the file.
pub(crate) const FILE: &str = "folder/file";

/// What was asked.
#[derive(Clone, Copy, Debug, PartialEq, Eq)]
pub(crate) enum Asked {
    /// To open the file: read, write, append, truncate, create, create anew.
    Open([bool; 6]),
    /// To open its folder, with these.
    OpenFolder([bool; 6]),
    /// To open anything else.
    OpenOther,
    /// To go to a place, or to the end.
    Seek(u64),
    SeekEnd,
    /// To read at a place so many bytes, to write there so many.
    Read(u64, usize),
    Write(u64, usize),
    SetLength(u64),
    Sync,
    SyncFolder,
}

/// How a call fails, by its number from 0: a signal interrupts what a signal may interrupt.
#[derive(Clone, Copy, Debug, PartialEq, Eq)]
pub(crate) enum Fails {
    Never,
    Breaks(u64),
    Interrupted(u64),
}

/// What the file holds, what was asked, and how it behaves.
#[derive(Drop)]
pub(crate) struct Fake {
    asked: RefCell<Vec<Asked>>,
    bytes: RefCell<Vec<u8>>,
    is_made: Cell<bool>,
    calls: Cell<u64>,
    fails: Fails,
    /// How many bytes one read or write moves at most.
    most: usize,
}

impl Fake {
    /// A file that is there where it has bytes.
    pub(crate) fn new(alloc: Global, bytes: Vec<u8>, most: usize, fails: Fails) -> Self {
        let is_made = !bytes.is_empty();
        Fake {
            asked: RefCell::new(Vec::new(alloc)),
            bytes: RefCell::new(bytes),
            is_made: Cell::new(is_made),
            calls: Cell::new(0),
            fails,
            most,
        }
    }

    /// How many calls there were.
    pub(crate) fn calls(&self) -> u64 {
        self.calls.get()
    }

    /// What was asked since it was last taken.
    pub(crate) fn take_asked(&self, alloc: Global) -> Vec<Asked> {
        match self.asked.try_replace(Vec::new(alloc)) {
            Ok(asked) => asked,
            Err(_) => Vec::new(alloc),
        }
    }

    /// What the file holds.
    pub(crate) fn bytes(&self, alloc: Global) -> io::Result<Vec<u8>> {
        match self.bytes.try_borrow() {
            Ok(bytes) => Ok(bytes.to_vec(alloc)?),
            Err(_) => Err(Error::from(ErrorKind::Other)),
        }
    }

    // Writes down what is asked, and fails where it is to.
    fn begin(&self, asked: Asked) -> io::Result<()> {
        let call = self.calls.get();
        self.calls.set(call.saturating_add(1));
        match self.asked.try_borrow_mut() {
            Ok(mut list) => list.push(asked)?,
            Err(_) => return Err(Error::from(ErrorKind::Other)),
        }
        let stops = matches!(
            asked,
            Asked::Seek(_) | Asked::SeekEnd | Asked::Read(..) | Asked::Write(..)
        );
        match self.fails {
            Fails::Breaks(n) if n == call => Err(Error::from(ErrorKind::Other)),
            Fails::Interrupted(n) if n == call && stops => Err(Error::from(ErrorKind::Interrupted)),
            _ => Ok(()),
        }
    }

    fn length(&self) -> u64 {
        match self.bytes.try_borrow() {
            Ok(bytes) => bytes.len() as u64,
            Err(_) => 0,
        }
    }

    // Gives the bytes from a place on.
    fn read(&self, place: u64, into: &mut [u8]) -> usize {
        let Ok(bytes) = self.bytes.try_borrow() else {
            return 0;
        };
        let mut moved = 0;
        for at in 0..into.len().min(self.most) {
            let from = (place as usize).saturating_add(at);
            if let (Some(byte), Some(slot)) = (bytes.get(from), into.get_mut(at)) {
                *slot = *byte;
                moved = at + 1;
            }
        }
        moved
    }

    fn write(&self, place: u64, from: &[u8]) -> io::Result<usize> {
        let Ok(mut guard) = self.bytes.try_borrow_mut() else {
            return Err(Error::from(ErrorKind::Other));
        };
        let bytes = &mut *guard;
        let count = from.len().min(self.most);
        let end = (place as usize).saturating_add(count);
        if bytes.len() < end {
            bytes.resize(end, 0)?;
        }
        for at in 0..count {
            let to = (place as usize).saturating_add(at);
            if let (Some(byte), Some(slot)) = (from.get(at), bytes.get_mut(to)) {
                *slot = *byte;
            }
        }
        Ok(count)
    }

    fn set_length(&self, size: u64) -> io::Result<()> {
        match self.bytes.try_borrow_mut() {
            Ok(mut bytes) => Ok(bytes.resize(size as usize, 0)?),
            Err(_) => Err(Error::from(ErrorKind::Other)),
        }
    }
}

/// The files of a fake.
#[derive(Clone, Copy, Drop)]
pub(crate) struct FakeFiles<'a>(pub(crate) &'a Fake);

/// The file, or its folder, as it was opened.
#[derive(Drop)]
pub(crate) struct Opened<'a> {
    fake: &'a Fake,
    is_folder: bool,
    place: u64,
}

/// No folder is listed.
#[derive(Drop)]
pub(crate) struct NoNames;

impl Read for NoNames {
    fn read(&mut self, _: &mut [u8]) -> io::Result<usize> {
        Ok(0)
    }
}

fn unsupported<T>() -> io::Result<T> {
    Err(Error::from(ErrorKind::Unsupported))
}

impl<'a> Files for FakeFiles<'a> {
    type File = Opened<'a>;

    type Dir = NoNames;

    fn open_file(&self, how: &OpenOptions, path: &str) -> io::Result<Opened<'a>> {
        let flags = [
            how.asks_read(),
            how.asks_write(),
            how.asks_append(),
            how.asks_truncate(),
            how.asks_create(),
            how.asks_create_new(),
        ];
        let asked = match path {
            FILE => Asked::Open(flags),
            "folder" => Asked::OpenFolder(flags),
            _ => Asked::OpenOther,
        };
        self.0.begin(asked)?;
        let is_folder = path != FILE;
        if !is_folder && !self.0.is_made.get() {
            if !how.asks_create() {
                return Err(Error::from(ErrorKind::NotFound));
            }
            self.0.is_made.set(true);
        }
        if !is_folder && how.asks_truncate() {
            self.0.set_length(0)?;
        }
        Ok(Opened {
            fake: self.0,
            is_folder,
            place: 0,
        })
    }

    fn open_dir(&self, _: &str) -> io::Result<NoNames> {
        unsupported()
    }

    fn metadata(&self, _: &str) -> io::Result<Metadata> {
        unsupported()
    }

    fn symlink_metadata(&self, _: &str) -> io::Result<Metadata> {
        unsupported()
    }

    fn copy(&self, _: &str, _: &str) -> io::Result<u64> {
        unsupported()
    }

    fn rename(&self, _: &str, _: &str) -> io::Result<()> {
        unsupported()
    }

    fn remove_file(&self, _: &str) -> io::Result<()> {
        unsupported()
    }

    fn create_dir(&self, _: &str) -> io::Result<()> {
        unsupported()
    }

    fn remove_dir(&self, _: &str) -> io::Result<()> {
        unsupported()
    }

    fn remove_dir_all<B: std::alloc::Allocator>(&self, _: B, _: &str) -> io::Result<()> {
        unsupported()
    }
}

impl OpenFile for Opened<'_> {
    fn metadata(&self) -> io::Result<Metadata> {
        unsupported()
    }

    fn set_len(&self, size: u64) -> io::Result<()> {
        self.fake.begin(Asked::SetLength(size))?;
        self.fake.set_length(size)
    }

    fn sync_all(&self) -> io::Result<()> {
        if self.is_folder {
            self.fake.begin(Asked::SyncFolder)
        } else {
            self.fake.begin(Asked::Sync)
        }
    }

    fn sync_data(&self) -> io::Result<()> {
        unsupported()
    }
}

impl Read for Opened<'_> {
    fn read(&mut self, into: &mut [u8]) -> io::Result<usize> {
        self.fake.begin(Asked::Read(self.place, into.len()))?;
        let n = self.fake.read(self.place, into).min(into.len());
        self.place = self.place.saturating_add(n as u64);
        Ok(n)
    }
}

impl Write for Opened<'_> {
    fn write(&mut self, from: &[u8]) -> io::Result<usize> {
        self.fake.begin(Asked::Write(self.place, from.len()))?;
        let n = self.fake.write(self.place, from)?.min(from.len());
        self.place = self.place.saturating_add(n as u64);
        Ok(n)
    }

    fn flush(&mut self) -> io::Result<()> {
        Ok(())
    }
}

impl Seek for Opened<'_> {
    fn seek(&mut self, to: SeekFrom) -> io::Result<u64> {
        match to {
            SeekFrom::Start(place) => {
                self.fake.begin(Asked::Seek(place))?;
                self.place = place;
            }
            _ => {
                self.fake.begin(Asked::SeekEnd)?;
                self.place = self.fake.length();
            }
        }
        Ok(self.place)
    }
}
