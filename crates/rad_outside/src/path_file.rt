// The file at a path, which need not be there before the first write.
ghost use Rattle.std.specs.Prelude.{◌≤◌, length, IfOk};

use crate::interrupted::{read_through, seek_through};
use std::fs::{File, OpenFile, OpenOptions};
use std::io::{self, Read, Seek, SeekFrom, Write};
use std::path::Path;
use std::rt::Files;

#[derive(Drop)]
pub(crate) struct PathFile<R: Files + Drop> {
    rt: R,
    path: String,
    // None as long as no file was found or made.
    file: Option<R::File>,
    folder_synced: bool,
    sync_failed: bool,
}

impl<R: Files + Drop> PathFile<R> {
    pub(crate) fn new(rt: R, path: String) -> Self {
        PathFile {
            rt,
            path,
            file: None,
            folder_synced: false,
            sync_failed: false,
        }
    }

    pub(crate) fn size(&mut self) -> io::Result<u64> {
        match self.found()? {
            Some(file) => seek_through(file, SeekFrom::End(0)),
            None => Ok(0),
        }
    }

    pub(crate) fn read_at(&mut self, place: u64, into: &mut [u8]) -> io::Result<usize>
        ensures { IfOk result (λ n. n ≤ length into.new) }
    {
        match self.found()? {
            Some(file) => {
                seek_through(file, SeekFrom::Start(place))?;
                fill(file, into)
            }
            None => Ok(0),
        }
    }

    pub(crate) fn write_at(&mut self, place: u64, bytes: &[u8]) -> io::Result<()> {
        let file = self.found_or_made()?;
        if bytes.is_empty() {
            return lengthen(file, place);
        }
        seek_through(file, SeekFrom::Start(place))?;
        file.write_all(bytes)?;
        file.flush()
    }

    // Where one has failed each later one fails: the system may have lost the bytes, and count them
    // as written.
    pub(crate) fn sync(&mut self) -> io::Result<()> {
        if self.sync_failed {
            return Err(io::Error::from(io::ErrorKind::Other));
        }
        let done = self.sync_bytes_and_name();
        self.sync_failed = done.is_err();
        done
    }

    // The first sync of a file makes its name last too.
    fn sync_bytes_and_name(&mut self) -> io::Result<()> {
        match self.found()? {
            Some(file) => file.sync_all()?,
            None => return Ok(()),
        }
        if !self.folder_synced {
            sync_folder(&self.rt, self.path.as_str())?;
            self.folder_synced = true;
        }
        Ok(())
    }

    // The file, if there is one.
    fn found(&mut self) -> io::Result<Option<&mut R::File>> {
        if self.file.is_none() {
            self.file = open_if_there(&self.rt, self.path.as_str())?;
        }
        Ok(self.file.as_mut())
    }

    fn found_or_made(&mut self) -> io::Result<&mut R::File> {
        let file = match self.file.take() {
            Some(file) => file,
            None => open_or_make(&self.rt, self.path.as_str())?,
        };
        Ok(self.file.insert(file))
    }
}

fn open_if_there<R: Files + Drop>(rt: &R, path: &str) -> io::Result<Option<R::File>> {
    match OpenOptions::new().read(true).write(true).open(rt, path) {
        Ok(file) => Ok(Some(file)),
        Err(error) if error.kind() == io::ErrorKind::NotFound => Ok(None),
        Err(error) => Err(error),
    }
}

fn open_or_make<R: Files + Drop>(rt: &R, path: &str) -> io::Result<R::File> {
    OpenOptions::new()
        .read(true)
        .write(true)
        .create(true)
        .open(rt, path)
}

// Fills the buffer from where the file stands, with fewer bytes only at the end.
fn fill<F: Read>(file: &mut F, into: &mut [u8]) -> io::Result<usize>
    ensures { IfOk result (λ n. n ≤ length into.new) }
{
    let mut filled = 0;
    'filling: while filled < into.len() {
        let n = read_through(file, &mut into[filled..])?;
        if n == 0 {
            break;
        }
        filled += n;
    }
    Ok(filled)
}

// An empty write past the end moves the end too.
fn lengthen<F: Seek + OpenFile>(file: &mut F, place: u64) -> io::Result<()> {
    if seek_through(file, SeekFrom::End(0))? < place {
        file.set_len(place)?;
    }
    Ok(())
}

fn sync_folder<R: Files + Drop>(rt: &R, path: &str) -> io::Result<()> {
    let folder = match Path::new(path).parent() {
        Some(folder) if !folder.as_str().is_empty() => folder.as_str(),
        _ => ".",
    };
    File::open(rt, folder)?.sync_all()
}
