// A file that is read: a trusted adapter. It tells nothing of content.
ghost use Rattle.std.specs.Prelude.{◌≡◌, ◌≤◌, length, None, IfOk};

use crate::failed::count_fault;
use crate::interrupted::read_through;
use crate::{Failed, Source};
use std::fs::File;
use std::io;
use std::rt::Files;

/// A file that the first take opens.
#[derive(Drop)]
pub struct FileSource<R: Files + Drop> {
    rt: R,
    path: String,
    file: Option<R::File>,
    faults: u64,
}

impl<R: Files + Drop> FileSource<R> {
    /// The file at a path. Where there is none, or it can't be read, the first take fails.
    pub fn new(rt: R, path: String) -> Self
        ensures { ⟦<FileSource<R> as Source>⟧.faults result ≡ 0 }
    {
        FileSource {
            rt,
            path,
            file: None,
            faults: 0,
        }
    }

    fn read(&mut self, into: &mut [u8]) -> io::Result<usize>
        ensures bound { IfOk result (λ n. n ≤ length into.new) }
        ensures faults { self.new.faults ≡ self.old.faults }
    {
        let mut file = match self.file.take() {
            Some(file) => file,
            None => File::open(&self.rt, self.path.as_str())?,
        };
        let read = read_through(&mut file, into);
        self.file = Some(file);
        read
    }
}

impl<R: Files + Drop> Source for FileSource<R> {
    ghost left = { λ _. None };

    ghost faults = { λ s. s.faults };

    ghost loan = { λ _. 0 };

    ghost beside = { λ _. None };

    fn take(&mut self, into: &mut [u8]) -> Result<usize, Failed> {
        match self.read(into) {
            Ok(n) => Ok(n),
            Err(_) => {
                count_fault(&mut self.faults);
                Err(Failed)
            }
        }
    }
}
