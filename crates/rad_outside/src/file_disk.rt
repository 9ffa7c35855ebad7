// A file as a disk: a trusted adapter. It tells nothing of content.
ghost use Rattle.std.specs.Prelude.{◌≡◌, None, ⊤};

use crate::failed::count_fault;
use crate::path_file::PathFile;
use crate::{Disk, Failed};
use std::rt::Files;

/// The file at a path as a disk.
///
/// Where there is no file the disk is empty, and the first write makes one. A path that cannot be
/// used, as that of a folder or of a file that may not be read and written, makes the first call
/// fail.
///
/// Once a sync has failed, each later sync of this disk fails: the operating system may have lost
/// bytes that it then counts as written, so that no later sync says anything of them. What another
/// process, or another disk over the same file, syncs and reads is not known to this one.
#[derive(Drop)]
pub struct FileDisk<R: Files + Drop> {
    file: PathFile<R>,
    faults: u64,
}

impl<R: Files + Drop> FileDisk<R> {
    /// The disk of the file at this path. Nothing is opened before the first call.
    pub fn new(rt: R, path: String) -> Self
        ensures { ⟦<FileDisk<R> as Disk>⟧.faults result ≡ 0 }
    {
        FileDisk {
            file: PathFile::new(rt, path),
            faults: 0,
        }
    }
}

impl<R: Files + Drop> Disk for FileDisk<R> {
    ghost reads_as = { λ _. None };

    ghost images = { λ _ _. ⊤ };

    ghost moment = { λ _. 0 };

    ghost images_since = { λ _ _ _. ⊤ };

    ghost faults = { λ d. d.faults };

    ghost loan = { λ _. 0 };

    ghost reads_image = { λ _. tt };

    ghost counts_now = { λ _ _ _ _ _. tt };

    ghost only_now = { λ _ _ _. tt };

    fn size(&mut self) -> Result<u64, Failed> {
        match self.file.size() {
            Ok(size) => Ok(size),
            Err(_) => {
                count_fault(&mut self.faults);
                Err(Failed)
            }
        }
    }

    fn read_at(&mut self, place: u64, into: &mut [u8]) -> Result<usize, Failed> {
        match self.file.read_at(place, into) {
            Ok(n) => Ok(n),
            Err(_) => {
                count_fault(&mut self.faults);
                Err(Failed)
            }
        }
    }

    fn write_at(&mut self, place: u64, bytes: &[u8]) -> Result<(), Failed> {
        match self.file.write_at(place, bytes) {
            Ok(()) => Ok(()),
            Err(_) => {
                count_fault(&mut self.faults);
                Err(Failed)
            }
        }
    }

    fn sync(&mut self) -> Result<(), Failed> {
        match self.file.sync() {
            Ok(()) => Ok(()),
            Err(_) => {
                count_fault(&mut self.faults);
                Err(Failed)
            }
        }
    }
}
