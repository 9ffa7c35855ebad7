// Reads, writes and seeks that are done again where a signal interrupts them.
ghost use Rattle.std.specs.Prelude.{◌≤◌, length, IfOk};

use std::io::{self, ErrorKind, Read, Seek, SeekFrom, Write};

pub(crate) fn read_through<F: Read>(file: &mut F, into: &mut [u8]) -> io::Result<usize>
    ensures { IfOk result (λ n. n ≤ length into.new) }
{
    for _ in 0..u64::MAX {
        match file.read(into) {
            Err(error) if error.kind() == ErrorKind::Interrupted => {}
            answer => return answer,
        }
    }
    Err(io::Error::from(ErrorKind::Interrupted))
}

pub(crate) fn write_through<F: Write>(file: &mut F, from: &[u8]) -> io::Result<usize>
    ensures { IfOk result (λ n. n ≤ length from.now) }
{
    for _ in 0..u64::MAX {
        match file.write(from) {
            Err(error) if error.kind() == ErrorKind::Interrupted => {}
            answer => return answer,
        }
    }
    Err(io::Error::from(ErrorKind::Interrupted))
}

pub(crate) fn seek_through<F: Seek>(file: &mut F, to: SeekFrom) -> io::Result<u64> {
    for _ in 0..u64::MAX {
        match file.seek(to) {
            Err(error) if error.kind() == ErrorKind::Interrupted => {}
            answer => return answer,
        }
    }
    Err(io::Error::from(ErrorKind::Interrupted))
}
