// Progress of a long read: one line on standard error, of how much is read and how fast.
use rad_outside::{Failed, Source};
use std::io::IsTerminal;
use std::time::Instant;
use std::{env, fmt, fs};

const MIB: u64 = 1_048_576;

// A read of fewer MiB is not long.
const LONG: u64 = 8;

// What covers the longest line.
const NOTHING: &str = "                                                        ";

// What is told of a read: bytes of all bytes, 0 where their number is not known, and milliseconds.
#[derive(Drop)]
struct Told {
    read: u64,
    all: u64,
    millis: u64,
}

impl fmt::Display for Told {
    fn fmt<W: fmt::Write>(&self, f: &mut fmt::Formatter<W>) -> fmt::Result {
        let read = self.read / MIB;
        let rate = read.saturating_mul(1000) / self.millis.max(1);
        if self.all < self.read {
            return write!(f, "read {read} MiB, {rate} MiB/s");
        }
        let all = self.all.div_ceil(MIB);
        write!(f, "read {read} of {all} MiB, {rate} MiB/s")
    }
}

/// The line of a read. The cursor stands at its begin, so that what is printed next covers it.
#[derive(Drop)]
pub(crate) struct Progress {
    rt: HostRuntime,
    all: u64,
    read: u64,
    // When the first bytes had come.
    start: Option<Instant>,
    // The MiB that the line tells; 0 where no line stands.
    shown: u64,
}

impl Progress {
    /// The line of reading the file at a path. None where standard error is no terminal, NO_COLOR
    /// is set, or TERM is dumb.
    pub(crate) fn of_file(rt: &HostRuntime, path: &str) -> Option<Progress> {
        if !rt.stderr().is_terminal() || is_plain(rt) {
            return None;
        }
        let all = match fs::metadata(rt, path) {
            Ok(found) => found.len(),
            Err(_) => 0,
        };
        Some(Progress {
            rt: *rt,
            all,
            read: 0,
            start: None,
            shown: 0,
        })
    }

    // What a take gave. The end and a failed take end the line.
    fn tell(&mut self, taken: Option<usize>) {
        match taken {
            Some(n) if n > 0 => self.add(n),
            _ => self.clear(),
        }
    }

    // Counts what a take gave. The line is written anew at each MiB.
    fn add(&mut self, n: usize) {
        let Ok(now) = Instant::now(&self.rt) else {
            return;
        };
        let start = match self.start {
            Some(start) => start,
            None => now,
        };
        self.start = Some(start);
        self.read = self.read.saturating_add(n as u64);
        let whole = self.read / MIB;
        if whole >= LONG && whole > self.shown {
            self.shown = whole;
            self.show(start, now);
        }
    }

    fn show(&self, start: Instant, now: Instant) {
        let millis = now.duration_since(start).as_millis();
        let told = Told {
            read: self.read,
            all: self.all,
            millis: u64::try_from(millis).unwrap_or(u64::MAX),
        };
        // The blanks cover the end of a longer line that stood there.
        let _ = eprint!(self.rt; "{told}        \r");
    }

    fn clear(&mut self) {
        if self.shown > 0 {
            self.shown = 0;
            let _ = eprint!(self.rt; "{NOTHING}\r");
        }
    }
}

// Whether the environment asks for no such line.
fn is_plain(rt: &HostRuntime) -> bool {
    let without_color = match env::var(rt, "NO_COLOR") {
        Ok(text) => !text.is_empty(),
        Err(_) => false,
    };
    let dumb = match env::var(rt, "TERM") {
        Ok(text) => text.as_str() == "dumb",
        Err(_) => false,
    };
    without_color || dumb
}

/// A source that is what it stands for; its progress is shown beside.
#[derive(Drop)]
pub(crate) struct Watched<S: Source + Drop> {
    source: S,
    progress: Option<Progress>,
}

impl<S: Source + Drop> Watched<S> {
    /// A source that is shown where there is a line for it.
    pub(crate) fn new(source: S, progress: Option<Progress>) -> Self {
        Watched { source, progress }
    }

    /// Takes the line away.
    pub(crate) fn clear(&mut self) {
        if let Some(progress) = &mut self.progress {
            progress.clear();
        }
    }
}

impl<S: Source + Drop> Source for Watched<S> {
    ghost left = { λ s. S.left s.source };

    ghost faults = { λ s. S.faults s.source };

    ghost loan = { λ s. S.loan s.source };

    ghost beside = { λ s. S.beside s.source };

    fn take(&mut self, into: &mut [u8]) -> Result<usize, Failed> {
        let taken = self.source.take(into);
        if let Some(progress) = &mut self.progress {
            progress.tell(taken.ok());
        }
        taken
    }
}

#[cfg(test)]
mod tests {
    use super::*;
    use std::test::Fail;

    #[test]
    fn a_line_tells_bytes_and_rate(rt: HostRuntime) -> Result<(), Fail> {
        for (read, all, millis, want) in [
            (8 * MIB, 64 * MIB, 0, "read 8 of 64 MiB, 8000 MiB/s"),
            (9 * MIB + 1, 9 * MIB + 2, 2000, "read 9 of 10 MiB, 4 MiB/s"),
            (64 * MIB, 64 * MIB, 640, "read 64 of 64 MiB, 100 MiB/s"),
            (10 * MIB, 0, 1000, "read 10 MiB, 10 MiB/s"),
            (
                u64::MAX,
                1,
                1,
                "read 17592186044415 MiB, 17592186044415000 MiB/s",
            ),
        ] {
            let told = Told { read, all, millis };
            let line = format!(in rt.alloc(); "{told}")?;
            assert_eq!(rt; line.as_str(), want);
        }
        Ok(())
    }
}
