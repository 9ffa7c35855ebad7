// A TCP connection: a trusted adapter. It tells nothing of content.
ghost use Rattle.std.specs.Prelude.{◌≡◌, ◌≤◌, length, None, IfOk};

use crate::failed::count_fault;
use crate::interrupted::{read_through, write_through};
use crate::{Failed, Link, Sink, Source};
use std::io;
use std::net::{Net, OpenStream, TcpStream};

/// A TCP connection. A call fails where the connection was refused or reset, or where the other end
/// reads no more. A take waits for the other end, and so does a give where that one doesn't read.
#[derive(Drop)]
pub struct TcpLink<R: Net + Drop> {
    // Whom the first call dials, where that is still to be done.
    to: Option<(R, String)>,
    stream: Option<R::Stream>,
    faults: u64,
}

// Connects, and has each piece sent at once where the system can.
pub(crate) fn connect<R: Net>(rt: &R, address: &str) -> io::Result<R::Stream> {
    let stream = TcpStream::connect(rt, address)?;
    let _ = stream.set_nodelay(true);
    Ok(stream)
}

impl<R: Net + Drop> TcpLink<R> {
    /// The link to an address, a host and a port as in `[::1]:8776`. The first call connects.
    pub fn new(rt: R, address: String) -> Self
        ensures { ⟦<TcpLink<R> as Source>⟧.faults result ≡ 0 }
    {
        TcpLink {
            to: Some((rt, address)),
            stream: None,
            faults: 0,
        }
    }

    // The link over a connection.
    pub(crate) fn over(stream: R::Stream) -> Self
        ensures { ⟦<TcpLink<R> as Source>⟧.faults result ≡ 0 }
    {
        TcpLink {
            to: None,
            stream: Some(stream),
            faults: 0,
        }
    }

    // Moves the connection out, where there is one, and connects else.
    fn take_stream(&mut self) -> io::Result<R::Stream>
        ensures { self.new.faults ≡ self.old.faults }
    {
        match self.stream.take() {
            Some(stream) => Ok(stream),
            None => match &self.to {
                Some((rt, address)) => connect(rt, address.as_str()),
                None => Err(io::Error::from(io::ErrorKind::NotConnected)),
            },
        }
    }

    fn read(&mut self, into: &mut [u8]) -> io::Result<usize>
        ensures bound { IfOk result (λ n. n ≤ length into.new) }
        ensures faults { self.new.faults ≡ self.old.faults }
    {
        let mut stream = self.take_stream()?;
        let read = read_through(&mut stream, into);
        self.stream = Some(stream);
        read
    }

    fn write(&mut self, from: &[u8]) -> io::Result<usize>
        ensures bound { IfOk result (λ n. n ≤ length from.now) }
        ensures faults { self.new.faults ≡ self.old.faults }
    {
        let mut stream = self.take_stream()?;
        let written = write_through(&mut stream, from);
        self.stream = Some(stream);
        written
    }
}

impl<R: Net + Drop> Source for TcpLink<R> {
    ghost left = { λ _. None };

    ghost faults = { λ s. s.faults };

    ghost loan = { λ _. 0 };

    ghost beside = { λ _. None };

    fn take(&mut self, into: &mut [u8]) -> Result<usize, Failed> {
        match self.read(into) {
            Ok(n) => Ok(n),
            Err(_) => {
                count_fault(&mut self.faults);
                Err(Failed)
            }
        }
    }
}

impl<R: Net + Drop> Sink for TcpLink<R> {
    ghost given = { λ _. None };

    ghost faults = { λ s. s.faults };

    ghost loan = { λ _. 0 };

    ghost beside = { λ _. None };

    fn give(&mut self, from: &[u8]) -> Result<usize, Failed> {
        if from.is_empty() {
            return Ok(0);
        }
        match self.write(from) {
            Ok(n) if n > 0 => Ok(n),
            _ => {
                count_fault(&mut self.faults);
                Err(Failed)
            }
        }
    }
}

impl<R: Net + Drop> Link for TcpLink<R> {
    ghost use Rattle.std.proofs.Common.{refl};

    ghost one_count = { λ link. refl };

    ghost one_loan = { λ link. refl };

    ghost take_leaves = { λ link. refl };

    ghost give_leaves = { λ link. refl };
}
