// TCP connections that are made and accepted: a trusted adapter. It tells nothing of them.
ghost use Rattle.std.specs.Prelude.{◌≡◌, None, IfOk};
ghost use Rattle.rad_outside.specs.Causes.{HasCause};

use crate::failed::count_fault;
use crate::tcp_link::connect;
use crate::{Doors, Failed, Source, TcpLink};
use std::io;
use std::net::{Net, OpenListener, OpenStream, SocketAddr, TcpListener};

/// TCP connections to those that are dialed, and from those who dial an address.
#[derive(Drop)]
pub struct TcpDoors<R: Net + Drop> {
    rt: R,
    address: String,
    listener: Option<R::Listener>,
    faults: u64,
}

impl<R: Net + Drop> TcpDoors<R> {
    /// Doors that accept at an address, a host and a port as in `[::]:8776`. Nothing listens there
    /// before the first accept or `listen`; where it can't, that call fails.
    pub fn new(rt: R, address: String) -> Self
        ensures { ⟦<TcpDoors<R> as Doors<TcpLink<R>>>⟧.faults result ≡ 0 }
    {
        TcpDoors {
            rt,
            address,
            listener: None,
            faults: 0,
        }
    }

    /// Listens, if they don't yet, so that others can dial, and answers at which address. At port 0
    /// the system has chosen one.
    pub fn listen(&mut self) -> Result<SocketAddr, Failed>
        ensures cause { HasCause self.old.faults self.new.faults result }
    {
        match self.local_address() {
            Ok(address) => Ok(address),
            Err(_) => {
                count_fault(&mut self.faults);
                Err(Failed)
            }
        }
    }

    // Moves the listener out, where there is one, and makes one else.
    fn take_listener(&mut self) -> io::Result<R::Listener>
        ensures { self.new.faults ≡ self.old.faults }
    {
        match self.listener.take() {
            Some(listener) => Ok(listener),
            None => TcpListener::bind(&self.rt, self.address.as_str()),
        }
    }

    fn local_address(&mut self) -> io::Result<SocketAddr>
        ensures { self.new.faults ≡ self.old.faults }
    {
        let listener = self.take_listener()?;
        let address = listener.local_addr();
        self.listener = Some(listener);
        address
    }

    fn next_stream(&mut self) -> io::Result<R::Stream>
        ensures { self.new.faults ≡ self.old.faults }
    {
        let listener = self.take_listener()?;
        let accepted = listener.accept();
        self.listener = Some(listener);
        let (stream, _) = accepted?;
        let _ = stream.set_nodelay(true);
        Ok(stream)
    }

    // The link over a connection, if there is one.
    fn link_over(&mut self, stream: io::Result<R::Stream>) -> Result<TcpLink<R>, Failed>
        ensures fresh { IfOk result (λ link. ⟦<TcpLink<R> as Source>⟧.faults link ≡ 0) }
        ensures cause { HasCause self.old.faults self.new.faults result }
    {
        match stream {
            Ok(stream) => Ok(TcpLink::over(stream)),
            Err(_) => {
                count_fault(&mut self.faults);
                Err(Failed)
            }
        }
    }
}

impl<R: Net + Drop> Doors<TcpLink<R>> for TcpDoors<R> {
    ghost links = { λ _. None };

    ghost dialed = { λ _. None };

    ghost faults = { λ d. d.faults };

    ghost loan = { λ _. 0 };

    fn dial(&mut self, address: &str) -> Result<TcpLink<R>, Failed> {
        let stream = connect(&self.rt, address);
        self.link_over(stream)
    }

    fn accept(&mut self) -> Result<TcpLink<R>, Failed> {
        let stream = self.next_stream();
        self.link_over(stream)
    }
}
