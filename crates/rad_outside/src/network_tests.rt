// Connections over the loopback address, links that are dialed and accepted, and clocks.
ghost use Rattle.std.specs.Prelude.{◌≡◌, IfOk};

use crate::{
    Clock, Doors, Failed, Link, MemClock, MemDoors, MemLink, Sink, Source, SysClock, TcpDoors,
    TcpLink,
};
use std::alloc::Global;
use std::io::{self, Read, Write};
use std::net::TcpListener;
use std::test::Fail;
use std::time::{self, Duration};

// A value that another thread may have.
fn hand_over<T: Send>(value: T) -> T {
    value
}

// A link whose other end says one byte.
fn link_saying(alloc: Global, byte: u8) -> io::Result<MemLink>
    ensures { IfOk result (λ link. ⟦<MemLink as Source>⟧.faults link ≡ 0) }
{
    let input = vec![in alloc; byte]?;
    Ok(MemLink::new(alloc, input, 1, vec![in alloc]?))
}

// The first byte of a link.
fn first_byte<L: Link + Drop>(link: Result<L, Failed>) -> Result<u8, Failed> {
    let mut link = link?;
    let mut into = [0u8; 1];
    link.take(&mut into)?;
    Ok(into[0])
}

// Dials, or accepts where there is no address, and reads the first byte.
fn open<L: Link + Drop, D: Doors<L>>(doors: &mut D, address: Option<&str>) -> Result<u8, Failed> {
    match address {
        Some(address) => first_byte(doors.dial(address)),
        None => first_byte(doors.accept()),
    }
}

#[test]
fn doors_in_memory(rt: HostRuntime) -> Result<(), Fail> {
    let alloc = rt.alloc();
    let a = link_saying(alloc, b'a')?;
    let b = link_saying(alloc, b'b')?;
    let c = link_saying(alloc, b'c')?;
    let d = link_saying(alloc, b'd')?;
    let links = vec![in alloc; a, b, c, d]?;
    let mut doors = MemDoors::new(alloc, links, vec![in alloc; 1u64, 4]?);
    for (address, want) in [
        (Some("one:1"), Ok(b'a')),
        (None, Err(Failed)),
        (None, Ok(b'b')),
        (Some("two:2"), Ok(b'c')),
        (Some("three:3"), Err(Failed)),
        (Some("four:4"), Ok(b'd')),
        (Some("five:5"), Err(Failed)),
        (None, Err(Failed)),
    ] {
        assert_eq!(rt; open(&mut &mut doors, address), want, "{address:?}");
    }
    let dialed = doors.dialed();
    assert_eq!(rt; dialed.len(), 3);
    for (was, want) in dialed.iter().zip(["one:1", "two:2", "four:4"]) {
        assert_eq!(rt; was.as_str(), want);
    }
    Ok(())
}

// What a clock gives twice.
fn read_twice<C: Clock>(clock: &mut C) -> (u64, u64) {
    let first = clock.now_ms();
    (first, clock.now_ms())
}

// A clock of the system that stands at a time, or can't be read.
#[derive(Clone, Copy, Drop)]
struct FakeClock(Option<Duration>);

impl time::Clock for FakeClock {
    fn monotonic(&self) -> io::Result<Duration> {
        Err(io::Error::from(io::ErrorKind::Unsupported))
    }

    fn since_1970(&self) -> io::Result<Duration> {
        match self.0 {
            Some(since) => Ok(since),
            None => Err(io::Error::from(io::ErrorKind::Other)),
        }
    }
}

#[test]
fn clocks(rt: HostRuntime) -> Result<(), Fail> {
    let mut stands = MemClock::new(1_700_000_000_123);
    assert_eq!(rt;
        read_twice(&mut &mut stands),
        (1_700_000_000_123, 1_700_000_000_123)
    );
    for (since, want) in [
        (Some(Duration::new(5, 7_999_999)), 5_007),
        (Some(Duration::ZERO), 0),
        (None, 0),
    ] {
        let mut clock = SysClock::new(FakeClock(since));
        assert_eq!(rt; read_twice(&mut clock), (want, want));
    }

    // Later than the first second of 2024.
    let (first, second) = read_twice(&mut SysClock::new(rt));
    assert!(rt; first > 1_704_067_200_000);
    assert!(rt; second > 1_704_067_200_000);
    Ok(())
}

// Nobody listens there, and the system gives that port to nobody who dials.
const NOWHERE: &str = "127.0.0.1:1";

// Fills a buffer with what comes, in however many pieces, and answers how many bytes came before the
// end.
fn take_all<S: Source>(source: &mut S, into: &mut [u8]) -> Result<usize, Failed> {
    let mut filled = 0;
    for _ in 0..into.len() {
        if filled < into.len() {
            filled += source.take(&mut into[filled..])?;
        }
    }
    Ok(filled)
}

// Takes what comes up to the end. Whether the link failed in place of one.
fn is_reset<S: Source>(source: &mut S) -> bool {
    let mut into = [0u8; 8];
    for _ in 0..u64::MAX {
        match source.take(&mut into) {
            Ok(0) => return false,
            Ok(_) => {}
            Err(Failed) => return true,
        }
    }
    false
}

// Gives until the link fails. False: it never did.
fn is_shut<S: Sink>(sink: &mut S) -> bool {
    for _ in 0..u64::MAX {
        if sink.give(b"again").is_err() {
            return true;
        }
    }
    false
}

// A listener at a port of the system's choice, and its address.
fn listening(rt: HostRuntime) -> Result<(TcpListener, String), Fail> {
    let listener = TcpListener::bind(&rt, "127.0.0.1:0")?;
    let local = listener.local_addr()?;
    let address = format!(in rt.alloc(); "{local}")?;
    Ok((listener, address))
}

#[test]
fn a_connection_is_made_by_the_first_call(rt: HostRuntime) -> Result<(), Fail> {
    let (listener, address) = listening(rt)?;
    let mut into = [0u8; 8];
    let mut link = hand_over(TcpLink::new(rt, address));
    assert_eq!(rt; link.give(b""), Ok(0));
    assert_eq!(rt; link.give(b"ask"), Ok(3));
    let (mut other, _) = listener.accept()?;
    other.read_exact(&mut into[..3])?;
    assert_eq!(rt; into, *b"ask\0\0\0\0\0");
    other.write_all(b"an answer")?;
    assert_eq!(rt; take_all(&mut link, &mut into), Ok(8));
    assert_eq!(rt; into, *b"an answe");
    drop(other);
    assert_eq!(rt; take_all(&mut link, &mut into), Ok(1));
    assert_eq!(rt; into[0], b'r');
    assert_eq!(rt; link.take(&mut into), Ok(0));
    Ok(())
}

// The other end goes while some of what came is unread: the connection is reset, and nobody reads
// any more.
#[test]
fn a_connection_that_is_reset(rt: HostRuntime) -> Result<(), Fail> {
    let (listener, address) = listening(rt)?;
    let mut link = TcpLink::new(rt, address);
    assert_eq!(rt; link.give(b"ask"), Ok(3));
    let (mut other, _) = listener.accept()?;
    other.read_exact(&mut [0u8; 1])?;
    drop(other);
    assert!(rt; is_reset(&mut link));
    assert!(rt; is_shut(&mut link));
    Ok(())
}

#[test]
fn nobody_listens_or_no_such_address(rt: HostRuntime) -> Result<(), Fail> {
    let mut into = [0u8; 8];
    for nowhere in [NOWHERE, "127.0.0.1", "nowhere.invalid:x"] {
        let mut link = TcpLink::new(rt, nowhere.to_string(rt.alloc())?);
        assert_eq!(rt; link.give(b"ask"), Err(Failed), "{nowhere}");
        assert_eq!(rt; link.take(&mut into), Err(Failed), "{nowhere}");
    }
    Ok(())
}

// A failure of the system's.
fn refused() -> Fail {
    Fail::from(io::Error::from(io::ErrorKind::Other))
}

#[test]
fn doors_of_connections(rt: HostRuntime) -> Result<(), Fail> {
    let alloc = rt.alloc();
    let mut doors = hand_over(TcpDoors::new(rt, "127.0.0.1:0".to_string(alloc)?));
    let Ok(local) = doors.listen() else {
        return Err(refused());
    };
    assert_eq!(rt; doors.listen(), Ok(local));
    let address = format!(in alloc; "{local}")?;
    let (Ok(mut dialed), Ok(mut accepted)) = (doors.dial(address.as_str()), doors.accept()) else {
        return Err(refused());
    };
    let mut into = [0u8; 4];
    assert_eq!(rt; accepted.give(b"pong"), Ok(4));
    assert_eq!(rt; dialed.give(b"ping"), Ok(4));
    assert_eq!(rt; take_all(&mut accepted, &mut into), Ok(4));
    assert_eq!(rt; into, *b"ping");
    assert_eq!(rt; take_all(&mut dialed, &mut into), Ok(4));
    assert_eq!(rt; into, *b"pong");
    drop(dialed);
    assert_eq!(rt; accepted.take(&mut into), Ok(0));
    Ok(())
}

// Who cannot listen where another does can dial there. Nobody answers where nobody listens.
#[test]
fn doors_that_cannot_listen(rt: HostRuntime) -> Result<(), Fail> {
    let alloc = rt.alloc();
    let mut doors = TcpDoors::new(rt, "127.0.0.1:0".to_string(alloc)?);
    let Ok(local) = doors.listen() else {
        return Err(refused());
    };
    let address = format!(in alloc; "{local}")?;
    let mut second = TcpDoors::new(rt, address.clone()?);
    assert!(rt; second.accept().is_err());
    assert_eq!(rt; open(&mut doors, Some(NOWHERE)), Err(Failed));
    let (Ok(mut dialed), Ok(mut accepted)) = (second.dial(address.as_str()), doors.accept()) else {
        return Err(refused());
    };
    let mut into = [0u8; 4];
    assert_eq!(rt; dialed.give(b"more"), Ok(4));
    assert_eq!(rt; take_all(&mut accepted, &mut into), Ok(4));
    assert_eq!(rt; into, *b"more");
    let mut nowhere = TcpDoors::new(rt, "nowhere".to_string(alloc)?);
    assert_eq!(rt; open(&mut nowhere, None), Err(Failed));
    Ok(())
}
