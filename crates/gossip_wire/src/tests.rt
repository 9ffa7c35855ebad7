// Each call that wants memory where there is enough, and links that end and fail.
ghost use Rattle.std.specs.Prelude.{IfOk};
ghost use Rattle.gossip_wire.specs.Frames.{IsBody};

use crate::bodies::are_bytes;
use crate::{
    Body, Frame, FrameFault, FrameReader, Message, Wire, WireFault, WriteFault, read_message,
    write_frame, write_message,
};
use rad_base::Bytes;
use rad_outside::{Failed, Link, MemLink};
use std::alloc::Global;
use std::test::Fail;

// Two pings: the first has 12 bytes, the second, on stream 66, 13.
const PINGS: &[u8] = b"726164010206000a0004000072616401404206000a00000000";

// Whether runs of digits are a message, which writes them again.
fn is_message(alloc: Global, runs: &[(&[u8], usize)]) -> Result<bool, Fail> {
    let mut bytes = Vec::new(alloc);
    for (digits, times) in runs {
        let run = hex::decode(alloc, *digits)?;
        for _ in 0..*times {
            bytes.extend_from_slice(&run)?;
        }
    }
    match read_message(alloc, &bytes) {
        Ok(message) => Ok(write_message(alloc, &message)? == bytes),
        Err(_) => Ok(false),
    }
}

#[test]
fn a_message_of_each_type(rt: HostRuntime) -> Result<(), Fail> {
    let about = b"0000000000000001000000000000000705616c6961730103613a31".as_slice();
    let time = b"0000000000000007".as_slice();
    let one = b"0001".as_slice();
    let fill = b"21".as_slice();
    let rows: &[&[(&[u8], usize)]] = &[
        &[(b"0001", 1), (fill, 32)],
        &[(b"0002", 1), (fill, 96), (about, 1)],
        &[(b"0004", 1), (fill, 96), (one, 1), (fill, 20), (time, 1)],
        &[(b"0006", 1), (fill, 116), (one, 1), (fill, 52), (time, 1)],
        &[(b"00080400", 1), (fill, 1024), (time, 2)],
        &[(b"000a0004000100", 1)],
        &[(b"000c000100", 1)],
    ];
    for runs in rows {
        assert!(rt; is_message(rt.alloc(), runs)?);
    }
    assert!(rt; !is_message(rt.alloc(), &[(b"000c000121", 1)])?);
    Ok(())
}

// The places and numbers of frames.
fn told(alloc: Global, frames: &[(u64, Frame)]) -> Result<Vec<(u64, u64)>, Fail> {
    let mut told = Vec::new(alloc);
    for (place, frame) in frames {
        told.push((*place, frame.number))?;
    }
    Ok(told)
}

// A frame of each kind, at 0, 8 and 20, and one of kind 3, whose stream is at 33.
#[test]
fn frames_in_two_pieces(rt: HostRuntime) -> Result<(), Fail> {
    let alloc = rt.alloc();
    let front = hex::decode(alloc, b"72616401000200057261")?;
    let back = hex::decode(alloc, b"64010206000a00040000726164011d036162637261640106")?;
    let mut reader = FrameReader::new(alloc);
    match reader.feed(alloc, &front) {
        Ok(frames) => assert_eq!(rt; told(alloc, &frames)?.as_slice(), [(0, 0)].as_slice()),
        Err(_) => return Err(Fail::new("refused")),
    }
    assert_eq!(rt; reader.unfinished(), Some(8));
    let fault = FrameFault::BadKind(33);
    assert_eq!(rt; reader.feed(alloc, &back).err(), Some(fault));
    assert_eq!(rt;
        told(alloc, reader.before())?.as_slice(),
        [(8, 0), (20, 3)].as_slice()
    );
    assert_eq!(rt; reader.feed(alloc, &back).err(), Some(fault));
    Ok(())
}

// A body of git's bytes.
fn git(alloc: Global, bytes: &[u8]) -> Result<Body, Fail>
    ensures { IfOk result (λ body. IsBody body) }
{
    are_bytes(bytes);
    Ok(Body::Git(Bytes::copy_of(alloc, bytes)?))
}

#[test]
fn frames_are_written(rt: HostRuntime) -> Result<(), Fail> {
    let alloc = rt.alloc();
    let pong = Frame {
        number: 0,
        side: 1,
        body: Body::Gossip(Message::Pong { zeros: 4 }),
    };
    let text = hex::encode(alloc, write_frame(alloc, &pong)?)?;
    assert_eq!(rt; text.as_str(), "726164010308000c000400000000");
    let number = 1 << 59;
    let body = git(alloc, b"abc")?;
    let unsaid = Frame {
        number,
        side: 1,
        body,
    };
    assert_eq!(rt;
        write_frame(alloc, &unsaid).err(),
        Some(WriteFault::TooLong)
    );
    let body = git(alloc, b"abc")?;
    let frame = Frame {
        number: 3,
        side: 1,
        body,
    };
    let text = hex::encode(alloc, write_frame(alloc, &frame)?)?;
    assert_eq!(rt; text.as_str(), "726164011d03616263");
    Ok(())
}

// The place and number of the next frame.
fn step<L: Link + Drop>(
    wire: &mut Wire<L>,
    alloc: Global,
) -> Result<Option<(u64, u64)>, WireFault> {
    match wire.next(alloc)? {
        Some((place, frame)) => Ok(Some((place, frame.number))),
        None => Ok(None),
    }
}

// A link with the pings, in pieces of 5 bytes. The calls listed fail.
fn link_of(alloc: Global, fails: &[u64]) -> Result<MemLink, Fail> {
    let bytes = hex::decode(alloc, PINGS)?;
    Ok(MemLink::new(alloc, bytes, 5, fails.to_vec(alloc)?))
}

#[test]
fn a_link_that_fails(rt: HostRuntime) -> Result<(), Fail> {
    let alloc = rt.alloc();
    let mut link = link_of(alloc, &[0, 2, 5, 6])?;
    let mut wire = Wire::new(alloc, &mut link, 99);
    let fails = Err(WireFault::LinkFault);
    for want in [
        fails,
        fails,
        Ok(Some((0, 0))),
        fails,
        fails,
        Ok(Some((12, 8))),
        Ok(None),
    ] {
        assert_eq!(rt; step(&mut wire, alloc), want);
    }
    Ok(())
}

#[test]
fn a_budget_that_is_raised(rt: HostRuntime) -> Result<(), Fail> {
    let alloc = rt.alloc();
    let mut wire = Wire::new(alloc, link_of(alloc, &[])?, 5);
    let too_long = Err(WireFault::TooLong);
    for (budget, want) in [
        (11, too_long),
        (12, Ok(Some((0, 0)))),
        (3, too_long),
        (24, too_long),
        (25, Ok(Some((12, 8)))),
        (0, Ok(None)),
    ] {
        wire.raise(budget);
        assert_eq!(rt; step(&mut wire, alloc), want, "{budget}");
    }
    Ok(())
}

#[test]
fn sends_and_closes(rt: HostRuntime) -> Result<(), Fail> {
    let alloc = rt.alloc();
    let mut wire = Wire::new(alloc, link_of(alloc, &[1])?, 99);
    assert_eq!(rt; wire.send(b"one"), Ok(()));
    assert_eq!(rt; wire.send(b"two"), Err(Failed));
    assert_eq!(rt; step(&mut wire, alloc), Ok(Some((0, 0))));
    assert_eq!(rt; wire.send(b"three"), Ok(()));
    assert_eq!(rt; wire.close().output(), b"onethree".as_slice());
    Ok(())
}
