// Each call that wants memory where there is enough, and readers that refuse.
ghost use Rattle.fetch_wire.specs.Requests.{IsWithinLimits};
ghost use Rattle.fetch_wire.specs.Sections.{IsWithin};

use crate::{
    Break, Part, Request, RequestFault, RequestReader, SectionFault, SectionReader, Which,
    push_object, write_part, write_request,
};
use git_object::Kind;
use rad_base::{Bytes, Nid, Nids, Offer, Oid, Oids, Remotes, Rid};
use std::alloc::Global;
use std::test::Fail;

const OFFER: &[u8] = b"4903030303030303030303030303030303030303030001\
  0101010101010101010101010101010101010101010101010101010101010101\
  0202020202020202020202020202020202020202";

// Whether a part is written so, in hexadecimal digits.
fn is_written(alloc: Global, part: &Part, digits: &[u8]) -> Result<bool, Fail>
    requires { IsWithin part.now }
{
    Ok(write_part(alloc, part)? == hex::decode(alloc, digits)?)
}

#[test]
fn parts_are_written_in_their_spelling(rt: HostRuntime) -> Result<(), Fail> {
    let alloc = rt.alloc();
    let mut remotes = Remotes::new(alloc);
    remotes.push(Nid([1; 32]), Oid([2; 20]))?;
    let offer = Part::Offer(Offer {
        id: Oid([3; 20]),
        remotes,
    });
    assert!(rt; is_written(alloc, &offer, OFFER)?);
    assert!(rt; is_written(alloc, &Part::SigsHead, b"53")?);
    assert!(rt; is_written(alloc, &Part::TipsHead, b"44")?);
    let empty = Part::Object(Kind::Tag, Bytes::of(Vec::new(alloc)));
    assert!(rt; is_written(alloc, &empty, b"4f0400000000")?);
    assert!(rt; is_written(alloc, &Part::End, b"656e640a")?);
    assert!(rt; is_written(alloc, &Part::Refused(2), b"5202")?);
    let mut object = Vec::new(alloc);
    push_object(&mut object, Kind::Blob, b"ab")?;
    assert_eq!(rt; object, hex::decode(alloc, b"4f03000000026162")?);
    Ok(())
}

// How many parts the section has that these digits begin with, and how many bytes.
fn sizes(alloc: Global, which: Which, digits: &[u8]) -> Result<(usize, usize), Fail> {
    let bytes = hex::decode(alloc, digits)?;
    let mut reader = SectionReader::new(alloc, which);
    match reader.feed(alloc, &bytes) {
        Ok(fed) if fed.done => Ok((fed.parts.len(), fed.used)),
        Ok(_) => Err(Fail::new("not whole")),
        Err(_) => Err(Fail::new("refused")),
    }
}

#[test]
fn a_section_of_each_kind(rt: HostRuntime) -> Result<(), Fail> {
    let alloc = rt.alloc();
    let mut identity = OFFER.to_vec(alloc)?;
    identity.extend_from_slice(b"4f03000000026162656e640a53")?;
    assert_eq!(rt; sizes(alloc, Which::Identity, &identity)?, (3, 87));
    assert_eq!(rt;
        sizes(alloc, Which::Sigs, b"534f0400000000656e640a53")?,
        (3, 11)
    );
    assert_eq!(rt; sizes(alloc, Which::Tips, b"44656e640a")?, (2, 5));
    assert_eq!(rt; sizes(alloc, Which::Tips, b"520244")?, (1, 2));
    Ok(())
}

#[test]
fn a_refusal_stays_and_its_parts_are_given_once(rt: HostRuntime) -> Result<(), Fail> {
    let alloc = rt.alloc();
    let mut reader = SectionReader::new(alloc, Which::Sigs);
    let broken = Break {
        place: 9,
        shown: 15,
    };
    let pieces: [&[u8]; 2] = [b"SO\x03\0\0\0\x02abO\x05\0\0\0\0", b"end\n"];
    for piece in pieces {
        let fed = reader.feed(alloc, piece).map(|fed| fed.used);
        assert_eq!(rt; fed, Err(SectionFault::Bad(broken)));
    }
    assert_eq!(rt; reader.before().len(), 2);
    let mut parts = reader.take_before(alloc);
    assert!(rt; matches!(parts.pop_front(), Some(Part::SigsHead)));
    assert_eq!(rt; parts.len(), 1);
    assert_eq!(rt; reader.before().len(), 0);
    Ok(())
}

// Whether a request is written as runs of digits, and read.
fn is_request(alloc: Global, request: &Request, digits: &[&[u8]]) -> Result<bool, Fail>
    requires { IsWithinLimits request.now }
{
    let mut bytes = Vec::new(alloc);
    for run in digits {
        bytes.extend_from_slice(&hex::decode(alloc, *run)?)?;
    }
    let read = RequestReader::new(alloc).feed(alloc, &bytes);
    let count = read.map(|requests| requests.len());
    Ok(write_request(alloc, request)? == bytes && count == Ok(1))
}

#[test]
fn a_request_of_each_kind(rt: HostRuntime) -> Result<(), Fail> {
    let alloc = rt.alloc();
    let rid = Rid(Oid([1; 20]));
    let ones = b"0101010101010101010101010101010101010101";
    let twos = b"0202020202020202020202020202020202020202";
    let begin = Request::Begin(rid, Oids::new(alloc));
    assert!(rt; is_request(alloc, &begin, &[b"01", ones, b"0000"])?);
    let mut haves = Oids::new(alloc);
    haves.push(Oid([2; 20]))?;
    let mut nodes = Nids::new(alloc);
    nodes.push(Nid([1; 32]))?;
    nodes.push(Nid([2; 32]))?;
    let sigs = Request::Sigs(rid, haves, nodes);
    let node = b"010101010101010101010101";
    let other = b"020202020202020202020202";
    let digits: &[&[u8]] = &[b"02", ones, b"0001", twos, b"0002", ones, node, twos, other];
    assert!(rt; is_request(alloc, &sigs, digits)?);
    let tips = Request::Tips(rid, Oids::new(alloc), Nids::new(alloc));
    assert!(rt; is_request(alloc, &tips, &[b"03", ones, b"00000000"])?);
    assert!(rt; is_request(alloc, &Request::Done, &[b"04"])?);
    Ok(())
}

#[test]
fn a_refused_reader_of_requests_answers_the_same(rt: HostRuntime) -> Result<(), Fail> {
    let alloc = rt.alloc();
    let mut reader = RequestReader::new(alloc);
    let pieces: [&[u8]; 3] = [b"\x04\x04\x05", b"\x04", b""];
    for piece in pieces {
        let read = reader.feed(alloc, piece).map(|requests| requests.len());
        assert_eq!(rt; read, Err(RequestFault::Bad(2)));
    }
    assert_eq!(rt; reader.before().len(), 2);
    Ok(())
}
