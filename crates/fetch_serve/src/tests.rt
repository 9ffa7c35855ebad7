// Replies over a small private repository, whose names and replies an independent program told.
use crate::{Shown, answer};
use commit_graph::MemObjects;
use fetch_wire::Request;
use git_object::Kind;
use keyring::Keyring;
use rad_base::{Nid, Nids, Oid, Oids, Remotes, Rid, parse_oid};
use std::alloc::Global;
use std::test::Fail;

// The names of the document, of the identity commit and of the commit of signed refs.
const RID: &[u8] = b"49449de9c07b798c34cfe4dc123f4cbe6ffc2d0e";

const IDENTITY: &[u8] = b"734231ef28f6592368a756f9012af77f630dff0c";

const SIGNED: &[u8] = b"3fb53a68f500349a77eaaa0ab6f27c542eb1e856";

// The one delegate, and somebody else.
const DELEGATE: Nid = Nid([1; 32]);

const STRANGER: Nid = Nid([2; 32]);

// A document that one delegate alone sees; an identity commit with it, and with a blob of refs; a
// commit of refs that name one commit.
const OBJECTS: [(Kind, &[u8]); 11] = [
    (
        Kind::Blob,
        b"{\"delegates\":[\"did:key:fed\
        010101010101010101010101010101010101010101010101010101010101010101\"],\
        \"payload\":{},\"threshold\":1,\"visibility\":{\"type\":\"private\"}}",
    ),
    (
        Kind::Tree,
        b"100644 radicle.json\0ID\x9d\xe9\xc0{y\x8c4\xcf\xe4\xdc\x12?L\xbeo\xfc-\x0e",
    ),
    (Kind::Blob, b"1\n"),
    (
        Kind::Tree,
        b"100644 n\0\xd0\x04\x91\xfd~[\xb6\xfa(\xc5\x17\xa0\xbb2\xb8\xb5\x06S\x9dM",
    ),
    (
        Kind::Commit,
        b"tree fe3f515f9d89179e3a8c7a392b1f55f01bec6568\nauthor a <a@b> 0 +0000\n\
        committer a <a@b> 0 +0000\n\nm\n",
    ),
    (
        Kind::Blob,
        b"3e1b518495d570d7b8990ffb2c453ad2bfdc097e refs/heads/m\n",
    ),
    (Kind::Blob, &[1; 64]),
    (
        Kind::Tree,
        b"100644 refs\0\xc4\xfe\x8b&\x91S?\xea\x0b;\xe5$\x906\xc3{\x8d!\xf3G\
        100644 signature\0\xd8Q\xfbP\x19>\x05^\xb7\xc6\xc4\x80\xbf\x12O\xb0Tk\xb9\x0e",
    ),
    (
        Kind::Commit,
        b"tree d4f5bbea637c8e15cdf33c69423f48b0ed2b3efa\nauthor a <a@b> 0 +0000\n\
        committer a <a@b> 0 +0000\n\nm\n",
    ),
    (
        Kind::Tree,
        b"40000 embeds\0\xd5[k\xcd\x98\xe3\x8d\xda>\xa9qI\x08\x14\x8d\xff\xf0\xe2\x94\x12\
        100644 refs\0\xc4\xfe\x8b&\x91S?\xea\x0b;\xe5$\x906\xc3{\x8d!\xf3G",
    ),
    (
        Kind::Commit,
        b"tree 3f8154b556572b44c3afe2c18d915513eb5bc176\nauthor a <a@b> 0 +0000\n\
        committer a <a@b> 0 +0000\n\nm\n",
    ),
];

fn name(digits: &[u8]) -> Oid {
    parse_oid(digits).unwrap_or(Oid([0; 20]))
}

fn repository(alloc: Global) -> Result<MemObjects, Fail> {
    let mut objects = MemObjects::new(alloc);
    for (kind, content) in OBJECTS {
        objects.put(alloc, kind, content)?;
    }
    Ok(objects)
}

// The reply to a request where the delegate's signed refs are shown.
fn reply_to(alloc: Global, request: &Request, asker: &Nid) -> Result<Vec<u8>, Fail> {
    let mut objects = repository(alloc)?;
    let keyring = Keyring::read(alloc, b"")?;
    let mut remotes = Remotes::new(alloc);
    if remotes.is_above(&DELEGATE) {
        remotes.push(DELEGATE, name(SIGNED))?;
    }
    if remotes.as_slice().len() > 1024 {
        return Err(Fail::new("too many remotes"));
    }
    let shown = Shown {
        objects: &mut objects,
        id: name(IDENTITY),
        remotes: &remotes,
    };
    Ok(answer(alloc, Some(shown), &keyring, request, asker)?)
}

// A request for the tips of a node from who has this.
fn tips_of(alloc: Global, node: Nid, have: Oid) -> Result<Request, Fail> {
    let mut haves = Oids::new(alloc);
    haves.push(have)?;
    let mut nodes = Nids::new(alloc);
    nodes.push(node)?;
    Ok(Request::Tips(Rid(name(RID)), haves, nodes))
}

#[test]
fn the_identity_is_told_to_a_delegate(rt: HostRuntime) -> Result<(), Fail> {
    let alloc = rt.alloc();
    let mut haves = Oids::new(alloc);
    haves.push(name(IDENTITY))?;
    let request = Request::Begin(Rid(name(RID)), haves);
    let mut told = b"I".to_vec(alloc)?;
    told.extend_from_slice(&name(IDENTITY).0)?;
    told.extend_from_slice(&[0, 1])?;
    told.extend_from_slice(&DELEGATE.0)?;
    told.extend_from_slice(&name(SIGNED).0)?;
    told.extend_from_slice(b"end\n")?;
    assert_eq!(rt; reply_to(alloc, &request, &DELEGATE)?, told);
    Ok(())
}

#[test]
fn tips_are_told_without_what_the_asker_has(rt: HostRuntime) -> Result<(), Fail> {
    let alloc = rt.alloc();
    let all = tips_of(alloc, DELEGATE, Oid([0; 20]))?;
    let told = b"DO\x01\0\0\0btree fe3f515f9d89179e3a8c7a392b1f55f01bec6568\n\
        author a <a@b> 0 +0000\ncommitter a <a@b> 0 +0000\n\nm\n\
        O\x03\0\0\0\x021\n\
        O\x02\0\0\0\x1d100644 n\0\xd0\x04\x91\xfd~[\xb6\xfa(\xc5\x17\xa0\xbb2\xb8\xb5\x06S\x9dMend\n";
    assert_eq!(rt;
        reply_to(alloc, &all, &DELEGATE)?.as_slice(),
        told.as_slice()
    );
    let none = tips_of(alloc, DELEGATE, name(SIGNED))?;
    assert_eq!(rt;
        reply_to(alloc, &none, &DELEGATE)?.as_slice(),
        b"Dend\n".as_slice()
    );
    let unknown = tips_of(alloc, STRANGER, Oid([0; 20]))?;
    assert_eq!(rt;
        reply_to(alloc, &unknown, &DELEGATE)?.as_slice(),
        b"R\x02".as_slice()
    );
    Ok(())
}

#[test]
fn signed_refs_are_told_whole(rt: HostRuntime) -> Result<(), Fail> {
    let alloc = rt.alloc();
    let mut nodes = Nids::new(alloc);
    nodes.push(DELEGATE)?;
    let request = Request::Sigs(Rid(name(RID)), Oids::new(alloc), nodes);
    let mut told = b"SO\x01\0\0\0btree d4f5bbea637c8e15cdf33c69423f48b0ed2b3efa\n\
        author a <a@b> 0 +0000\ncommitter a <a@b> 0 +0000\n\nm\n\
        O\x03\0\0\0\x363e1b518495d570d7b8990ffb2c453ad2bfdc097e refs/heads/m\n\
        O\x02\0\0\0\x45100644 refs\0\xc4\xfe\x8b&\x91S?\xea\x0b;\xe5$\x906\xc3{\x8d!\xf3G\
        100644 signature\0\xd8Q\xfbP\x19>\x05^\xb7\xc6\xc4\x80\xbf\x12O\xb0Tk\xb9\x0e\
        O\x03\0\0\0\x40"
        .to_vec(alloc)?;
    told.extend_from_slice(&[1; 64])?;
    told.extend_from_slice(b"end\n")?;
    assert_eq!(rt; reply_to(alloc, &request, &DELEGATE)?, told);
    Ok(())
}

#[test]
fn a_stranger_is_told_what_is_told_of_nothing(rt: HostRuntime) -> Result<(), Fail> {
    let alloc = rt.alloc();
    let request = Request::Begin(Rid(name(RID)), Oids::new(alloc));
    let stranger = reply_to(alloc, &request, &STRANGER)?;
    let keyring = Keyring::read(alloc, b"")?;
    let nothing: Option<Shown<'_, MemObjects>> = None;
    let unknown = answer(alloc, nothing, &keyring, &request, &DELEGATE)?;
    assert_eq!(rt; stranger, unknown);
    assert_eq!(rt; unknown, b"R\x01".to_vec(alloc)?);
    Ok(())
}
