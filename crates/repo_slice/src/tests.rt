// An offer of a repository of one delegate, whose objects come part by part. The names and what is
// said of the offer are those of a program outside this repository.
use crate::*;
use canonical_head::answer::Head;
use git_object::{Kind, name_of};
use keyring::Keyring;
use rad_base::{Bytes, Nid, Offer, Oid, Oids, Remotes, Rid, parse_oid};
use std::alloc::Global;
use std::test::Fail;

const NODE: Nid = Nid([1; 32]);

const KEYRING: &[u8] = b"\
    accept 0101010101010101010101010101010101010101010101010101010101010101 \
    57c437b24f1989af9867ab1f93fb5cd0bddc011a4094840da340c1f0e5849586 \
    0101010101010101010101010101010101010101010101010101010101010101\
    0101010101010101010101010101010101010101010101010101010101010101\n";

const DOCUMENT: &[u8] = b"{\"delegates\":[\"did:key:fed01010101010101010101010101010101010101010101\
    0101010101010101010101\"],\"payload\":{\"xyz.radicle.project\":{\"defaultBranch\":\"master\",\
    \"description\":\"\",\"name\":\"gen\"}},\"threshold\":1}";

const IDENTITY: &[u8] = b"tree 32de41ab21c8b00455c7c6b348fa02b76083a957\n\
    author a <a@b> 0 +0000\ncommitter a <a@b> 0 +0000\n\nid\n";

const REFS: &[u8] = b"b1ff3dd5533f3275a83636b43d14c1d29c4410a1 refs/heads/master\n";

const SIGNED: &[u8] = b"tree 987758bc72ff96748c522f361580e36fa2500cd2\n\
    author a <a@b> 0 +0000\ncommitter a <a@b> 0 +0000\n\nsigrefs\n";

const TIP: &[u8] = b"tree fe3f515f9d89179e3a8c7a392b1f55f01bec6568\n\
    author a <a@b> 0 +0000\ncommitter a <a@b> 0 +0000\n\n1\n";

fn named(digits: &[u8]) -> Oid {
    parse_oid(digits).unwrap_or(Oid([0; 20]))
}

// Puts an object of these parts, and gives its name.
fn put(alloc: Global, slice: &mut Slice, kind: Kind, parts: &[&[u8]]) -> Result<Oid, Fail> {
    let mut content = Vec::new(alloc);
    for part in parts {
        content.extend_from_slice(part)?;
    }
    let mut names = Oids::new(alloc);
    names.push(name_of(kind, &content))?;
    let mut batch = Batch::new(alloc);
    batch.push(kind, Bytes::copy_of(alloc, &content)?)?;
    let entry = Entry::Put {
        rid: *slice.rid(),
        names,
        caller: 0,
    };
    slice.stage(alloc, &entry, &batch)?;
    slice.admit(alloc, &entry)?;
    Ok(name_of(kind, &content))
}

fn put_identity(alloc: Global, slice: &mut Slice) -> Result<Oid, Fail> {
    let blob = put(alloc, slice, Kind::Blob, &[DOCUMENT])?;
    let file = put(
        alloc,
        slice,
        Kind::Tree,
        &[b"100644 radicle.json\0", &blob.0],
    )?;
    put(alloc, slice, Kind::Tree, &[b"40000 embeds\0", &file.0])?;
    put(alloc, slice, Kind::Commit, &[IDENTITY])
}

fn put_signed_refs(alloc: Global, slice: &mut Slice) -> Result<Oid, Fail> {
    let refs = put(alloc, slice, Kind::Blob, &[REFS])?;
    let signature = put(alloc, slice, Kind::Blob, &[&[1; 64]])?;
    let parts = [
        b"100644 refs\0".as_slice(),
        &refs.0,
        b"100644 signature\0",
        &signature.0,
    ];
    put(alloc, slice, Kind::Tree, &parts)?;
    put(alloc, slice, Kind::Commit, &[SIGNED])
}

fn put_tip(alloc: Global, slice: &mut Slice) -> Result<Oid, Fail> {
    let blob = put(alloc, slice, Kind::Blob, &[b"1\n"])?;
    put(alloc, slice, Kind::Tree, &[b"100644 n\0", &blob.0])?;
    put(alloc, slice, Kind::Commit, &[TIP])
}

fn install(alloc: Global, slice: &mut Slice, judged: Judged) -> Result<(), Fail> {
    let entry = Entry::Install {
        rid: *slice.rid(),
        id: judged.next_id,
        remotes: judged.advanced,
        caller: 0,
    };
    slice.stage(alloc, &entry, &Batch::new(alloc))?;
    slice.admit(alloc, &entry)?;
    Ok(())
}

// What becomes of an offer.
fn verdict(
    alloc: Global,
    slice: &mut Slice,
    offer: &Offer,
    keyring: &Keyring,
    scope: &Scope,
) -> Result<Result<Judged, Whole>, Fail> {
    if slice.remotes().as_slice().len() > 1024 {
        return Ok(Err(Whole::IdForked));
    }
    Ok(judge(alloc, slice, offer, keyring, scope)?)
}

// What is asked for at both stages, and what becomes of the offer. What may be installed is.
fn told(
    alloc: Global,
    slice: &mut Slice,
    offer: &Offer,
    keyring: &Keyring,
) -> Result<String, Fail> {
    let scope = Scope::All;
    let sigs = wants(alloc, slice, offer, keyring, &scope, Stage::Sigs)?;
    let tips = wants(alloc, slice, offer, keyring, &scope, Stage::Tips)?;
    let (sigs, tips) = (sigs.as_slice().len(), tips.as_slice().len());
    match verdict(alloc, slice, offer, keyring, &scope)? {
        Ok(judged) => {
            let (id, remotes) = (judged.id_outcome, judged.outcomes.as_slice());
            let line = format!(in alloc; "{sigs} {tips} {id:?} {}", is_one(remotes))?;
            install(alloc, slice, judged)?;
            Ok(line)
        }
        Err(why) => Ok(format!(in alloc; "{sigs} {tips} {why:?}")?),
    }
}

// The outcome of the one remote.
fn is_one(outcomes: &[(Nid, Outcome)]) -> &'static str {
    match outcomes {
        [(NODE, Outcome::Advanced)] => "advanced",
        [(NODE, Outcome::Same)] => "same",
        _ => "another",
    }
}

#[test]
fn an_offer_is_judged_as_its_objects_come(rt: HostRuntime) -> Result<(), Fail> {
    let alloc = rt.alloc();
    let keyring = Keyring::read(alloc, KEYRING)?;
    let mut slice = Slice::new(
        alloc,
        &Rid(named(b"fd38665a716bc6e21e89857ce1cef9268f039ebc")),
    );
    let mut remotes = Remotes::new(alloc);
    remotes.push(NODE, named(b"4f325260b7e9a383b8b359e19cb64518da19eb3c"))?;
    let id = named(b"297e20c3faf7e3b6c66b23dd3d17080eda0cabc9");
    let offer = Offer { id, remotes };
    assert_eq!(rt; put_identity(alloc, &mut slice)?, id);
    let few = "1 0 TooFewDelegates { have: 0, need: 1 }";
    assert_eq!(rt; told(alloc, &mut slice, &offer, &keyring)?.as_str(), few);
    put_signed_refs(alloc, &mut slice)?;
    let few = "1 1 TooFewDelegates { have: 0, need: 1 }";
    assert_eq!(rt; told(alloc, &mut slice, &offer, &keyring)?.as_str(), few);
    assert!(rt; slice.head(alloc, &keyring)?.is_none());
    let tip = put_tip(alloc, &mut slice)?;
    let first = told(alloc, &mut slice, &offer, &keyring)?;
    assert_eq!(rt; first.as_str(), "1 1 First advanced");
    let same = told(alloc, &mut slice, &offer, &keyring)?;
    assert_eq!(rt; same.as_str(), "0 0 Same same");
    assert_eq!(rt; (slice.id(), slice.count()), (Some(id), 11));
    assert!(rt; slice.head(alloc, &keyring)? == Some(Head::At(tip)));
    let refs = slice.refs_of(alloc, &NODE)?;
    assert_eq!(rt; refs.map(|refs| refs.as_slice().len()), Some(1));
    Ok(())
}
