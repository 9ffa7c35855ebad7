// Documents, chains and who sees a repository, each call with ample memory.
mod chains;
mod faults;
mod objects;

use crate::reading::{ReadFault, document_of};
use crate::{Doc, DocFault, Field, Visibility};
use keyring::Keyring;
use rad_base::{Nid, Nids, Text};
use serde_json::Value;
use std::alloc::Global;
use std::test::Fail;

const KEYS: &[u8] = b"name named 2121212121212121212121212121212121212121212121212121212121212121
name other 3232323232323232323232323232323232323232323232323232323232323232
";

// How many delegates, the threshold, the default branch, and those allowed if it is private.
type Summary<'a> = (usize, u8, Option<&'a str>, Option<&'a [Nid]>);

const NAMED: Nid = Nid([0x21; 32]);

const OTHER: Nid = Nid([0x32; 32]);

const READ: [(&[u8], Summary<'static>); 3] = [
    (
        br#"{"delegates":["named"],"threshold":1,"payload":{}}"#,
        (1, 1, None, None),
    ),
    (
        br#"{"delegates":["other","did:key:fed012121212121212121212121212121212121212121212121212121212121212121"],
        "threshold":2,"payload":{"xyz.radicle.project":{"defaultBranch":"master"}}}"#,
        (2, 2, Some("master"), None),
    ),
    (
        br#"{"delegates":["named"],"threshold":1,"payload":{},
        "visibility":{"type":"private","allow":["named","other"]}}"#,
        (1, 1, None, Some(&[NAMED, OTHER])),
    ),
];

const REFUSED: [(&[u8], DocFault); 4] = [
    (b"[]", DocFault::NoField(Field::Delegates)),
    (br#"{"delegates":["other","x"]}"#, DocFault::BadDelegate(1)),
    (
        br#"{"delegates":["named","named"],"threshold":1}"#,
        DocFault::Twice(1),
    ),
    (
        br#"{"delegates":["named"],"threshold":1.0,"payload":{}}"#,
        DocFault::BadThreshold,
    ),
];

fn summary(doc: &Doc) -> Summary<'_> {
    let branch = match &doc.default_branch {
        Some(branch) => Some(branch.as_str()),
        None => None,
    };
    let allowed = match &doc.visibility {
        Visibility::Public => None,
        Visibility::Private(nids) => Some(nids.as_slice()),
    };
    (
        doc.delegates.as_slice().len(),
        doc.threshold,
        branch,
        allowed,
    )
}

#[test]
fn documents_are_read(rt: HostRuntime) -> Result<(), Fail> {
    let alloc = rt.alloc();
    let keyring = Keyring::read(alloc, KEYS)?;
    for (text, want) in READ {
        let value = Value::from_slice(alloc, text)?;
        let doc = Doc::of(alloc, &value, &keyring)?;
        assert_eq!(rt; summary(&doc), want);
    }
    Ok(())
}

#[test]
fn the_first_check_that_fails_is_the_refusal(rt: HostRuntime) -> Result<(), Fail> {
    let alloc = rt.alloc();
    let keyring = Keyring::read(alloc, KEYS)?;
    for (text, fault) in REFUSED {
        let value = Value::from_slice(alloc, text)?;
        assert_eq!(rt; Doc::of(alloc, &value, &keyring).err(), Some(fault));
    }
    let texts: [&[u8]; 3] = [b"", b"\xef\xbb\xbf{}", b"{} x"];
    for text in texts {
        let fault = document_of(alloc, &keyring, text).err();
        assert_eq!(rt; fault, Some(ReadFault::NotJson));
    }
    Ok(())
}

fn private(alloc: Global) -> Result<Doc, Fail> {
    let mut delegates = Nids::new(alloc);
    delegates.push(Nid([1; 32]))?;
    let mut allowed = Nids::new(alloc);
    allowed.push(Nid([2; 32]))?;
    Ok(Doc {
        delegates,
        threshold: 1,
        default_branch: Some(Text::of(String::from_str(alloc, "master")?)),
        visibility: Visibility::Private(allowed),
    })
}

#[test]
fn a_private_repository_is_seen_by_delegates_and_those_allowed(
    rt: HostRuntime,
) -> Result<(), Fail> {
    let mut doc = private(rt.alloc())?;
    assert!(rt; doc.sees(&Nid([1; 32])));
    assert!(rt; doc.sees(&Nid([2; 32])));
    assert!(rt; !doc.sees(&Nid([3; 32])));
    doc.visibility = Visibility::Public;
    assert!(rt; doc.sees(&Nid([3; 32])));
    Ok(())
}
