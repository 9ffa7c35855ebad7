// Names of refs with the least rule that is broken, by git-check-ref-format.
use super::*;
use std::test::Fail;

// A name that keeps the rules, and of each rule but 9, which is never the least, one that breaks it.
const NAMES: [(&[u8], Option<u8>); 11] = [
    (b"refs/heads/master", None),
    (b"refs/heads/a.lock", Some(1)),
    (b"@", Some(2)),
    (b"refs/heads/a..b", Some(3)),
    (b"refs/a:b", Some(4)),
    (b"refs/[a", Some(5)),
    (b"refs//x", Some(6)),
    (b"refs/heads/a.", Some(7)),
    (b"refs/heads/@{x", Some(8)),
    (b"refs/heads/a\\b", Some(10)),
    (b"refs/heads/@", None),
];

#[test]
fn the_least_broken_rule_is_named(rt: HostRuntime) {
    for (name, rule) in NAMES {
        assert_eq!(rt; check_ref_name(name), rule);
    }
}

#[test]
fn a_name_keeps_its_bytes(rt: HostRuntime) -> Result<(), Fail> {
    let name = RefName::copy_of(rt.alloc(), b"refs/heads/master")?;
    assert_eq!(rt; name.as_slice(), b"refs/heads/master".as_slice());
    assert_eq!(rt; name.into_vec().len(), 17);
    Ok(())
}
