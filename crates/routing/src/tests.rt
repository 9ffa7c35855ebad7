// Rules, routes and a plan, each called with ample memory.
ghost use Rattle.std.specs.Prelude.{IfOk, IfSome};
ghost use Rattle.announcements.specs.Announcements.{IsAnnouncement};

use crate::{Planned, Policy, Reach, Reason, Routes, Rules, RulesFault, plan};
use announcements::{Table, is_announcement};
use gossip_wire::{Message, read_message};
use keyring::Keyring;
use rad_base::{Nid, Oid, Rid};
use repo_slice::Scope;
use std::alloc::Global;
use std::test::Fail;

const WHOLE: &[u8] = b"{\"default\":\"allow\",\"scope\":\"followed\",\
    \"repos\":{\"aaaaaaaaaaaaaaaaaaaaaaaaaaaaaaaaaaaaaaaa\":{\"policy\":\"block\",\"scope\":\"all\"}},\
    \"follow\":[\"1111111111111111111111111111111111111111111111111111111111111111\"]}";

#[test]
fn rules_are_read(rt: HostRuntime) -> Result<(), Fail> {
    let alloc = rt.alloc();
    let Ok(rules) = Rules::read(alloc, WHOLE) else {
        return Err(Fail::new("not read"));
    };
    assert_eq!(rt;
        (rules.policy, rules.reach),
        (Policy::Allow, Reach::Followed)
    );
    assert_eq!(rt; (rules.repos.len(), rules.follow.as_slice().len()), (1, 1));
    let rows: [(&[u8], Reason); 3] = [
        (b"{", Reason::NotJson),
        (b"{\"default\":\"all\"}", Reason::BadDefault),
        (b"{\"follow\":[\"11\"]}", Reason::BadFollow),
    ];
    for (file, reason) in rows {
        let fault = Rules::read(alloc, file).err();
        assert_eq!(rt; fault, Some(RulesFault::BadRules(reason)));
    }
    Ok(())
}

#[test]
fn rules_say_what_is_taken(rt: HostRuntime) -> Result<(), Fail> {
    let alloc = rt.alloc();
    let rules = Rules::read(alloc, WHOLE).ok();
    let Some(rules) = rules else {
        assert!(rt; false);
        return Ok(());
    };
    let (named, other) = (Rid(Oid([0xaa; 20])), Rid(Oid([7; 20])));
    assert_eq!(rt; (rules.allows(&named), rules.allows(&other)), (false, true));
    let all = matches!(rules.scope(alloc, &named)?, Scope::All);
    assert!(rt; all);
    let followed = match rules.scope(alloc, &other)? {
        Scope::All => false,
        Scope::Followed(nids) => nids.as_slice() == [Nid([0x11; 32])].as_slice(),
    };
    assert!(rt; followed);
    Ok(())
}

// The announcement that the bytes are, if they are one.
fn announcement(alloc: Global, bytes: &[u8]) -> Result<Option<Message>, Fail>
    ensures { IfOk result (λ message. IfSome message IsAnnouncement) }
{
    let message = read_message(alloc, bytes)?;
    if is_announcement(&message) {
        Ok(Some(message))
    } else {
        Ok(None)
    }
}

// The bytes of an inventory of the repositories 1 and 2 that the node 17 announces at a time.
fn inventory(alloc: Global) -> Result<Vec<u8>, Fail> {
    let mut bytes = b"\0\x04".to_vec(alloc)?;
    bytes.extend_from_slice(&[0x11; 32])?;
    bytes.extend_from_slice(&[0x22; 64])?;
    bytes.extend_from_slice(&[0, 2])?;
    bytes.extend_from_slice(&[1; 20])?;
    bytes.extend_from_slice(&[2; 20])?;
    bytes.extend_from_slice(&[0, 0, 0, 0, 0, 0, 0, 7])?;
    Ok(bytes)
}

// What accepts it, by the digest that an independent program told.
const KEYRING: &[u8] = b"\
    accept 1111111111111111111111111111111111111111111111111111111111111111 \
    7d911472d79b6d4105b2bdf07567817dbb167fd81e7d77c95c6dddf024f12a17 \
    22222222222222222222222222222222222222222222222222222222222222222222222222222222\
    222222222222222222222222222222222222222222222222\n";

// The table that heard the inventory.
fn table_of(alloc: Global) -> Result<Table, Fail> {
    let keyring = Keyring::read(alloc, KEYRING)?;
    let mut table = Table::new(alloc);
    if let Some(message) = announcement(alloc, &inventory(alloc)?)? {
        let _heard = table.hear(alloc, &message, 0, &keyring)?;
    }
    Ok(table)
}

#[test]
fn repositories_are_planned_at_their_first_link(rt: HostRuntime) -> Result<(), Fail> {
    let alloc = rt.alloc();
    let (first, second) = (Rid(Oid([1; 20])), Rid(Oid([2; 20])));
    let node = Nid([0x11; 32]);
    let routes = Routes::of(alloc, &table_of(alloc)?)?;
    assert_eq!(rt; routes.nodes(alloc, &first)?.as_slice(), [node].as_slice());
    assert_eq!(rt;
        routes.nodes(alloc, &Rid(Oid([3; 20])))?.as_slice().len(),
        0
    );

    let peers = [None, Some(node), Some(node)];
    let planned = |rid| Planned { rid, link: 1 };
    let all = Rules::read(alloc, b"{\"default\":\"allow\"}").ok();
    let one = Rules::read(
        alloc,
        b"{\"repos\":{\"0202020202020202020202020202020202020202\":{}}}",
    );
    let (Some(all), Some(one)) = (all, one.ok()) else {
        return Err(Fail::new("not read"));
    };
    let made = plan(alloc, &peers, &routes, &all)?;
    assert_eq!(rt;
        made.as_slice(),
        [planned(first), planned(second)].as_slice()
    );
    let made = plan(alloc, &peers, &routes, &one)?;
    assert_eq!(rt; made.as_slice(), [planned(second)].as_slice());
    Ok(())
}
