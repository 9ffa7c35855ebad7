// The units of requests: the first byte, the repository with a count, haves, a count, nodes.
ghost use Rattle.std.specs.Prelude.{◌≡◌, [], length};
ghost use Rattle.rad_base.specs.Order.{nid_above, oid_above};
ghost use Rattle.unit_reader.specs.Units.{Looks};
ghost use Rattle.fetch_wire.specs.RequestJudging.{ahead, anew, ask_in, behind_haves, first_request, judge_count, judge_first, judge_have, judge_node, judge_repository, request_of};

use crate::{Ask, Request};
use rad_base::{Nid, Nids, Oid, Oids, Rid};
use std::alloc::Global;
use std::mem;
use unit_reader::{Look, Stop, Units};

/// Which unit of a request stands next.
#[derive(Clone, Copy, Debug, PartialEq, Eq)]
pub enum Step {
    /// The first byte.
    First,
    /// The repository, and the number of haves.
    Repository(Ask),
    /// A have, of so many that are left.
    Have(Ask, u16),
    /// The number of nodes.
    Count(Ask),
    /// A node, of so many that are left.
    Node(Ask, u16),
}

/// Which unit stands next, and where, and what was read of the request.
#[derive(Debug, Drop)]
pub struct RequestUnits {
    /// Where the request begins.
    pub request: u64,
    /// Where the unit begins.
    pub place: u64,
    /// The unit.
    pub next: Step,
    /// The repository.
    pub rid: Rid,
    /// The haves so far.
    pub haves: Oids,
    /// The nodes so far.
    pub nodes: Nids,
}

fn ask_in(byte: u8) -> Option<Ask>
    ensures { result ≡ ask_in byte }
{
    match byte {
        1 => Some(Ask::Begin),
        2 => Some(Ask::Sigs),
        3 => Some(Ask::Tips),
        _ => None,
    }
}

// The held bytes were a unit of the request, behind which this one stands.
fn go_on(units: &mut RequestUnits, held: &mut Vec<u8>, next: Step)
    ensures units { units.new ≡ ahead units.old (length held.old.items) next }
    ensures held { held.new.items ≡ [] }
{
    units.place = units.place.saturating_add(held.len() as u64);
    units.next = next;
    held.clear();
}

// The held bytes were the last unit of the request.
fn complete(alloc: Global, ask: Ask, units: &mut RequestUnits, held: &mut Vec<u8>) -> Request
    ensures units { units.new ≡ anew units.old (length held.old.items) }
    ensures held { held.new.items ≡ [] }
    ensures request { result ≡ request_of ask units.old }
{
    go_on(units, held, Step::First);
    units.request = units.place;
    let haves = mem::replace(&mut units.haves, Oids::new(alloc));
    let nodes = mem::replace(&mut units.nodes, Nids::new(alloc));
    match ask {
        Ask::Begin => Request::Begin(units.rid, haves),
        Ask::Sigs => Request::Sigs(units.rid, haves, nodes),
        Ask::Tips => Request::Tips(units.rid, haves, nodes),
    }
}

fn behind_haves(
    alloc: Global,
    ask: Ask,
    units: &mut RequestUnits,
    held: &mut Vec<u8>,
) -> Result<Look<Request>, Stop<u64>>
    ensures { Looks (λ u bytes. behind_haves ask u (length bytes)) units.old held.old.items
        units.new held.new.items result }
{
    match ask {
        Ask::Begin => Ok(Look::Whole(complete(alloc, ask, units, held))),
        Ask::Sigs | Ask::Tips => {
            go_on(units, held, Step::Count(ask));
            Ok(Look::Unit)
        }
    }
}

fn look_first(
    alloc: Global,
    units: &mut RequestUnits,
    held: &mut Vec<u8>,
) -> Result<Look<Request>, Stop<u64>>
    ensures { Looks judge_first units.old held.old.items units.new held.new.items result }
{
    if held.len() != 1 {
        return Ok(Look::Short);
    }
    if held[0] == 4 {
        let _ = complete(alloc, Ask::Begin, units, held);
        return Ok(Look::Whole(Request::Done));
    }
    match ask_in(held[0]) {
        None => Err(Stop::Broken(units.request)),
        Some(ask) => {
            go_on(units, held, Step::Repository(ask));
            Ok(Look::Unit)
        }
    }
}

fn look_repository(
    alloc: Global,
    ask: Ask,
    units: &mut RequestUnits,
    held: &mut Vec<u8>,
) -> Result<Look<Request>, Stop<u64>>
    ensures { Looks (judge_repository ask) units.old held.old.items units.new held.new.items result }
{
    if held.len() != 22 {
        return Ok(Look::Short);
    }
    let count = u16::from_be_bytes([held[20], held[21]]);
    if count > 2048 {
        return Err(Stop::Broken(units.request));
    }
    let mut rid = [0; 20];
    rid.copy_from_slice(&held[0..20]);
    units.rid = Rid(Oid(rid));
    if count == 0 {
        return behind_haves(alloc, ask, units, held);
    }
    go_on(units, held, Step::Have(ask, count));
    Ok(Look::Unit)
}

fn oid_above(oids: &Oids, oid: &Oid) -> bool
    ensures { result ≡ oid_above oids.now oid.now }
{
    match oids.as_slice().last() {
        None => true,
        Some(last) => last.cmp(oid).is_lt(),
    }
}

fn nid_above(nids: &Nids, nid: &Nid) -> bool
    ensures { result ≡ nid_above nids.now nid.now }
{
    match nids.as_slice().last() {
        None => true,
        Some(last) => last.cmp(nid).is_lt(),
    }
}

fn look_have(
    alloc: Global,
    ask: Ask,
    left: u16,
    units: &mut RequestUnits,
    held: &mut Vec<u8>,
) -> Result<Look<Request>, Stop<u64>>
    ensures { Looks (judge_have ask left) units.old held.old.items units.new held.new.items result }
{
    if held.len() != 20 {
        return Ok(Look::Short);
    }
    let mut oid = [0; 20];
    oid.copy_from_slice(&held[0..20]);
    if !oid_above(&units.haves, &Oid(oid)) {
        return Err(Stop::Broken(units.request));
    }
    units.haves.push(Oid(oid))?;
    if left > 1 {
        go_on(units, held, Step::Have(ask, left - 1));
        return Ok(Look::Unit);
    }
    behind_haves(alloc, ask, units, held)
}

fn look_count(
    alloc: Global,
    ask: Ask,
    units: &mut RequestUnits,
    held: &mut Vec<u8>,
) -> Result<Look<Request>, Stop<u64>>
    ensures { Looks (judge_count ask) units.old held.old.items units.new held.new.items result }
{
    if held.len() != 2 {
        return Ok(Look::Short);
    }
    let count = u16::from_be_bytes([held[0], held[1]]);
    if count > 1024 {
        return Err(Stop::Broken(units.request));
    }
    if count == 0 {
        return Ok(Look::Whole(complete(alloc, ask, units, held)));
    }
    go_on(units, held, Step::Node(ask, count));
    Ok(Look::Unit)
}

fn look_node(
    alloc: Global,
    ask: Ask,
    left: u16,
    units: &mut RequestUnits,
    held: &mut Vec<u8>,
) -> Result<Look<Request>, Stop<u64>>
    ensures { Looks (judge_node ask left) units.old held.old.items units.new held.new.items result }
{
    if held.len() != 32 {
        return Ok(Look::Short);
    }
    let mut nid = [0; 32];
    nid.copy_from_slice(&held[0..32]);
    if !nid_above(&units.nodes, &Nid(nid)) {
        return Err(Stop::Broken(units.request));
    }
    units.nodes.push(Nid(nid))?;
    if left > 1 {
        go_on(units, held, Step::Node(ask, left - 1));
        return Ok(Look::Unit);
    }
    Ok(Look::Whole(complete(alloc, ask, units, held)))
}

impl RequestUnits {
    /// The first unit of the first request.
    pub fn new(alloc: Global) -> Self
        ensures { result ≡ first_request }
    {
        RequestUnits {
            request: 0,
            place: 0,
            next: Step::First,
            rid: Rid(Oid([0; 20])),
            haves: Oids::new(alloc),
            nodes: Nids::new(alloc),
        }
    }
}

impl Units for RequestUnits {
    ghost use Rattle.fetch_wire.specs.RequestJudging.{goes_on, judge_request};

    type Item = Request;

    type Fault = u64;

    ghost judge = { judge_request };

    ghost shut = { goes_on };

    fn is_shut(&self) -> bool {
        false
    }

    #[tactic(auto, unfolding(crate::specs::RequestJudging::judge_request))]
    fn want(&self, held: &[u8]) -> usize {
        let least = held.len() + 1;
        match self.next {
            Step::First => least,
            Step::Repository(_) => least.max(22),
            Step::Have(_, _) => least.max(20),
            Step::Count(_) => least.max(2),
            Step::Node(_, _) => least.max(32),
        }
    }

    #[tactic(auto, unfolding(crate::specs::RequestJudging::judge_request))]
    fn look(&mut self, alloc: Global, held: &mut Vec<u8>) -> Result<Look<Request>, Stop<u64>> {
        match self.next {
            Step::First => look_first(alloc, self, held),
            Step::Repository(ask) => look_repository(alloc, ask, self, held),
            Step::Have(ask, left) => look_have(alloc, ask, left, self, held),
            Step::Count(ask) => look_count(alloc, ask, self, held),
            Step::Node(ask, left) => look_node(alloc, ask, left, self, held),
        }
    }
}
