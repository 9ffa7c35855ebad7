// Announcements that a table hears and tells, and a plan by them.
use crate::announced::{Announced, NODES, PEERS, node_of};
use crate::pausing::{Pauses, pause, step, step_at};
use crate::words::number_at;
use announcements::{Filter, Heard, Table};
use rad_base::Nid;
use routing::{Routes, Rules, plan};
use std::alloc::Global;

const RULES: &[u8] = b"{\"default\":\"allow\"}";

// Hears the announcements, and answers how many are raised.
fn hear_all(alloc: Global, table: &mut Table, announced: &Announced) -> Option<usize> {
    let mut raised = 0usize;
    for announcement in &announced.announcements {
        let heard = announcement.hear(alloc, table, &announced.keyring)?;
        raised = raised.saturating_add(usize::from(heard == Heard::Raised));
    }
    Some(raised)
}

// The peers, each at a link.
fn peers(alloc: Global) -> Option<Vec<Option<Nid>>> {
    let mut peers = Vec::new(alloc);
    for number in 0..PEERS {
        peers.push(Some(node_of(number))).ok()?;
    }
    Some(peers)
}

/// Over so many announcements and repositories, from 34 to 100,000, hears them, tells all that is
/// kept, and makes the routes and a plan by these. It prints a line behind each.
pub fn tell(rt: &HostRuntime, count: u32, pauses: Pauses) -> Option<()> {
    if count < NODES || count > 100_000 {
        return None;
    }
    let alloc = rt.alloc();
    let announced = Announced::new(alloc, count)?;
    let (filter, peers) = (Filter::full(alloc).ok()?, peers(alloc)?);
    let rules = Rules::read(alloc, RULES).ok()?;
    let mut table = Table::new(alloc);
    pause(rt, pauses, "ready")?;
    let raised = hear_all(alloc, &mut table, &announced)?;
    step_at(rt, pauses, "hear", raised)?;
    let told = table.since(alloc, &filter, 0, u64::MAX).ok()?;
    step_at(rt, pauses, "since", told.len())?;
    let routes = Routes::of(alloc, &table).ok()?;
    step(rt, pauses, "routes")?;
    let planned = plan(alloc, &peers, &routes, &rules).ok()?;
    step_at(rt, pauses, "plan", planned.len())
}

/// Runs by the word: how many announcements, of as many repositories.
pub fn run(rt: &HostRuntime, words: &[String]) -> Option<()> {
    tell(rt, number_at(words, 0)?, Pauses::Timed)
}
