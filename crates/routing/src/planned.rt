// From whom the repositories are fetched.
ghost use Rattle.std.specs.Prelude.{◌≡◌, IfOk, OnOk};
ghost use Rattle.std.specs.BTreeMap.{get};
ghost use Rattle.rad_base.specs.Order.{nid_cmp};
ghost use Rattle.rad_base.specs.declared.names.Nid.{Nid};
ghost use Rattle.routing.specs.Plans.{AddsLink, AddsPlanned, IsPlan, link_of};

use crate::{Routes, Rules};
use rad_base::{Nid, NoMemory, Rid};
use std::alloc::Global;
use std::collections::BTreeMap;

/// A repository that is fetched, and the link at which it is, from 0.
#[derive(Clone, Copy, Debug, PartialEq, Eq)]
pub struct Planned {
    /// The repository.
    pub rid: Rid,
    /// The link.
    pub link: usize,
}

// Adds the link of a peer that has none before.
fn add_link(
    links: &mut BTreeMap<Nid, usize>,
    peer: &Option<Nid>,
    link: usize,
) -> Result<(), NoMemory>
    ensures { OnOk result (AddsLink peer.now link links.old links.new) }
{
    let Some(node) = peer else {
        return Ok(());
    };
    if links.contains_key(node) {
        return Ok(());
    }
    links.insert(*node, link)?;
    Ok(())
}

// The first link of each peer.
fn links_of(alloc: Global, peers: &[Option<Nid>]) -> Result<BTreeMap<Nid, usize>, NoMemory>
    ensures { IfOk result (λ links. (node : Nid) → get nid_cmp links node ≡ link_of peers.now node) }
{
    let mut links = BTreeMap::new(alloc);
    for (link, peer) in peers.iter().enumerate() {
        add_link(&mut links, peer, link)?;
    }
    Ok(links)
}

// Adds a repository at a link, behind those below it.
fn add_planned(planned: &mut Vec<Planned>, rid: Rid, link: usize) -> Result<(), NoMemory>
    ensures { OnOk result (AddsPlanned planned.old.items rid link planned.new.items) }
{
    if let Some(last) = planned.last_mut() {
        if last.rid == rid {
            last.link = last.link.min(link);
            return Ok(());
        }
    }
    planned.push(Planned { rid, link })?;
    Ok(())
}

/// What is fetched at which link: each repository that the rules allow and that is named by the
/// inventory of some peer, at the first link whose peer it is, in rising order. A peer is that of
/// the link of its number, from 0, if the link has one. `NoMemory`: memory for it was refused.
pub fn plan(
    alloc: Global,
    peers: &[Option<Nid>],
    routes: &Routes,
    rules: &Rules,
) -> Result<Vec<Planned>, NoMemory>
    ensures { IfOk result (λ plan. IsPlan peers.now routes.now rules.now plan.items) }
{
    let links = links_of(alloc, peers)?;
    let mut planned = Vec::new(alloc);
    for (rid, node) in routes.pairs.iter() {
        if let Some(node) = node {
            if rules.allows(rid) {
                if let Some(link) = links.get(node) {
                    add_planned(&mut planned, *rid, *link)?;
                }
            }
        }
    }
    Ok(planned)
}
