// Offers of new remotes, each at the tip of one chain of commits.
use crate::accepting::push_accept;
use crate::filling::Filling;
use crate::objects::{DOCUMENT, add_chain, add_identity, add_signed, refs_at, signature_of};
use git_object::{Kind, name_of};
use keyring::Keyring;
use rad_base::{Nid, Offer, Oid, Remotes, Rid};
use repo_slice::{Scope, Slice, Whole, judge};
use std::alloc::Global;

/// A slice with objects alone, an offer of it, and the keyring that accepts what it says.
#[derive(Drop)]
pub struct Offered {
    slice: Slice,
    offer: Offer,
    keyring: Keyring,
}

// The key of a number: of the delegate for 0, of others in rising order behind it.
fn node_of(number: u32) -> Nid {
    if number == 0 {
        return Nid([1; 32]);
    }
    let mut node = Nid([2; 32]);
    node.0[1] = u8::try_from(number / 256).unwrap_or(0);
    node.0[2] = u8::try_from(number % 256).unwrap_or(0);
    node
}

// The keyring that accepts the signatures of so many nodes of these refs.
fn keyring_of(alloc: Global, nodes: u32, refs: &[u8]) -> Option<Keyring> {
    let mut text = Vec::new(alloc);
    for number in 0..nodes {
        let node = node_of(number);
        let signature = signature_of(alloc, &node)?;
        push_accept(alloc, &mut text, node.0.as_slice(), refs, &signature)?;
    }
    Keyring::read(alloc, &text).ok()
}

// Adds what so many nodes signed of the refs of this name, and answers their remotes.
fn add_remotes(alloc: Global, filling: &mut Filling, nodes: u32, refs: &Oid) -> Option<Remotes> {
    let mut remotes = Remotes::new(alloc);
    for number in 0..nodes {
        let node = node_of(number);
        let commit = add_signed(alloc, filling, &node, refs)?;
        if !remotes.is_above(&node) {
            return None;
        }
        remotes.push(node, commit).ok()?;
    }
    Some(remotes)
}

impl Offered {
    /// The offer of so many nodes, of whom the first is the one delegate, over a chain of so many
    /// commits, which lacks its first file if it is not whole.
    pub fn new(alloc: Global, commits: u32, nodes: u32, is_whole: bool) -> Option<Offered> {
        let rid = Rid(name_of(Kind::Blob, DOCUMENT));
        let mut filling = Filling::new(alloc, &rid);
        let id = add_identity(alloc, &mut filling)?;
        let chain = add_chain(alloc, &mut filling, commits, is_whole)?;
        let refs = refs_at(alloc, chain.last()?)?;
        let keyring = keyring_of(alloc, nodes, &refs)?;
        let refs = filling.add(alloc, Kind::Blob, refs).ok()?;
        let remotes = add_remotes(alloc, &mut filling, nodes, &refs)?;
        Some(Offered {
            slice: filling.finish(alloc).ok()?,
            offer: Offer { id, remotes },
            keyring,
        })
    }

    /// Judges the offer, and answers how many remotes advance: none where the delegate's does not,
    /// since the offer is refused whole then.
    pub fn advancing(&mut self, alloc: Global) -> Option<usize> {
        if self.slice.remotes().as_slice().len() > 1024 {
            return None;
        }
        let (slice, offer, keyring) = (&mut self.slice, &self.offer, &self.keyring);
        match judge(alloc, slice, offer, keyring, &Scope::All).ok()? {
            Ok(judged) => Some(judged.advanced.as_slice().len()),
            Err(Whole::TooFewDelegates { .. }) => Some(0),
            Err(_) => None,
        }
    }
}
