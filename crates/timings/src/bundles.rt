// Bundles that are made by rule, and what they are of.
use commit_graph::MemObjects;
use fetch_wire::{Part, Parts, SectionReader, Which};
use keyring::Keyring;
use rad_base::{Offer, Oid, Rid};
use rad_vectors::{Made, bundle_of};
use std::alloc::Global;

/// The bundle of so many commits, from 1 to 100,000.
pub fn made_of(alloc: Global, commits: u32) -> Option<Made> {
    if commits == 0 || commits > 100_000 {
        return None;
    }
    bundle_of(alloc, commits).ok()
}

/// The parts of a section at a place of a bundle, and the place behind it.
pub fn section_at(
    alloc: Global,
    which: Which,
    bundle: &[u8],
    place: usize,
) -> Option<(Parts, usize)> {
    let mut reader = SectionReader::new(alloc, which);
    let fed = reader.feed(alloc, bundle.get(place..)?).ok()?;
    Some((fed.parts, place.checked_add(fed.used)?))
}

/// The repository that a bundle is of.
#[derive(Drop)]
pub struct Repository {
    /// Its name.
    pub rid: Rid,
    /// Its objects.
    pub objects: MemObjects,
    /// Its identity commit and its remotes.
    pub offer: Offer,
    /// The keyring that accepts what it says.
    pub keyring: Keyring,
    /// Where the tips section begins in the bundle.
    pub tips: usize,
}

// The name of the repository, in front of its bundle.
fn rid_of(bundle: &[u8]) -> Option<Rid> {
    let mut name = [0; 20];
    name.copy_from_slice(bundle.get(..20)?);
    Some(Rid(Oid(name)))
}

// Puts the objects of a section.
fn put_all(alloc: Global, objects: &mut MemObjects, parts: &Parts) -> Option<()> {
    for index in 0..parts.len() {
        if let Some(Part::Object(kind, content)) = parts.get(index) {
            let _name = objects.put(alloc, *kind, content.as_slice()).ok()?;
        }
    }
    Some(())
}

impl Repository {
    /// The repository of a bundle that was made.
    pub fn of(alloc: Global, made: &Made) -> Option<Repository> {
        let bundle = made.bundle.as_slice();
        let rid = rid_of(bundle)?;
        let (mut identity, sigs) = section_at(alloc, Which::Identity, bundle, 20)?;
        let (signed, tips) = section_at(alloc, Which::Sigs, bundle, sigs)?;
        let (found, _end) = section_at(alloc, Which::Tips, bundle, tips)?;
        let Some(Part::Offer(offer)) = identity.pop_front() else {
            return None;
        };
        let mut objects = MemObjects::new(alloc);
        put_all(alloc, &mut objects, &identity)?;
        put_all(alloc, &mut objects, &signed)?;
        put_all(alloc, &mut objects, &found)?;
        let keyring = Keyring::read(alloc, made.keyring.as_slice()).ok()?;
        Some(Repository {
            rid,
            objects,
            offer,
            keyring,
            tips,
        })
    }
}
