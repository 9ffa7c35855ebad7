// The sections of a bundle.
ghost use Rattle.std.specs.Prelude.{◌≡◌, ◌≤◌, ◌^◌, IfErr, IfOk, IsTrue, Some};
ghost use Rattle.rad_base.specs.Faults.{Rose};
ghost use Rattle.rad_base.specs.declared.offer.Offer.{Offer as IsOffered};
ghost use Rattle.repo_slice.specs.Keeps.{LeavesOthers};
ghost use Rattle.fetch_wire.specs.declared.part.Part.TheVariants as parts;
ghost use Rattle.fetch_stages.specs.BundleJobs.{HasStopCause, PutsJob, StopsJob};
ghost use Rattle.fetch_stages.specs.Imports.{setting_of};
ghost use Rattle.fetch_stages.specs.Sections.{KeepsLoan};

use crate::bundle_stop::BundleStop;
use crate::input::Input;
use crate::next_section::next_section;
use fetch_wire::{Part, Which};
use rad_base::{Offer, Rid};
use rad_outside::Source;
use repo_slice::Keep;
use std::alloc::Global;

/// What the sections of a bundle came to.
#[derive(Drop)]
pub(crate) struct Offered {
    /// What the identity section offers.
    pub(crate) offer: Offer,
    /// How many bytes the sections have.
    pub(crate) used: u64,
}

// The offer at the head of an identity section.
fn offer_in(head: Option<Part>) -> Offer
    requires { (offer : IsOffered) × (head ≡ Some (parts.Offer offer)) }
    ensures { head ≡ Some (parts.Offer result) }
{
    match head {
        Some(Part::Offer(offer)) => offer,
        _ => unreachable!(),
    }
}

// Reads the three sections of a bundle and puts their objects.
pub(crate) fn put_sections<S: Source, K: Keep>(
    alloc: Global,
    input: &mut Input<S>,
    keep: &mut K,
    rid: &Rid,
) -> Result<Offered, BundleStop>
    requires stands { IsTrue ((K.constants keep.old).stands rid.now) }
    ensures leaves { LeavesOthers K.constants K.loan K.faults K.held rid.now keep.old keep.new }
    ensures input { KeepsLoan S.loan S.faults input.old.0 input.new.0 }
    ensures puts { IfOk result (λ offered. PutsJob K.made K.held
        (setting_of (K.constants keep.old) rid.now) (K.held keep.old rid.now) keep.old keep.new
        offered.offer offered.used (S.left input.old.0) (S.left input.new.0) input.old.1
        input.new.1) }
    ensures stops { IfErr result (StopsJob K.made (setting_of (K.constants keep.old) rid.now)
        (K.held keep.old rid.now) (K.end keep.new) keep.old keep.new (S.left input.old.0)
        (S.left input.new.0) input.old.1) }
    ensures cause { IfErr result (HasStopCause (Rose (S.faults input.old.0) (S.faults input.new.0))
        (K.faults keep.old) (K.faults keep.new) (K.held keep.old rid.now).objects) }
{
    let identity = next_section(alloc, input, Which::Identity, keep, rid, 0)?;
    let offer = offer_in(identity.head);
    let sigs = next_section(alloc, input, Which::Sigs, keep, rid, identity.used)?;
    let place = identity.used + sigs.used;
    let tips = next_section(alloc, input, Which::Tips, keep, rid, place)?;
    Ok(Offered {
        offer,
        used: place + tips.used,
    })
}
