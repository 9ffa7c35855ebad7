// A section of a bundle.
ghost use Rattle.std.specs.Prelude.{◌≡◌, ◌≤◌, ◌-◌, ◌<◌, ◌^◌, length, IfErr, IfOk, IsTrue, OnErr, OnOk};
ghost use Rattle.std.specs.Io.KnownBytes.{IsAtEnd};
ghost use Rattle.rad_base.specs.Faults.{Rose};
ghost use Rattle.repo_slice.specs.Keeps.{LeavesOthers};
ghost use Rattle.fetch_stages.specs.BundleJobs.{HasStopCause, IsNoSection, IsPastLimit, IsStopAt};
ghost use Rattle.fetch_stages.specs.BundleJobs.{IsUntouched};
ghost use Rattle.fetch_stages.specs.BundleJobs.{PutsNext, StopsNext};
ghost use Rattle.fetch_stages.specs.Imports.{setting_of};
ghost use Rattle.fetch_stages.specs.Jobs.{BeginsRefusal};
ghost use Rattle.fetch_stages.specs.Pieces.{Fills};
ghost use Rattle.fetch_stages.specs.Sections.{KeepsLoan};

use crate::bundle_stop::BundleStop;
use crate::input::Input;
use crate::section::{Section, put_section};
use crate::section_stop::SectionStop;
use fetch_wire::Which;
use rad_base::Rid;
use rad_outside::{Failed, Source};
use repo_slice::{Keep, KeepFault};
use std::alloc::Global;

/// The most bytes that the sections of a job have.
const MOST_BYTES: u64 = 1_073_741_824;

/// The first byte of a refusal.
const REFUSAL: u8 = 0x52;

// Whether a section may begin behind so many bytes of sections. Its first byte waits then, and is
// not that of a refusal.
fn begin_section<S: Source>(input: &mut Input<S>, place: u64) -> Result<(), BundleStop>
    requires { place ≤ 2 ^ 30 }
    ensures input { KeepsLoan S.loan S.faults input.old.0 input.new.0 }
    ensures fills { Fills (S.left input.old.0) (S.left input.new.0) input.old.1 input.new.1 }
    ensures some { OnOk result (0 < length input.new.1) }
    ensures begins { OnOk result (BeginsRefusal input.new.1 → ⊥) }
    ensures stops { IfErr result (IsNoSection (Rose (S.faults input.old.0) (S.faults input.new.0))
        (IsAtEnd (S.left input.new.0)) place (2 ^ 30 - place) input.new.1) }
{
    if let Err(Failed) = input.fill() {
        return Err(BundleStop::ReadFault);
    }
    match input.rest().first().copied() {
        None => Err(BundleStop::Bad(place)),
        Some(_) if place == MOST_BYTES => Err(BundleStop::TooLong),
        Some(byte) if byte == REFUSAL => Err(BundleStop::Bad(place)),
        Some(_) => Ok(()),
    }
}

// What the job makes of the stop of a section, which begins behind so many bytes of sections.
fn stop_at<S: Source>(input: &mut Input<S>, place: u64, stop: SectionStop) -> BundleStop
    ensures input { KeepsLoan S.loan S.faults input.old.0 input.new.0 }
    ensures fills { Fills (S.left input.old.0) (S.left input.new.0) input.old.1 input.new.1 }
    ensures same { IsUntouched ((S.left input.new.0 ≡ S.left input.old.0)
        × (input.new.1 ≡ input.old.1)) stop }
    ensures is { IsStopAt (Rose (S.faults input.old.0) (S.faults input.new.0))
        (IsAtEnd (S.left input.new.0)) place input.new.1 stop result }
{
    match stop {
        SectionStop::ReadFault => BundleStop::ReadFault,
        SectionStop::Ends(unit) => BundleStop::Bad(place.saturating_add(unit)),
        SectionStop::TooLong(unit) => past_limit(input, place.saturating_add(unit)),
        SectionStop::Bad(broken) => BundleStop::Bad(place.saturating_add(broken.place)),
        SectionStop::NoMemory => BundleStop::Keep(KeepFault::NoMemory),
        SectionStop::Keep(why) => BundleStop::Keep(why),
    }
}

// The limit stands inside the unit at this place: the job is too long where more bytes follow.
fn past_limit<S: Source>(input: &mut Input<S>, place: u64) -> BundleStop
    ensures input { KeepsLoan S.loan S.faults input.old.0 input.new.0 }
    ensures fills { Fills (S.left input.old.0) (S.left input.new.0) input.old.1 input.new.1 }
    ensures is { IsPastLimit (Rose (S.faults input.old.0) (S.faults input.new.0))
        (IsAtEnd (S.left input.new.0)) place input.new.1 result }
{
    if let Err(Failed) = input.fill() {
        return BundleStop::ReadFault;
    }
    if input.rest().is_empty() {
        BundleStop::Bad(place)
    } else {
        BundleStop::TooLong
    }
}

// Reads a section of a kind, which begins behind so many bytes of sections, and puts its objects.
pub(crate) fn next_section<S: Source, K: Keep>(
    alloc: Global,
    input: &mut Input<S>,
    which: Which,
    keep: &mut K,
    rid: &Rid,
    place: u64,
) -> Result<Section, BundleStop>
    requires stands { IsTrue ((K.constants keep.old).stands rid.now) }
    requires within { place ≤ 2 ^ 30 }
    ensures leaves { LeavesOthers K.constants K.loan K.faults K.held rid.now keep.old keep.new }
    ensures input { KeepsLoan S.loan S.faults input.old.0 input.new.0 }
    ensures puts { IfOk result (PutsNext K.made K.held rid.now (K.constants keep.old).caller keep.old
        keep.new which (2 ^ 30 - place) (S.left input.old.0) (S.left input.new.0) input.old.1
        input.new.1) }
    ensures stops { IfErr result (StopsNext K.made (setting_of (K.constants keep.old) rid.now)
        (K.end keep.new) keep.old keep.new which place (2 ^ 30 - place) (S.left input.old.0)
        (S.left input.new.0) input.old.1) }
    ensures cause { IfErr result (HasStopCause (Rose (S.faults input.old.0) (S.faults input.new.0))
        (K.faults keep.old) (K.faults keep.new) (K.held keep.old rid.now).objects) }
{
    begin_section(input, place)?;
    match put_section(alloc, input, which, keep, rid, MOST_BYTES - place) {
        Ok(section) => Ok(section),
        Err(stop) => Err(stop_at(input, place, stop)),
    }
}
