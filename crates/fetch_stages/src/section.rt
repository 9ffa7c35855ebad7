// One section of a job.
ghost use Rattle.std.specs.Prelude.{IfErr, IfOk, IsTrue};
ghost use Rattle.repo_slice.specs.Keeps.{LeavesOthers};
ghost use Rattle.fetch_stages.specs.Sections.{HasKeepCause, HasReadCause, KeepsLoan};
ghost use Rattle.fetch_stages.specs.Sections.{PutsSection, StopsReading};

use crate::input::Input;
use crate::piece::put_piece;
use crate::section_stop::SectionStop;
use crate::taken::Taken;
use fetch_wire::{Part, SectionReader, Which};
use rad_base::Rid;
use rad_outside::{Failed, Source};
use repo_slice::Keep;
use std::alloc::Global;

/// A section that was read and put.
#[derive(Debug, Drop)]
pub struct Section {
    /// Its head, or the refusal that stands in its place.
    pub head: Option<Part>,
    /// How many bytes it has.
    pub used: u64,
}

/// Reads a section of a kind from at most so many bytes, and puts its objects in batches while they
/// come. Where it stops, the batch that more objects might have joined is not put.
pub fn put_section<S: Source, K: Keep>(
    alloc: Global,
    input: &mut Input<S>,
    which: Which,
    keep: &mut K,
    rid: &Rid,
    limit: u64,
) -> Result<Section, SectionStop>
    requires stands { IsTrue ((K.constants keep.old).stands rid.now) }
    ensures leaves { LeavesOthers K.constants K.loan K.faults K.held rid.now keep.old keep.new }
    ensures input { KeepsLoan S.loan S.faults input.old.0 input.new.0 }
    ensures puts { IfOk result (PutsSection K.made K.held rid.now (K.constants keep.old).caller
        keep.old keep.new which limit (S.left input.old.0) (S.left input.new.0) input.old.1
        input.new.1) }
    ensures stops { IfErr result (StopsReading K.made K.held K.constants K.end rid.now keep.old
        keep.new which limit (S.left input.old.0) (S.left input.new.0) input.old.1 input.new.1) }
    ensures cause { IfErr result (HasKeepCause (K.held keep.old rid.now).objects
        (K.faults keep.old) (K.faults keep.new)) }
    ensures failed { IfErr result (HasReadCause (S.faults input.old.0) (S.faults input.new.0)) }
{
    let mut reader = SectionReader::new(alloc, which);
    let mut taken = Taken::new(alloc);
    let mut left = limit;
    'reading: while left > 0 {
        if let Err(Failed) = input.fill() {
            return Err(SectionStop::ReadFault);
        }
        let rest = input.rest();
        if rest.is_empty() {
            return Err(SectionStop::Ends(reader.place()));
        }
        let most = (rest.len() as u64).min(left) as usize;
        let used = put_piece(alloc, &mut reader, &mut taken, keep, rid, &rest[..most])?;
        input.used(used.count);
        left -= used.count as u64;
        if used.done {
            taken.batcher.finish(keep, rid)?;
            return Ok(Section {
                head: taken.head,
                used: limit - left,
            });
        }
    }
    Err(SectionStop::TooLong(reader.place()))
}
