// One piece of a section.
ghost use Rattle.std.specs.Prelude.{IfErr, IsTrue};
ghost use Rattle.hex.specs.Hex.{IsBytes};
ghost use Rattle.repo_slice.specs.Keeps.{LeavesOthers};
ghost use Rattle.fetch_stages.specs.Sections.{FeedsPiece, HasKeepCause, HasReadBytes};

use crate::section_stop::SectionStop;
use crate::taken::Taken;
use fetch_wire::{SectionFault, SectionReader};
use rad_base::Rid;
use repo_slice::Keep;
use std::alloc::Global;

/// What a piece of a section gave.
#[derive(Clone, Copy)]
pub(crate) struct Used {
    /// How many of its bytes were used: all of them, where the section did not end.
    pub(crate) count: usize,
    /// Whether the section has ended.
    pub(crate) done: bool,
}

// Feeds a piece to the reader of a section, and takes the parts that became whole; at a broken unit
// those before it.
pub(crate) fn put_piece<K: Keep>(
    alloc: Global,
    reader: &mut SectionReader,
    taken: &mut Taken,
    keep: &mut K,
    rid: &Rid,
    piece: &[u8],
) -> Result<Used, SectionStop>
    requires stands { IsTrue ((K.constants keep.old).stands rid.now) }
    requires read { HasReadBytes reader.old }
    ensures leaves { LeavesOthers K.constants K.loan K.faults K.held rid.now keep.old keep.new }
    ensures bytes { IsBytes piece.now }
    ensures puts { FeedsPiece K.made K.held rid.now (K.constants keep.old).caller (K.end keep.new)
        keep.old keep.new piece.now taken.old taken.new reader.old reader.new result }
    ensures cause { IfErr result (HasKeepCause (K.held keep.old rid.now).objects
        (K.faults keep.old) (K.faults keep.new)) }
{
    match reader.feed(alloc, piece) {
        Ok(fed) => {
            taken.take_parts(keep, rid, fed.parts)?;
            Ok(Used {
                count: fed.used,
                done: fed.done,
            })
        }
        Err(SectionFault::Bad(broken)) => {
            let parts = reader.take_before(alloc);
            taken.take_parts(keep, rid, parts)?;
            Err(SectionStop::Bad(broken))
        }
        Err(SectionFault::NoMemory) => Err(SectionStop::NoMemory),
    }
}
