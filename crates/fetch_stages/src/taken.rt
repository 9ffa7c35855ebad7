// The parts of a section, taken one by one.
ghost use Rattle.std.specs.Prelude.{◌≡◌, [], None, Some, IfErr, IsTrue, OnOk};
ghost use Rattle.std.specs.Option.{option_or};
ghost use Rattle.repo_entries.specs.Batches.{AreContents};
ghost use Rattle.repo_slice.specs.Keeps.{IsKeepCause, IsNoChange, LeavesOthers};
ghost use Rattle.fetch_stages.specs.Puts.{Joins, StopsJoining};
ghost use Rattle.fetch_stages.specs.Sections.{head_in, head_of, object_of_part, objects_among};

use crate::batcher::Batcher;
use fetch_wire::{Part, Parts};
use rad_base::Rid;
use repo_slice::{Keep, KeepFault};
use std::alloc::Global;

/// What came of a section so far.
#[derive(Drop)]
pub(crate) struct Taken {
    /// The head, or a refusal in place of the section.
    pub(crate) head: Option<Part>,
    /// The objects that wait.
    pub(crate) batcher: Batcher,
}

impl Taken {
    // Nothing came.
    pub(crate) fn new(alloc: Global) -> Self
        ensures head { result.head ≡ None }
        ensures none { result.batcher ≡ [] }
    {
        Taken {
            head: None,
            batcher: Batcher::new(alloc),
        }
    }

    // Takes a part: an object joins the others, and the first other part is the head.
    fn take_part<K: Keep>(&mut self, keep: &mut K, rid: &Rid, part: Part) -> Result<(), KeepFault>
        requires stands { IsTrue ((K.constants keep.old).stands rid.now) }
        requires size { AreContents (object_of_part part) }
        ensures leaves { LeavesOthers K.constants K.loan K.faults K.held rid.now keep.old keep.new }
        ensures head { OnOk result (self.new.head ≡ option_or self.old.head (head_in part)) }
        ensures joins { OnOk result (Joins K.made K.held rid.now (K.constants keep.old).caller
            keep.old keep.new self.old.batcher (object_of_part part) self.new.batcher) }
        ensures stops { IfErr result (StopsJoining K.made rid.now (K.constants keep.old).caller
            (K.end keep.new) keep.old keep.new self.old.batcher (object_of_part part)) }
        ensures cause { IfErr result (IsKeepCause (K.held keep.old rid.now).objects
            (K.faults keep.old) (K.faults keep.new)) }
        ensures unchanged { IfErr result IsNoChange }
    {
        match part {
            Part::Object(kind, content) => self.batcher.add(keep, rid, kind, content),
            head => {
                self.set_head(head);
                Ok(())
            }
        }
    }

    // The head is this part, if none came before.
    fn set_head(&mut self, part: Part)
        ensures head { self.new.head ≡ option_or self.old.head (Some part) }
        ensures batcher { self.new.batcher ≡ self.old.batcher }
    {
        if self.head.is_none() {
            self.head = Some(part);
        }
    }

    // Takes parts, in order.
    pub(crate) fn take_parts<K: Keep>(
        &mut self,
        keep: &mut K,
        rid: &Rid,
        mut parts: Parts,
    ) -> Result<(), KeepFault>
        requires stands { IsTrue ((K.constants keep.old).stands rid.now) }
        requires sizes { AreContents (objects_among parts) }
        ensures leaves { LeavesOthers K.constants K.loan K.faults K.held rid.now keep.old keep.new }
        ensures head { OnOk result (self.new.head ≡ option_or self.old.head (head_of parts)) }
        ensures joins { OnOk result (Joins K.made K.held rid.now (K.constants keep.old).caller
            keep.old keep.new self.old.batcher (objects_among parts) self.new.batcher) }
        ensures stops { IfErr result (StopsJoining K.made rid.now (K.constants keep.old).caller
            (K.end keep.new) keep.old keep.new self.old.batcher (objects_among parts)) }
        ensures cause { IfErr result (IsKeepCause (K.held keep.old rid.now).objects
            (K.faults keep.old) (K.faults keep.new)) }
        ensures unchanged { IfErr result IsNoChange }
    {
        'taking: while let Some(part) = parts.pop_front() {
            self.take_part(keep, rid, part)?;
        }
        Ok(())
    }
}
