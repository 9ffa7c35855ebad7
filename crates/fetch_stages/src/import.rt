// The import of a bundle.
ghost use Rattle.std.specs.Prelude.{◌≡◌, ◌≤◌, [], IsTrue};
ghost use Rattle.rad_base.specs.declared.names.Rid.{Rid as IsRid};
ghost use Rattle.rad_base.specs.Faults.{Rose};
ghost use Rattle.fetch_stages.specs.Imports.{Imports, IsImportCause};
ghost use Rattle.fetch_stages.specs.Sections.{KeepsLoan};

use crate::bundle_sections::put_sections;
use crate::bundle_stop::end_by;
use crate::bundle_verdict::judge_offer;
use crate::input::{Input, piece_buffer};
use crate::job_end::ImportEnd;
use crate::repository::read_name;
use rad_outside::{Failed, Source};
use repo_slice::Keep;
use std::alloc::Global;

// Imports the bundle that an input has from its first byte on.
fn import_from<S: Source, K: Keep>(alloc: Global, input: &mut Input<S>, keep: &mut K) -> ImportEnd
    requires stands { (rid : IsRid) → IsTrue ((K.constants keep.old).stands rid) }
    requires unread { input.old.1 ≡ [] }
    ensures loan { S.loan input.new.0 ≡ S.loan input.old.0 }
    ensures later { S.faults input.old.0 ≤ S.faults input.new.0 }
    ensures keep { KeepsLoan K.loan K.faults keep.old keep.new }
    ensures constants { K.constants keep.new ≡ K.constants keep.old }
    ensures cause { IsImportCause (Rose (S.faults input.old.0) (S.faults input.new.0))
        (Rose (K.faults keep.old) (K.faults keep.new)) (K.held keep.old) result }
    ensures job { Imports K.made (K.constants keep.old) (K.end keep.new) (K.held keep.old)
        (K.held keep.new) keep.old keep.new (S.left input.old.0) (S.left input.new.0) result }
{
    let rid = match read_name(input) {
        Ok(Some(rid)) => rid,
        Ok(None) => return ImportEnd::InputBad(0),
        Err(Failed) => return ImportEnd::ReadFault,
    };
    match put_sections(alloc, input, keep, &rid) {
        Ok(offered) => judge_offer(input, keep, &rid, &offered),
        Err(stop) => end_by(&rid, stop),
    }
}

/// Runs the job of the bundle that the input has: reads its three sections, puts their objects in
/// batches while they come, judges what is offered with the scope of everybody and installs what
/// advances; the head is asked last. The answer is how the job of the bundle's repository ended.
/// `ReadFault`: a take from the input failed. `InputBad`: a unit is broken, or the bundle ends
/// inside it, at that place from the bundle's first byte, 0 being that of its name; or bytes follow
/// the bundle, and the place is its length. `NoMemory`: memory was refused before a byte was read.
pub fn import_job<S: Source, K: Keep>(alloc: Global, input: &mut S, keep: &mut K) -> ImportEnd
    requires stands { (rid : IsRid) → IsTrue ((K.constants keep.old).stands rid) }
    ensures later { S.faults input.old ≤ S.faults input.new }
    ensures keep { KeepsLoan K.loan K.faults keep.old keep.new }
    ensures constants { K.constants keep.new ≡ K.constants keep.old }
    ensures cause { IsImportCause (Rose (S.faults input.old) (S.faults input.new))
        (Rose (K.faults keep.old) (K.faults keep.new)) (K.held keep.old) result }
    ensures job { Imports K.made (K.constants keep.old) (K.end keep.new) (K.held keep.old)
        (K.held keep.new) keep.old keep.new (S.left input.old) (S.left input.new) result }
{
    let Ok(piece) = piece_buffer(alloc) else {
        return ImportEnd::NoMemory;
    };
    let mut pieces = Input::new(input, piece);
    let end = import_from(alloc, &mut pieces, keep);
    let _source = pieces.into_source();
    end
}
