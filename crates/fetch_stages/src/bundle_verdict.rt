// The verdict on the offer of a bundle.
ghost use Rattle.std.specs.Prelude.{◌≡◌, ◌≤◌, ◌^◌, IsSome, IsTrue};
ghost use Rattle.std.specs.Io.KnownBytes.{IsAtEnd};
ghost use Rattle.rad_base.specs.Faults.{Rose};
ghost use Rattle.repo_slice.specs.Keeps.{HasSlice, Held, LeavesOthers};
ghost use Rattle.fetch_stages.specs.BundleJobs.{EndsDone, FinishesBy, IsDoneCause, IsJudgeCause};
ghost use Rattle.fetch_stages.specs.Imports.{setting_of};
ghost use Rattle.fetch_stages.specs.Pieces.{Fills};
ghost use Rattle.fetch_stages.specs.Sections.{KeepsLoan};

use crate::bundle_sections::Offered;
use crate::bundle_stop::NAME_BYTES;
use crate::input::Input;
use crate::job_end::{ImportEnd, JobEnd};
use rad_base::Rid;
use rad_outside::{Failed, Source};
use repo_slice::{Judged, Keep, Scope};

// The end of a job whose offer was judged so and installed.
fn done<K: Keep>(keep: &mut K, rid: &Rid, judged: Judged) -> JobEnd
    requires stands { IsTrue ((K.constants keep.old).stands rid.now) }
    requires identity { IsSome (K.held keep.old rid.now).state.id }
    ensures leaves { LeavesOthers K.constants K.loan K.faults K.held rid.now keep.old keep.new }
    ensures slice { K.held keep.new rid.now ≡ K.held keep.old rid.now }
    ensures ends { EndsDone K.made K.constants K.end K.held rid.now judged keep.old keep.new result }
    ensures cause { IsDoneCause (K.held keep.old rid.now).objects (K.faults keep.old) (K.faults keep.new)
        result }
{
    match keep.head(rid) {
        Ok(head) => JobEnd::Done(judged, head),
        Err(why) => JobEnd::from(why),
    }
}

// Judges what is offered, installs what advances, and answers how the import ends.
pub(crate) fn judge_offer<S: Source, K: Keep>(
    input: &mut Input<S>,
    keep: &mut K,
    rid: &Rid,
    offered: &Offered,
) -> ImportEnd
    requires stands { IsTrue ((K.constants keep.old).stands rid.now) }
    requires within { offered.now.used ≤ 2 ^ 30 }
    ensures leaves { LeavesOthers K.constants K.loan K.faults K.held rid.now keep.old keep.new }
    ensures input { KeepsLoan S.loan S.faults input.old.0 input.new.0 }
    ensures fills { Fills (S.left input.old.0) (S.left input.new.0) input.old.1 input.new.1 }
    ensures job { (on : Held) → HasSlice on.state on.objects (K.held keep.old rid.now)
        → FinishesBy K.made (setting_of (K.constants keep.old) rid.now) (K.end keep.new) keep.old
        keep.new on offered.now.offer offered.now.used (K.held keep.new rid.now) input.new.1
        (IsAtEnd (S.left input.new.0)) result }
    ensures cause { IsJudgeCause rid.now (K.held keep.old rid.now).objects
        (Rose (S.faults input.old.0) (S.faults input.new.0))
        (Rose (K.faults keep.old) (K.faults keep.new)) result }
{
    let verdict = match keep.install(rid, &offered.offer, &Scope::All) {
        Ok(verdict) => verdict,
        Err(why) => return ImportEnd::Ended(*rid, JobEnd::from(why)),
    };
    if let Err(Failed) = input.fill() {
        return ImportEnd::ReadFault;
    }
    let rest = input.rest();
    if rest.is_empty() {
        match verdict {
            Ok(judged) => ImportEnd::Ended(*rid, done(keep, rid, judged)),
            Err(why) => ImportEnd::Ended(*rid, JobEnd::Refused(why)),
        }
    } else {
        ImportEnd::InputBad(NAME_BYTES + offered.used)
    }
}
