// The end of a run that gives its report.
ghost use Rattle.rad_base.specs.Faults.{Rose};
ghost use Rattle.rad_node.specs.Runs.{IsReportEnd};
ghost use Rattle.rad_node.specs.Transfers.{GivesBy};

use crate::status::Status;
use crate::transfer::give_all;
use rad_outside::{Failed, Sink};

/// Gives a report, and answers how a run ends that says so: `SomeRefused` where something was
/// refused, else `Ok`; `WriteFault` where the sink failed.
pub(crate) fn give_report<W: Sink>(out: &mut W, text: &[u8], refused: bool) -> Status
    ensures end { IsReportEnd refused (Rose (W.faults out.old) (W.faults out.new)) result }
    ensures gives { GivesBy result (W.given out.old) (W.given out.new) text.now }
{
    match give_all(out, text) {
        Err(Failed) => Status::WriteFault,
        Ok(()) if refused => Status::SomeRefused,
        Ok(()) => Status::Ok,
    }
}
