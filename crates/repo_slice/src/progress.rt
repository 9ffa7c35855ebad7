// How far the judging of offered remotes has come.
ghost use Rattle.std.specs.Prelude.{◌≡◌, ◌↔◌, ◌≤◌, List, length, slice_range, IsTrue};
ghost use Rattle.rad_base.specs.declared.names.Nid.{Nid};
ghost use Rattle.rad_base.specs.declared.names.Oid.{Oid};
ghost use Rattle.commit_graph.specs.declared.root.Root.{Root};
ghost use Rattle.commit_graph.specs.Many.{AreClosures};
ghost use Rattle.commit_graph.specs.Objects.{ObjectMap};
ghost use Rattle.repo_slice.specs.Outcomes.{Case};
ghost use Rattle.repo_slice.specs.Rounds.{IsEarlyProgress, IsEarlyReach, IsProgress, IsReach};
ghost use Rattle.repo_slice.specs.Wanted.{IsWanted};
ghost use Rattle.repo_slice.specs.declared.wanting.Stage.{Stage};

use crate::Outcome;
use commit_graph::answer::Closure;
use commit_graph::{Root, joined};

/// How far the judging of a remote has come.
#[derive(Clone, Copy, Debug, PartialEq, Eq)]
pub enum Progress {
    /// It has its outcome.
    Over(Outcome),
    /// What comes next depends on what the roots from one place up to another reach.
    Waits {
        /// The place of its first root, from 0.
        from: usize,
        /// The place behind its last root.
        to: usize,
    },
}

/// How far the judging of each offered remote has come, in the order of the offer.
#[derive(Drop)]
pub(crate) struct Round {
    /// The roots of those that wait, in order.
    pub(crate) roots: Vec<Root>,
    /// How far each has come.
    pub(crate) found: Vec<Progress>,
}

/// Whether a remote waits, so that it got through the stage.
pub(crate) fn is_waiting(progress: Progress) -> bool
    ensures { (m : ObjectMap) (c : Case) (stage : Stage) (roots : List Root) (p : Nid × Oid)
        → IsProgress m c stage roots p progress → IsTrue result ↔ IsWanted m c stage p.0 p.1 }
{
    match progress {
        Progress::Over(_) => false,
        Progress::Waits { .. } => true,
    }
}

/// Those of the closures from one place up to another.
fn part_of(answers: &[Closure], from: usize, to: usize) -> &[Closure]
    ensures { from ≤ to → to ≤ length answers.now
        → result.now ≡ slice_range answers.now from to }
{
    answers.get(from..to).unwrap_or(&[])
}

/// The closure that a remote waits for, from those of all roots, or its outcome.
pub(crate) fn reach_of(answers: &[Closure], progress: Progress) -> Result<Closure, Outcome>
    ensures told { (m : ObjectMap) (c : Case) (stage : Stage) (roots : List Root) (p : Nid × Oid)
        → AreClosures m roots answers.now → IsProgress m c stage roots p progress
        → IsReach m c stage p result }
    ensures early { IsEarlyProgress progress → IsEarlyReach result }
{
    match progress {
        Progress::Over(outcome) => Err(outcome),
        Progress::Waits { from, to } => Ok(joined(part_of(answers, from, to))),
    }
}
