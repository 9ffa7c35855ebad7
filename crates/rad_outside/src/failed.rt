// The refusal of a call that reaches outside, and the count of such refusals.
ghost use Rattle.std.specs.Prelude.{◌≤◌};
ghost use Rattle.rad_base.specs.Faults.{Rose};

/// The thing outside failed: a file, a stream or a link.
#[derive(Clone, Copy, Debug, PartialEq, Eq)]
pub struct Failed;

// Counts a fault. The count stays at the type's end.
pub(crate) fn count_fault(faults: &mut u64)
    ensures later { faults.old ≤ faults.new }
    ensures rose { Rose faults.old faults.new }
{
    *faults = faults.saturating_add(1);
}
