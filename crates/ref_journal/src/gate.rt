// The gate at a place, and the record behind it.
ghost use Rattle.std.specs.Prelude.{◌≡◌, ◌↔◌, ◌<◌, ◌+◌, length, IfOk, IfSome, IsTrue};
ghost use Rattle.rad_outside.specs.Causes.{HasCause};
ghost use Rattle.ref_journal.specs.Gates.{IsGate, Rises};
ghost use Rattle.ref_journal.specs.Holds.{OnlyReads};

use crate::place::{fills, number_of};
use rad_outside::{Disk, Failed};

/// The most bytes that a body has.
pub(crate) const MOST_BODY: u64 = 34_000_000;

/// What stands at a gate's place.
#[derive(Clone, Copy, Debug, PartialEq, Eq)]
pub(crate) enum Gate {
    /// Any byte but 1.
    Closed,
    /// A byte 1 with a whole record, and the place of the next gate.
    Open(u64),
    /// A byte 1 whose record is too long, or goes past the end of the disk.
    Broken,
}

fn is_open(gate: u8) -> bool
    ensures { IsTrue result ↔ (gate ≡ 1) }
{
    gate == 1
}

// Reads the gate at a place of a disk of this size, with the length behind it.
pub(crate) fn gate_at<D: Disk>(disk: &mut D, size: u64, place: u64) -> Result<Gate, Failed>
    requires { place < size }
    ensures reads { OnlyReads D.loan D.faults D.reads_as D.images D.moment D.images_since
        disk.old disk.new }
    ensures cause { HasCause (D.faults disk.old) (D.faults disk.new) result }
    ensures gate { IfOk result (λ gate. IfSome (D.reads_as disk.old)
        (λ bytes. size ≡ length bytes → IsGate bytes place gate)) }
    ensures rises { IfOk result (λ gate. Rises place size gate) }
{
    let left = size - place;
    if left < 10 {
        return short_gate_at(disk, size, place);
    }
    let mut head = [0; 9];
    if !fills(disk, place, &mut head)? {
        return Ok(Gate::Broken);
    }
    if !is_open(head[0]) {
        return Ok(Gate::Closed);
    }
    let mut long = [0; 8];
    long.copy_from_slice(&head[1..]);
    let len = number_of(&long);
    if len > MOST_BODY {
        return Ok(Gate::Broken);
    }
    if left < 10 + len {
        return Ok(Gate::Broken);
    }
    Ok(Gate::Open(place + 9 + len))
}

// Reads the gate at a place behind which a disk of this size has no room for a record.
fn short_gate_at<D: Disk>(disk: &mut D, size: u64, place: u64) -> Result<Gate, Failed>
    requires inside { place < size }
    requires short { size < place + 10 }
    ensures reads { OnlyReads D.loan D.faults D.reads_as D.images D.moment D.images_since
        disk.old disk.new }
    ensures cause { HasCause (D.faults disk.old) (D.faults disk.new) result }
    ensures gate { IfOk result (λ gate. IfSome (D.reads_as disk.old)
        (λ bytes. size ≡ length bytes → IsGate bytes place gate)) }
    ensures rises { IfOk result (λ gate. Rises place size gate) }
{
    let mut gate = [0; 1];
    if !fills(disk, place, &mut gate)? {
        return Ok(Gate::Broken);
    }
    if is_open(gate[0]) {
        Ok(Gate::Broken)
    } else {
        Ok(Gate::Closed)
    }
}
