// The walk over the gates of a journal.
ghost use Rattle.std.specs.Prelude.{◌≡◌, ◌↔◌, ◌≤◌, length, take, IfOk, IfSome, IsTrue, OnOk};
ghost use Rattle.rad_outside.specs.Causes.{HasCause};
ghost use Rattle.rad_outside.specs.Disks.{Only};
ghost use Rattle.ref_journal.specs.Frames.{header};
ghost use Rattle.ref_journal.specs.Gates.{IsShown};
ghost use Rattle.ref_journal.specs.Holds.{OnlyReads};

use crate::gate::{Gate, gate_at};
use crate::place::fills;
use rad_outside::{Disk, Failed};

const HEADER: [u8; 8] = [1, 0x72, 0x61, 0x64, 0x6a, 0x72, 0x6e, 1];

/// What a disk shows as a journal.
#[derive(Clone, Copy, Debug, PartialEq, Eq)]
pub(crate) enum Shown {
    /// No journal is made.
    Unmade,
    /// The least place at which it is broken.
    Damaged(u64),
    /// A journal, and the place of its end gate.
    End(u64),
}

// Syncs a disk, and finds where its journal ends.
pub(crate) fn find_end<D: Disk>(disk: &mut D) -> Result<Shown, Failed>
    ensures reads { OnlyReads D.loan D.faults D.reads_as D.images D.moment D.images_since
        disk.old disk.new }
    ensures cause { HasCause (D.faults disk.old) (D.faults disk.new) result }
    ensures shown { IfOk result (λ shown. IfSome (D.reads_as disk.old)
        (λ bytes. IsShown bytes shown)) }
    ensures only { OnOk result (IfSome (D.reads_as disk.old)
        (λ bytes. Only bytes (D.images disk.new))) }
{
    disk.sync()?;
    let size = disk.size()?;
    end_of(disk, size)
}

// Walks over the journal on a disk of this size.
fn end_of<D: Disk>(disk: &mut D, size: u64) -> Result<Shown, Failed>
    ensures reads { OnlyReads D.loan D.faults D.reads_as D.images D.moment D.images_since
        disk.old disk.new }
    ensures cause { HasCause (D.faults disk.old) (D.faults disk.new) result }
    ensures shown { IfOk result (λ shown. IfSome (D.reads_as disk.old)
        (λ bytes. size ≡ length bytes → IsShown bytes shown)) }
{
    if size < 9 {
        return Ok(Shown::Unmade);
    }
    let mut head = [0; 8];
    if !fills(disk, 0, &mut head)? {
        return Ok(Shown::Damaged(0));
    }
    if head[0] != 1 {
        return Ok(Shown::Unmade);
    }
    if !is_header(&head) {
        return Ok(Shown::Damaged(0));
    }
    last_gate(disk, size)
}

fn is_header(head: &[u8]) -> bool
    ensures { IsTrue result ↔ (head.now ≡ header) }
{
    head == HEADER.as_slice()
}

// Walks over the gates behind the header to the first that is not open, or whose record is broken.
fn last_gate<D: Disk>(disk: &mut D, size: u64) -> Result<Shown, Failed>
    requires { 9 ≤ size }
    ensures reads { OnlyReads D.loan D.faults D.reads_as D.images D.moment D.images_since
        disk.old disk.new }
    ensures cause { HasCause (D.faults disk.old) (D.faults disk.new) result }
    ensures shown { IfOk result (λ shown. IfSome (D.reads_as disk.old)
        (λ bytes. size ≡ length bytes → take 8 bytes ≡ header → IsShown bytes shown)) }
{
    let mut place = 8;
    'walking: loop {
        match gate_at(disk, size, place)? {
            Gate::Closed => return Ok(Shown::End(place)),
            Gate::Broken => return Ok(Shown::Damaged(place)),
            Gate::Open(next) => place = next,
        }
    }
}
