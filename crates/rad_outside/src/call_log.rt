// The calls that a disk in memory has had, and what it reads as after them.
ghost use Rattle.std.specs.Prelude.{◌≡◌, ◌++◌, ◌∷◌, [], length, is_ok, IfOk, OnOk, OnErr};
ghost use Rattle.rad_outside.specs.MemoryDisk.{latest, overwritten, part, state_after};

use crate::Fill;
use crate::call::Call;
use crate::crash::{image_after, reads_after};
use std::alloc::{AllocError, Global};

#[derive(Drop)]
pub(crate) struct CallLog {
    alloc: Global,
    first: Vec<u8>,
    calls: Vec<Call>,
    // What a write has left, from the first write on.
    written: Option<Vec<u8>>,
    ghost replayed: { latest first written ≡ (state_after first.items calls.items).reads },
}

impl CallLog {
    ghost use Rattle.rad_outside.specs.MemoryDisk.{new_state, synced, written, IsImage};
    ghost use Rattle.rad_outside.specs.Disks.{Follows, Torn, Within};
    ghost use Rattle.rad_outside.specs.Crashes.{filled_image, state_at};
    ghost use Rattle.rad_outside.specs.CallLog.{LogElapses, moment_after, moment_of, state_of};

    // No calls on these bytes.
    pub(crate) fn new(alloc: Global, first: Vec<u8>) -> Self
        ensures { state_of result ≡ new_state first.items }
    {
        CallLog {
            alloc,
            first,
            calls: Vec::new(alloc),
            written: None,
        }
    }

    // What the disk reads as.
    pub(crate) fn bytes(&self) -> &[u8]
        ensures { result.now ≡ (state_of self.now).reads }
    {
        match &self.written {
            Some(bytes) => bytes,
            None => &self.first,
        }
    }

    // How many calls there were.
    pub(crate) fn calls(&self) -> u64
        ensures { result ≡ moment_of self.now }
    {
        self.calls.len() as u64
    }

    // Keeps a size or a read.
    pub(crate) fn look(&mut self) -> Result<(), AllocError>
        ensures same { state_of self.new ≡ state_of self.old }
        ensures moment { moment_of self.new ≡ moment_after (is_ok result) self.old }
        ensures time { LogElapses self.old self.new }
    {
        self.calls.push(Call::Look)?;
        Ok(())
    }

    // Keeps a write, and does it: by half where it is to fail.
    pub(crate) fn write(&mut self, place: u64, from: &[u8], failed: bool) -> Result<(), AllocError>
        ensures ok { OnOk result
            (state_of self.new ≡ written place from.now failed (state_of self.old)) }
        ensures err { OnErr result (state_of self.new ≡ state_of self.old) }
        ensures torn { Torn place (length from.now)
            (state_of self.old).reads (state_of self.new).reads }
        ensures images { Follows (Torn place (length from.now))
            (IsImage (state_of self.old)) (IsImage (state_of self.new)) }
        ensures moment { moment_of self.new ≡ moment_after (is_ok result) self.old }
        ensures time { LogElapses self.old self.new }
    {
        let copy = copy_of(self.alloc, from)?;
        let next = write_over(self.alloc, self.bytes(), place, part_of(from, failed))?;
        self.calls.push(Call::Write(place, copy, failed))?;
        self.written = Some(next);
        Ok(())
    }

    // Keeps a sync.
    pub(crate) fn sync(&mut self, failed: bool) -> Result<(), AllocError>
        ensures ok { OnOk result (state_of self.new ≡ synced failed (state_of self.old)) }
        ensures within { Within (IsImage (state_of self.new)) (IsImage (state_of self.old)) }
        ensures err { OnErr result (state_of self.new ≡ state_of self.old) }
        ensures moment { moment_of self.new ≡ moment_after (is_ok result) self.old }
        ensures time { LogElapses self.old self.new }
    {
        self.calls.push(Call::Sync(failed))?;
        Ok(())
    }

    // The image that a crash leaves after the first `call` calls, where the ranges are filled so.
    pub(crate) fn crash(
        &self,
        alloc: Global,
        call: usize,
        fill: Fill,
    ) -> Result<Vec<u8>, AllocError>
        ensures { IfOk result
            (λ image. image.items ≡ filled_image fill (state_at self.now call)) }
    {
        let mut reads = self.first.to_vec(alloc)?;
        let mut image = self.first.to_vec(alloc)?;
        for had in &self.calls[..call.min(self.calls.len())] {
            image = image_after(alloc, image, &reads, had, fill)?;
            reads = reads_after(alloc, reads, had)?;
        }
        Ok(image)
    }
}

fn copy_of(alloc: Global, bytes: &[u8]) -> Result<Vec<u8>, AllocError>
    ensures { IfOk result (λ copy. copy.items ≡ bytes.now) }
{
    bytes.to_vec(alloc)
}

// The first half where the write fails, else all.
pub(crate) fn part_of(bytes: &[u8], failed: bool) -> &[u8]
    ensures { result.now ≡ part failed bytes.now }
{
    if failed {
        &bytes[..bytes.len() / 2]
    } else {
        bytes
    }
}

// The bytes after a write.
pub(crate) fn write_over(
    alloc: Global,
    old: &[u8],
    place: u64,
    bytes: &[u8],
) -> Result<Vec<u8>, AllocError>
    ensures { IfOk result (λ new. new.items ≡ overwritten place bytes.now old.now) }
{
    let at = place as usize;
    let front = at.min(old.len());
    let mut new = old[..front].to_vec(alloc)?;
    new.resize(at, 0)?;
    new.extend_from_slice(bytes)?;
    if bytes.len() < old.len() - front {
        new.extend_from_slice(&old[front + bytes.len()..])?;
    }
    Ok(new)
}
