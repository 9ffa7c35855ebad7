// What a call does to what a disk in memory reads as, and to the image that a crash leaves of it.
ghost use Rattle.std.specs.Prelude.{◌≡◌, IfOk, replicate};
ghost use Rattle.rad_outside.specs.Crashes.{filled_image};
ghost use Rattle.rad_outside.specs.MemoryDisk.{State, after};

use crate::Fill;
use crate::call::Call;
use crate::call_log::{part_of, write_over};
use std::alloc::{AllocError, Global};

// What a disk reads as after a call.
pub(crate) fn reads_after(alloc: Global, reads: Vec<u8>, call: &Call) -> Result<Vec<u8>, AllocError>
    ensures { IfOk result (λ new. (s : State) → reads.items ≡ s.reads
        → new.items ≡ (after s call.now).reads) }
{
    match call {
        Call::Look => Ok(reads),
        Call::Sync(_) => Ok(reads),
        Call::Write(place, bytes, failed) => {
            write_over(alloc, &reads, *place, part_of(bytes, *failed))
        }
    }
}

// The image that a crash leaves after a call, where the disk read so before it.
pub(crate) fn image_after(
    alloc: Global,
    image: Vec<u8>,
    reads: &[u8],
    call: &Call,
    fill: Fill,
) -> Result<Vec<u8>, AllocError>
    ensures { IfOk result (λ new. (s : State) → reads.now ≡ s.reads
        → image.items ≡ filled_image fill s → new.items ≡ filled_image fill (after s call.now)) }
{
    match call {
        Call::Look => Ok(image),
        Call::Sync(true) => Ok(image),
        Call::Sync(false) => reads.to_vec(alloc),
        Call::Write(place, bytes, failed) => match fill {
            Fill::Old => Ok(image),
            Fill::New => write_over(alloc, &image, *place, part_of(bytes, *failed)),
            Fill::Byte(byte) => {
                write_over(alloc, &image, *place, &repeated(alloc, byte, bytes.len())?)
            }
        },
    }
}

// A byte, so many times.
fn repeated(alloc: Global, byte: u8, count: usize) -> Result<Vec<u8>, AllocError>
    ensures { IfOk result (λ bytes. bytes.items ≡ replicate count byte) }
{
    let mut bytes = Vec::new(alloc);
    bytes.resize(count, byte)?;
    Ok(bytes)
}
