// Whole files from sources, and whole texts to sinks.
ghost use Rattle.std.specs.Prelude.{◌≡◌, ◌≤◌, ◌<◌, ◌^◌, length, IfOk, IfSome, OnOk, IsErrOf};
ghost use Rattle.std.specs.Io.KnownBytes.{Appends, IsAtEnd};
ghost use Rattle.rad_base.specs.Faults.{Rose};
ghost use Rattle.rad_outside.specs.Causes.{HasCause};
ghost use Rattle.rad_node.specs.Transfers.{AppendsFront, Took};
ghost use Rattle.rad_node.specs.declared.transfer.ReadFault.TheVariants.{NoMemory as OutOfMemory};

use rad_outside::{Failed, Sink, Source};
use std::alloc::{AllocError, Global};

/// The most bytes that are asked of a source at once.
pub(crate) const PIECE: usize = 65536;

/// Why a file is not read.
#[derive(Clone, Copy, Debug, PartialEq, Eq)]
pub(crate) enum ReadFault {
    /// A take failed.
    Failed,
    /// There are more bytes than the limit.
    TooLong,
    /// Memory was refused.
    NoMemory,
}

impl From<AllocError> for ReadFault {
    ghost from_gives = { λ _ fault. fault ≡ OutOfMemory };

    fn from(_: AllocError) -> Self {
        ReadFault::NoMemory
    }
}

/// All bytes that a source has left, taken in pieces of at most 64 KiB. It takes one byte more than
/// the limit at the most. `Failed` where a take failed, `TooLong` where more bytes than the limit
/// are left, `NoMemory` where memory was refused.
pub(crate) fn read_all<S: Source>(
    alloc: Global,
    source: &mut S,
    limit: usize,
) -> Result<Vec<u8>, ReadFault>
    requires { limit < 2 ^ 62 }
    ensures later { S.faults source.old ≤ S.faults source.new }
    ensures failed { IsErrOf result ReadFault.Failed
        → Rose (S.faults source.old) (S.faults source.new) }
    ensures bytes { IfOk result (λ all. IfSome (S.left source.old) (λ bytes. all.items ≡ bytes)) }
    ensures few { IfOk result (λ all. length all.items ≤ limit) }
    ensures too_long { IsErrOf result ReadFault.TooLong
        → IfSome (S.left source.old) (λ bytes. limit < length bytes) }
{
    let mut all = Vec::new(alloc);
    let mut piece = zeros(alloc, PIECE)?;
    'taking: while all.len() <= limit {
        let room = (limit - all.len()).min(PIECE - 1) + 1;
        let n = take_more(source, &mut piece[..room], &mut all)?;
        if n == 0 {
            return Ok(all);
        }
    }
    Err(ReadFault::TooLong)
}

/// This many zeros.
pub(crate) fn zeros(alloc: Global, count: usize) -> Result<Vec<u8>, AllocError>
    ensures { IfOk result (λ zeros. length zeros.items ≡ count) }
{
    let zeros = vec![in alloc; 0; count]?;
    Ok(zeros)
}

// Adds the bytes of one take, as many as the buffer has at the most. 0 of them is the end.
fn take_more<S: Source>(
    source: &mut S,
    piece: &mut [u8],
    all: &mut Vec<u8>,
) -> Result<usize, ReadFault>
    ensures later { S.faults source.old ≤ S.faults source.new }
    ensures failed { IsErrOf result ReadFault.Failed
        → Rose (S.faults source.old) (S.faults source.new) }
    ensures not_long { IsErrOf result ReadFault.TooLong → ⊥ }
    ensures took { IfOk result
        (Took (S.left source.old) (S.left source.new) all.old.items all.new.items) }
    ensures room { IfOk result (λ n. n ≤ length piece.old) }
    ensures end { 0 < length piece.old → IfOk result (λ n. n ≡ 0 → IsAtEnd (S.left source.new)) }
{
    match source.take(piece) {
        Err(Failed) => Err(ReadFault::Failed),
        Ok(n) => {
            all.extend_from_slice(&piece[..n])?;
            Ok(n)
        }
    }
}

/// Gives all of these bytes.
pub(crate) fn give_all<W: Sink>(sink: &mut W, bytes: &[u8]) -> Result<(), Failed>
    ensures cause { HasCause (W.faults sink.old) (W.faults sink.new) result }
    ensures all { OnOk result (Appends (W.given sink.old) (W.given sink.new) bytes.now) }
    ensures front { AppendsFront (W.given sink.old) (W.given sink.new) bytes.now }
{
    let mut rest = bytes;
    'giving: while !rest.is_empty() {
        let n = sink.give(rest)?;
        rest = &rest[n..];
    }
    Ok(())
}
