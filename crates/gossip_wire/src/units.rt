// The units of frames: the bytes of the magic, the stream, the length, the payload.
ghost use Rattle.std.specs.Prelude.{◌≡◌, ◌<◌, ◌+◌, ◌++◌, ℕ, List, [], length};
ghost use Rattle.rad_base.specs.Varint.{varint_in};
ghost use Rattle.rad_base.specs.declared.varint.Varint.TheVariants as varint;
ghost use Rattle.unit_reader.specs.Units.{Looks};
ghost use Rattle.gossip_wire.specs.Judging.{first_unit, judge_length, judge_magic, judge_payload};
ghost use Rattle.gossip_wire.specs.Judging.{judge_stream, onto};

use rad_base::{Bytes, Varint, read_varint};
use std::alloc::Global;
use std::mem;
use unit_reader::{Look, Stop, Units};

const MAGIC: [u8; 4] = *b"rad\x01";

/// How a unit of a frame is broken, and where, in bytes from the first.
#[derive(Clone, Copy, Debug, PartialEq, Eq)]
pub enum FrameBreak {
    /// This byte is the first that differs from the magic.
    BadMagic(u64),
    /// The number that begins here is not in its shortest spelling.
    LongVarint(u64),
    /// The length that begins here is above 65,535.
    TooLong(u64),
    /// The stream that begins here is of kind 3.
    BadKind(u64),
}

/// A frame whose payload was not looked at.
#[derive(Debug, Drop)]
pub struct UnreadFrame {
    /// Where the frame begins.
    pub place: u64,
    /// Where its payload begins.
    pub inside: u64,
    /// The number of its stream, with the kind and the side in it.
    pub stream: u64,
    /// Its payload.
    pub payload: Bytes,
}

/// Which unit of a frame stands next.
#[derive(Clone, Copy, Debug, PartialEq, Eq)]
pub enum Field {
    /// The magic.
    Magic,
    /// The stream.
    Stream,
    /// The length, on this stream.
    Length(u64),
    /// The payload, on this stream and of this length.
    Payload(u64, usize),
}

/// Which unit stands next, and where.
#[derive(Clone, Copy, Debug, Drop)]
pub struct FrameUnits {
    /// Where the frame begins.
    pub frame: u64,
    /// Where the unit begins.
    pub field: u64,
    /// The unit.
    pub next: Field,
}

impl FrameUnits {
    /// The first unit of the first frame.
    pub fn new() -> Self
        ensures { result ≡ first_unit }
    {
        FrameUnits {
            frame: 0,
            field: 0,
            next: Field::Magic,
        }
    }

    fn onto(&self, count: usize, field: Field) -> FrameUnits
        ensures { result ≡ onto self.now count field }
    {
        FrameUnits {
            frame: self.frame,
            field: self.field.saturating_add(count as u64),
            next: field,
        }
    }
}

fn look_payload(
    units: &mut FrameUnits,
    stream: u64,
    payload: Vec<u8>,
) -> Result<Look<UnreadFrame>, Stop<FrameBreak>>
    ensures { Looks (judge_payload stream) units.old payload.items units.new [] result }
{
    let end = units.field.saturating_add(payload.len() as u64);
    let frame = UnreadFrame {
        place: units.frame,
        inside: units.field,
        stream,
        payload: Bytes::of(payload),
    };
    *units = FrameUnits {
        frame: end,
        field: end,
        next: Field::Magic,
    };
    Ok(Look::Whole(frame))
}

fn look_magic(
    units: &mut FrameUnits,
    held: &mut Vec<u8>,
) -> Result<Look<UnreadFrame>, Stop<FrameBreak>>
    requires { 0 < length held.old.items }
    ensures { Looks judge_magic units.old held.old.items units.new held.new.items result }
{
    if !MAGIC.starts_with(held) {
        let place = units.field.saturating_add(held.len() as u64 - 1);
        return Err(Stop::Broken(FrameBreak::BadMagic(place)));
    }
    if held.len() != MAGIC.len() {
        return Ok(Look::Short);
    }
    held.clear();
    *units = units.onto(4, Field::Stream);
    Ok(Look::Unit)
}

fn look_stream(
    units: &mut FrameUnits,
    held: &mut Vec<u8>,
) -> Result<Look<UnreadFrame>, Stop<FrameBreak>>
    ensures { Looks (λ u bytes. judge_stream u (varint_in bytes))
        units.old held.old.items units.new held.new.items result }
{
    match read_varint(held) {
        Varint::Short => Ok(Look::Short),
        Varint::Long => Err(Stop::Broken(FrameBreak::LongVarint(units.field))),
        Varint::Value(stream, size) => {
            if stream % 8 / 2 == 3 {
                return Err(Stop::Broken(FrameBreak::BadKind(units.field)));
            }
            held.clear();
            *units = units.onto(size, Field::Length(stream));
            Ok(Look::Unit)
        }
    }
}

fn look_length(
    units: &mut FrameUnits,
    alloc: Global,
    stream: u64,
    held: &mut Vec<u8>,
) -> Result<Look<UnreadFrame>, Stop<FrameBreak>>
    ensures { Looks (λ u bytes. judge_length stream u (varint_in bytes))
        units.old held.old.items units.new held.new.items result }
{
    match read_varint(held) {
        Varint::Short => Ok(Look::Short),
        Varint::Long => Err(Stop::Broken(FrameBreak::LongVarint(units.field))),
        Varint::Value(count, size) => {
            if count > 65_535 {
                return Err(Stop::Broken(FrameBreak::TooLong(units.field)));
            }
            held.clear();
            *units = units.onto(size, Field::Payload(stream, count as usize));
            if count == 0 {
                return look_payload(units, stream, Vec::new(alloc));
            }
            Ok(Look::Unit)
        }
    }
}

// How many bytes a number has, by its first byte.
fn number_size(held: &[u8]) -> usize
    ensures { (more : List ℕ) → 0 < length more → length held.now + length more < result
        → varint_in (held.now ++ more) ≡ varint.Short }
{
    match held.first() {
        None => 1,
        Some(first) => match *first {
            0..64 => 1,
            64..128 => 2,
            128..192 => 4,
            192..=255 => 8,
        },
    }
}

impl Units for FrameUnits {
    ghost use Rattle.gossip_wire.specs.Judging.{judge, never};

    type Item = UnreadFrame;

    type Fault = FrameBreak;

    ghost judge = { judge };

    ghost shut = { never };

    fn is_shut(&self) -> bool {
        false
    }

    #[tactic(auto, unfolding(crate::specs::Judging::judge))]
    fn want(&self, held: &[u8]) -> usize {
        let least = held.len() + 1;
        match self.next {
            Field::Magic => least,
            Field::Stream | Field::Length(_) => number_size(held).max(least),
            Field::Payload(_, count) => count.max(least),
        }
    }

    #[tactic(auto, unfolding(crate::specs::Judging::judge))]
    fn look(
        &mut self,
        alloc: Global,
        held: &mut Vec<u8>,
    ) -> Result<Look<UnreadFrame>, Stop<FrameBreak>> {
        match self.next {
            Field::Magic => look_magic(self, held),
            Field::Stream => look_stream(self, held),
            Field::Length(stream) => look_length(self, alloc, stream, held),
            Field::Payload(stream, count) => {
                if held.len() < count {
                    return Ok(Look::Short);
                }
                let payload = mem::replace(held, Vec::new(alloc));
                look_payload(self, stream, payload)
            }
        }
    }
}
