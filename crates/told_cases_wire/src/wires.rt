// Frames from a link in memory, which gives pieces, fails at times, and has a budget.
use crate::frames::{Came, End};
use gossip_wire::{Wire, WireFault};
use rad_outside::MemLink;
use std::alloc::Global;
use told_rows::pieces::Agreed;
use told_rows::texts::text;

// What a link gives at a time, which of its calls fails, and the budget at first.
#[derive(Clone, Copy)]
struct Way {
    piece: usize,
    fails: Option<u64>,
    budget: usize,
}

// What a call of a wire gave.
#[derive(Drop)]
enum Gave {
    Frame,
    Again,
    Over(End),
}

// The next call. A budget that ended is raised to all the bytes.
fn step(alloc: Global, wire: &mut Wire<MemLink>, came: &mut Came, bytes: &[u8]) -> Option<Gave> {
    match wire.next(alloc) {
        Ok(Some((place, frame))) => {
            came.add(alloc, place, &frame, bytes)?;
            Some(Gave::Frame)
        }
        Ok(None) => Some(Gave::Over(End::Whole)),
        Err(WireFault::LinkFault) => Some(Gave::Again),
        Err(WireFault::TooLong) => {
            wire.raise(bytes.len() as u64);
            Some(Gave::Again)
        }
        Err(WireFault::Inside(place)) => Some(Gave::Over(End::Inside(place))),
        Err(WireFault::Spoilt(fault)) => Some(Gave::Over(End::Broken(fault))),
        Err(WireFault::NoMemory) => None,
    }
}

// What a wire gives of these bytes. Each frame has bytes, so that there are not more calls.
fn read(alloc: Global, bytes: &[u8], way: Way) -> Option<String> {
    let mut fails = Vec::new(alloc);
    if let Some(call) = way.fails {
        fails.push(call).ok()?;
    }
    let input = bytes.to_vec(alloc).ok()?;
    let link = MemLink::new(alloc, input, way.piece.max(1), fails);
    let mut wire = Wire::new(alloc, link, way.budget as u64);
    let mut came = Came::new(alloc);
    for _ in 0..bytes.len().saturating_add(9) {
        if let Gave::Over(end) = step(alloc, &mut wire, &mut came, bytes)? {
            return came.told(alloc, end);
        }
    }
    text(alloc, "no end")
}

// Adds what comes of a way.
fn try_way(
    alloc: Global,
    agreed: &mut Agreed,
    bytes: &[u8],
    piece: usize,
    fails: Option<u64>,
    budget: usize,
) -> Option<()> {
    let way = Way {
        piece,
        fails,
        budget,
    };
    agreed.add(read(alloc, bytes, way)?);
    Some(())
}

/// The frames and how the bytes end behind them, whatever the link does.
pub fn link_answer(alloc: Global, bytes: &[u8]) -> Option<String> {
    let all = bytes.len();
    let mut agreed = Agreed::new();
    for piece in [all, 1, 7] {
        try_way(alloc, &mut agreed, bytes, piece, None, all)?;
    }
    for budget in [all / 3, all.saturating_sub(1)] {
        try_way(alloc, &mut agreed, bytes, 7, None, budget)?;
    }
    for call in 0..3 {
        try_way(alloc, &mut agreed, bytes, 9, Some(call), all)?;
    }
    agreed.text(alloc)
}
