// How bytes are cut, for calls that take them in pieces.
use std::alloc::Global;

// So many ways to cut at random are tried.
const WAYS: u64 = 4;

// Bytes of which there are no more are cut at each place, others at so many.
const SHORT: usize = 48;

// The next number of a row of numbers that looks random.
fn next(state: u64) -> u64 {
    state
        .wrapping_mul(6_364_136_223_846_793_005)
        .wrapping_add(1_442_695_040_888_963_407)
}

// A length by a number of the row: often none or few bytes, at times many.
fn length_of(state: u64) -> usize {
    let high = state >> 33;
    match high % 4 {
        0 => (high >> 2 & 1) as usize,
        1 => (high >> 2 & 7) as usize,
        2 => (high >> 2 & 63) as usize,
        _ => (high >> 2 & 1023) as usize,
    }
}

// Pieces of lengths that look random.
fn random<'a>(alloc: Global, bytes: &'a [u8], seed: u64) -> Option<Vec<&'a [u8]>> {
    let mut pieces = Vec::new(alloc);
    let mut rest = bytes;
    let mut state = next(seed);
    for _ in 0..bytes.len() {
        state = next(state);
        match rest.split_at_checked(length_of(state)) {
            Some((piece, behind)) => {
                pieces.push(piece).ok()?;
                rest = behind;
            }
            None => break,
        }
    }
    pieces.push(rest).ok()?;
    Some(pieces)
}

// Pieces of one length each, the last one shorter.
fn equal<'a>(alloc: Global, bytes: &'a [u8], length: usize) -> Option<Vec<&'a [u8]>> {
    let mut pieces = Vec::new(alloc);
    for piece in bytes.chunks(length.max(1)) {
        pieces.push(piece).ok()?;
    }
    Some(pieces)
}

// Two pieces.
fn halves<'a>(alloc: Global, bytes: &'a [u8], place: usize) -> Option<Vec<&'a [u8]>> {
    let mut pieces = Vec::new(alloc);
    let (front, back) = bytes.split_at_checked(place)?;
    pieces.push(front).ok()?;
    pieces.push(back).ok()?;
    Some(pieces)
}

/// Places from 0 to below a length: all of them where it is short, else some that look random.
pub fn places(alloc: Global, length: usize) -> Option<Vec<usize>> {
    let mut places = Vec::new(alloc);
    let mut state = next(length as u64);
    for place in 0..length.min(SHORT) {
        state = next(state);
        let other = (state >> 33) as usize % length.max(1);
        places
            .push(if length <= SHORT { place } else { other })
            .ok()?;
    }
    Some(places)
}

/// The ways to cut bytes that are tried: as one piece, byte by byte, into pieces of lengths that look
/// random, with empty ones among them, and in two at each place, or where there are many at some.
pub fn ways<'a>(alloc: Global, bytes: &'a [u8]) -> Option<Vec<Vec<&'a [u8]>>> {
    let mut all = Vec::new(alloc);
    all.push(equal(alloc, bytes, bytes.len())?).ok()?;
    all.push(equal(alloc, bytes, 1)?).ok()?;
    for way in 0..WAYS {
        let seed = (bytes.len() as u64).wrapping_mul(WAYS).wrapping_add(way);
        all.push(random(alloc, bytes, seed)?).ok()?;
    }
    for place in places(alloc, bytes.len())? {
        all.push(halves(alloc, bytes, place)?).ok()?;
    }
    Some(all)
}

/// One answer for all the ways in which bytes were cut.
#[derive(Drop)]
pub struct Agreed {
    text: Option<String>,
    differs: bool,
}

impl Agreed {
    /// No answer yet.
    pub fn new() -> Self {
        Agreed {
            text: None,
            differs: false,
        }
    }

    /// Adds an answer.
    pub fn add(&mut self, text: String) {
        match &self.text {
            None => self.text = Some(text),
            Some(first) => self.differs = self.differs || first.as_str() != text.as_str(),
        }
    }

    /// The answer, if all agreed.
    pub fn text(self, alloc: Global) -> Option<String> {
        if self.differs {
            return String::from_str(alloc, "differs as it is cut").ok();
        }
        self.text
    }
}
