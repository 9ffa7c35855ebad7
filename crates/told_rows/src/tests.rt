// How bytes are cut, and how rows that differ are counted.
use crate::cases::{Scene, Step, asked, tally_cases};
use crate::pieces::ways;
use crate::rows::{Row, tally_rows};
use crate::tally::Tally;
use crate::texts::{numbered, text};
use crate::words::{bytes_of, number_of};
use std::alloc::Global;
use std::test::Fail;

// Whether each way to cut bytes gives them again, and how many ways there are.
fn ways_of(alloc: Global, bytes: &[u8]) -> Option<(bool, usize)> {
    let all = ways(alloc, bytes)?;
    let mut same = true;
    for pieces in &all {
        let mut joined = Vec::new(alloc);
        for piece in pieces {
            joined.extend_from_slice(piece).ok()?;
        }
        same = same && joined.as_slice() == bytes;
    }
    Some((same, all.len()))
}

#[test]
fn pieces_are_the_bytes(rt: HostRuntime) -> Result<(), Fail> {
    let alloc = rt.alloc();
    assert!(rt; ways_of(alloc, b"") == Some((true, 6)));
    assert!(rt; ways_of(alloc, b"0123456789") == Some((true, 16)));
    assert!(rt; ways_of(alloc, &[7; 200]) == Some((true, 54)));
    Ok(())
}

// A table that answers how many bytes there are.
#[derive(Clone, Copy)]
struct Lengths;

impl Row for Lengths {
    fn answer(&self, alloc: Global, asked: &str) -> Option<String> {
        let length = bytes_of(alloc, asked)?.len();
        numbered(alloc, "length", length as u64)
    }
}

// The sum of numbers.
#[derive(Drop)]
struct Sum {
    sum: u64,
}

impl Scene for Sum {
    fn begin(_alloc: Global) -> Option<Self> {
        Some(Sum { sum: 0 })
    }

    fn follow(&mut self, alloc: Global, word: &str, rest: &str) -> Option<Step> {
        if word == "number" {
            self.sum = self.sum.saturating_add(number_of(rest)?);
            return Some(Step::Told);
        }
        let sum = self.sum;
        asked(alloc, format!(in alloc; "{sum}").ok(), rest)
    }
}

// How many rows are answered as told, how many are asked, and the first line that is shown.
fn shown(alloc: Global, tally: Option<Tally>) -> Option<(usize, usize, String)> {
    let tally = tally?;
    let line = match tally.lines().first() {
        Some(line) => text(alloc, line.as_str())?,
        None => text(alloc, "none")?,
    };
    Some((tally.same(), tally.asked(), line))
}

#[test]
fn rows_that_differ_are_shown(rt: HostRuntime) -> Result<(), Fail> {
    let alloc = rt.alloc();
    let rows = "- = length 0\n\naabb length 2\naa = length 3\n0 = length 1\n";
    let Some((same, all, line)) = shown(alloc, tally_rows(alloc, rows, 1, &Lengths)) else {
        return Err(Fail::new("no tally"));
    };
    assert_eq!(rt; (same, all), (2, 4));
    assert_eq!(rt;
        line.as_str(),
        "line 4: got length 1, told length 3, at aa = length 3"
    );
    Ok(())
}

#[test]
fn cases_that_differ_are_shown(rt: HostRuntime) -> Result<(), Fail> {
    let alloc = rt.alloc();
    let cases = "case one\nnumber 2\nsum 2\nnumber 3\nsum 5\n\ncase two\nsum 5\nnumber x\n";
    let Some((same, all, line)) = shown(alloc, tally_cases::<Sum>(alloc, cases)) else {
        return Err(Fail::new("no tally"));
    };
    assert_eq!(rt; (same, all), (2, 4));
    assert_eq!(rt; line.as_str(), "line 8: got 0, told 5, at two: sum 5");
    Ok(())
}
