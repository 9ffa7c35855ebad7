// Threads that take turns side by side.
ghost use Rattle.std.specs.Prelude.{◌≡◌, ◌≤◌};
ghost use Rattle.std.specs.Thread.{IsSync};
ghost use Rattle.turn_lock.specs.Views.{weight};
ghost use Rattle.turn_lock.specs.Passes.{IsPassOf, IsIdle, knows};

use super::counter::{Counter, Increment};
use super::passes::add_one;
use crate::{Pass, Turns};
use std::sync::Wait;
use std::test::Fail;
use std::thread::{Threads, join};

const THREADS: u64 = 8;

const TURNS: u64 = 1_000;

/// Takes a thousand turns, with an entry each. True where each entry was added.
fn take_turns<R: Wait>(
    rt: &R,
    turns: &Turns<Counter>,
    mut pass: Pass<Counter>,
) -> (Pass<Counter>, bool)
    requires pass { IsPassOf turns.now pass × IsIdle pass }
    requires number { ((knows pass).number ≡ 0) × (2 ≤ (knows pass).share) }
    ensures { IsPassOf turns.entry.now result.0 × IsIdle result.0
        × (weight (knows result.0) ≡ weight (knows pass)) }
{
    let caller = turns.sign_on(&mut pass);
    let mut added = true;
    for by in 0..TURNS {
        added &= add_one(rt, turns, &mut pass, Increment { caller, by }).is_ok();
    }
    (pass, added)
}

/// Half as many threads as the pass has shares take their turns.
fn take_turns_in_threads<R: Threads + Wait + Sync>(
    rt: &R,
    turns: &Turns<Counter>,
    mut pass: Pass<Counter>,
    share: u64,
) -> (Pass<Counter>, bool)
    requires pass { IsPassOf turns.now pass × IsIdle pass }
    requires number { ((knows pass).number ≡ 0) × ((knows pass).share ≡ share) × (2 ≤ share) }
    ensures { IsPassOf turns.entry.now result.0 × IsIdle result.0
        × (weight (knows result.0) ≡ weight (knows pass)) }
{
    if share < 4 {
        return take_turns(rt, turns, pass);
    }
    let half = share / 2;
    let rest = share - half;
    let other = turns.split(&mut pass, half);
    let (mut first, second) = join(
        rt,
        move || -> (Pass<Counter>, bool)
            requires { IsSync R.row × IsPassOf turns.now pass × IsIdle pass
                × ((knows pass).number ≡ 0) × ((knows pass).share ≡ rest) × (2 ≤ rest) }
            ensures { IsPassOf turns.entry.now result.0 × IsIdle result.0
                × (weight (knows result.0) ≡ weight (knows pass)) }
        { take_turns_in_threads(rt, turns, pass, rest) },
        move || -> (Pass<Counter>, bool)
            requires { IsSync R.row × IsPassOf turns.now other × IsIdle other
                × ((knows other).number ≡ 0) × ((knows other).share ≡ half) × (2 ≤ half) }
            ensures { IsPassOf turns.entry.now result.0 × IsIdle result.0
                × (weight (knows result.0) ≡ weight (knows other)) }
        { take_turns_in_threads(rt, turns, other, half) },
    );
    turns.join(&mut first.0, second.0);
    (first.0, first.1 && second.1)
}

#[test]
fn eight_threads_take_turns(rt: HostRuntime) -> Result<(), Fail> {
    let (turns, mut pass) = Turns::make(rt.alloc(), Counter::new(rt.alloc(), 7)).or(Err("room"))?;
    let team = turns.split(&mut pass, 2 * THREADS);
    let (team, added) = take_turns_in_threads(&rt, &turns, team, 2 * THREADS);
    turns.join(&mut pass, team);
    let counter = turns.close(pass);
    assert!(rt; added);
    assert_eq!(rt; counter.made.len() as u64, THREADS * TURNS);
    for caller in 1..=THREADS {
        let mut wanted = 0..TURNS;
        for entry in counter.made.iter().filter(|entry| entry.caller == caller) {
            assert_eq!(rt; Some(entry.by), wanted.next(), "of caller {caller}");
        }
        assert_eq!(rt; wanted.next(), None, "of caller {caller}");
    }
    Ok(())
}
