// One pass alone, two passes that meet, and a pass that was split off.
ghost use Rattle.std.specs.Prelude.{◌≡◌, ◌<◌, ◌≤◌, ◌^◌, Contains, IfOk, OnOk};
ghost use mathlib.Core.List.{IsPrefix};
ghost use Rattle.turn_lock.specs.Views.{weight};
ghost use Rattle.turn_lock.specs.Passes.{IsPassOf, IsIdle, knows};

use super::counter::{Counter, Increment};
use crate::{Pass, Turns};
use std::alloc::{AllocError, Global};
use std::sync::Wait;
use std::test::Fail;

/// Adds one entry in one turn.
pub(crate) fn add_one<R: Wait>(
    rt: &R,
    turns: &Turns<Counter>,
    pass: &mut Pass<Counter>,
    entry: Increment,
) -> Result<(), AllocError>
    requires pass { IsPassOf turns.now pass.old × IsIdle pass.old }
    requires number { (0 < entry.caller) × (entry.caller ≡ (knows pass.old).number) }
    ensures pass { IsPassOf turns.now pass.new × IsIdle pass.new
        × ((knows pass.new).number ≡ (knows pass.old).number)
        × ((knows pass.new).share ≡ (knows pass.old).share)
        × (weight (knows pass.new) ≡ weight (knows pass.old)) }
    ensures seen { IsPrefix (knows pass.old).seen (knows pass.new).seen }
    ensures added { OnOk result (Contains (knows pass.new).seen entry) }
{
    let mut held = turns.turn(rt, pass);
    let added = held.value().add(entry);
    turns.give_back(pass, held);
    added
}

/// Two passes add one entry each and meet. Both have then seen both entries.
fn add_and_meet<R: Wait>(
    rt: &R,
    turns: &Turns<Counter>,
    pass: &mut Pass<Counter>,
    other: &mut Pass<Counter>,
    entries: (Increment, Increment),
) -> Result<(), AllocError>
    requires passes { IsPassOf turns.now pass.old × IsPassOf turns.now other.old
        × IsIdle pass.old × IsIdle other.old }
    requires shares { (2 ≤ (knows pass.old).share) × (2 ≤ (knows other.old).share) }
    requires numbers { (0 < entries.0.caller) × (entries.0.caller ≡ (knows pass.old).number)
        × (0 < entries.1.caller) × (entries.1.caller ≡ (knows other.old).number) }
    ensures passes { IsPassOf turns.now pass.new × IsPassOf turns.now other.new
        × IsIdle pass.new × IsIdle other.new
        × (weight (knows pass.new) ≡ weight (knows pass.old))
        × (weight (knows other.new) ≡ weight (knows other.old)) }
    ensures pass { OnOk result (Contains (knows pass.new).seen entries.0
        × Contains (knows pass.new).seen entries.1) }
    ensures other { OnOk result (Contains (knows other.new).seen entries.0
        × Contains (knows other.new).seen entries.1) }
{
    let first = add_one(rt, turns, pass, entries.0);
    let second = add_one(rt, turns, other, entries.1);
    turns.meet(pass, other);
    first?;
    second
}

/// The list in a turn of the pass, which begins with all that the pass has seen.
fn list_in_turn<R: Wait>(
    rt: &R,
    alloc: Global,
    turns: &Turns<Counter>,
    pass: &mut Pass<Counter>,
) -> Result<Vec<Increment>, AllocError>
    requires pass { IsPassOf turns.now pass.old × IsIdle pass.old }
    ensures pass { IsPassOf turns.now pass.new × IsIdle pass.new
        × (weight (knows pass.new) ≡ weight (knows pass.old)) }
    ensures list { IfOk result (λ list. IsPrefix (knows pass.old).seen list.items) }
{
    let mut held = turns.turn(rt, pass);
    let list = held.value().made.as_slice().to_vec(alloc);
    turns.give_back(pass, held);
    list
}

#[test]
fn one_pass_takes_turns(rt: HostRuntime) -> Result<(), Fail> {
    let (turns, mut pass) = Turns::make(rt.alloc(), Counter::new(rt.alloc(), 7)).or(Err("room"))?;
    let caller = turns.sign_on(&mut pass);
    add_one(&rt, &turns, &mut pass, Increment { caller, by: 5 })?;
    add_one(&rt, &turns, &mut pass, Increment { caller, by: 6 })?;
    let counter = turns.close(pass);
    assert_eq!(rt; caller, 1);
    assert_eq!(rt; counter.name, 7);
    let want = [
        Increment { caller: 1, by: 5 },
        Increment { caller: 1, by: 6 },
    ];
    assert_eq!(rt; counter.made.as_slice(), want.as_slice());
    Ok(())
}

#[test]
fn two_passes_meet(rt: HostRuntime) -> Result<(), Fail> {
    let (turns, mut pass) = Turns::make(rt.alloc(), Counter::new(rt.alloc(), 7)).or(Err("room"))?;
    let mut other = turns.split(&mut pass, 1 << 61);
    let first = Increment {
        caller: turns.sign_on(&mut pass),
        by: 5,
    };
    let second = Increment {
        caller: turns.sign_on(&mut other),
        by: 6,
    };
    add_and_meet(&rt, &turns, &mut pass, &mut other, (first, second))?;
    turns.join(&mut pass, other);
    let counter = turns.close(pass);
    let want = [
        Increment { caller: 1, by: 5 },
        Increment { caller: 2, by: 6 },
    ];
    assert_eq!(rt; counter.made.as_slice(), want.as_slice());
    Ok(())
}

#[test]
fn a_part_begins_with_what_was_seen(rt: HostRuntime) -> Result<(), Fail> {
    let (turns, mut pass) = Turns::make(rt.alloc(), Counter::new(rt.alloc(), 7)).or(Err("room"))?;
    let caller = turns.sign_on(&mut pass);
    add_one(&rt, &turns, &mut pass, Increment { caller, by: 1 })?;
    add_one(&rt, &turns, &mut pass, Increment { caller, by: 2 })?;
    let mut part = turns.split(&mut pass, 2);
    let list = list_in_turn(&rt, rt.alloc(), &turns, &mut part)?;
    turns.join(&mut pass, part);
    let counter = turns.close(pass);
    let want = [
        Increment { caller: 1, by: 1 },
        Increment { caller: 1, by: 2 },
    ];
    assert_eq!(rt; list.as_slice(), want.as_slice());
    assert_eq!(rt; counter.made.as_slice(), want.as_slice());
    Ok(())
}
