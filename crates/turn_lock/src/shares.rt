// Passes: one is cut in two, two are made one, and a pass gets a number.
ghost use Rattle.std.specs.Prelude.{◌≡◌, ◌≤◌, ◌-◌, ◌<◌, ◌+◌};
ghost use mathlib.Core.List.{IsPrefix};
ghost use Rattle.turn_lock.specs.Views.{longer, part_of, rest_of, united, weight};
ghost use Rattle.turn_lock.specs.Passes.{IsPassOf, IsIdle, Becomes, knows};

use crate::pass::Pass;
use crate::plays::{Cut, Learn, Portion, SignOn, Unite};
use crate::rule::{COUNT, NAMES};
use crate::told::Told;
use crate::turns::Turns;
use std::marker::Brand;

impl<T: Told> Turns<T> {
    /// A new pass with this share of the pass's. It has seen what the pass has, and has no number.
    /// No memory is taken.
    pub fn split(&self, pass: &mut Pass<T>, share: u64) -> Pass<T>
        requires pass { IsPassOf self.now pass.old }
        requires part { (0 < share) × (share < (knows pass.old).share) }
        ensures rest { Becomes pass.old pass.new (rest_of share (knows pass.old)) }
        ensures part { IsPassOf self.now result × IsIdle result
            × (knows result ≡ part_of share (knows pass.old)) }
    {
        self.cut::<Brand>(pass, share)
    }

    /// Gives the pass a number from 1 that no other has, for one of its share. No memory is taken.
    pub fn sign_on(&self, pass: &mut Pass<T>) -> u64
        requires pass { IsPassOf self.now pass.old }
        requires room { ((knows pass.old).number ≡ 0) × (2 ≤ (knows pass.old).share) }
        ensures number { 0 < result }
        ensures pass { Becomes pass.old pass.new
            (record (knows pass.old) { number = result; share = (knows pass.old).share - 1 }) }
        ensures weight { weight (knows pass.new) ≡ weight (knows pass.old) }
    {
        self.table
            .shared
            .fetch_add::<SignOn<T>>(&mut pass.seat, NAMES, 1)
    }

    /// Both passes have then seen the longer of the two lists that they had seen. No memory is
    /// taken.
    pub fn meet(&self, pass: &mut Pass<T>, other: &mut Pass<T>)
        requires passes { IsPassOf self.now pass.old × IsPassOf self.now other.old }
        requires shares { (2 ≤ (knows pass.old).share) × (2 ≤ (knows other.old).share) }
        ensures pass { Becomes pass.old pass.new (record (knows pass.old)
            { seen = longer (knows pass.old).seen (knows other.old).seen }) }
        ensures other { Becomes other.old other.new (record (knows other.old)
            { seen = longer (knows pass.old).seen (knows other.old).seen }) }
        ensures seen_by_pass { IsPrefix (knows pass.old).seen (knows pass.new).seen
            × IsPrefix (knows other.old).seen (knows pass.new).seen }
        ensures seen_by_other { IsPrefix (knows pass.old).seen (knows other.new).seen
            × IsPrefix (knows other.old).seen (knows other.new).seen }
    {
        let note = self.split(other, 1);
        self.join(pass, note);
        let note = self.split(pass, 1);
        self.join(other, note);
    }

    /// The other pass goes into this one, with its share and its numbers. The pass has then seen
    /// the longer of the two lists that they had seen. No memory is taken.
    pub fn join(&self, pass: &mut Pass<T>, other: Pass<T>)
        requires { IsPassOf self.now pass.old × IsPassOf self.now other × IsIdle other }
        ensures pass { Becomes pass.old pass.new (united (knows pass.old) (knows other)) }
        ensures both { IsPrefix (knows pass.old).seen (knows pass.new).seen
            × IsPrefix (knows other).seen (knows pass.new).seen }
        ensures weight { weight (knows pass.new) ≡ weight (knows pass.old) + weight (knows other) }
    {
        let Pass { seat } = other;
        let shared = &self.table.shared;
        shared.join_seat::<Unite<T>>(&mut pass.seat, seat);
        shared.load::<Learn<T>>(&mut pass.seat, COUNT);
    }

    fn cut<J: Portion>(&self, pass: &mut Pass<T>, share: u64) -> Pass<T>
        requires named { share ≡ J.share }
        requires pass { IsPassOf self.now pass.old }
        requires part { (0 < share) × (share < (knows pass.old).share) }
        ensures rest { Becomes pass.old pass.new (rest_of share (knows pass.old)) }
        ensures part { IsPassOf self.now result × IsIdle result
            × (knows result ≡ part_of share (knows pass.old)) }
    {
        Pass {
            seat: self.table.shared.split_seat::<Cut<J>>(&mut pass.seat),
        }
    }
}
