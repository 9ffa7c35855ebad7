// Turns: the value is taken, and goes back.
ghost use Rattle.std.specs.Prelude.{◌≡◌, length, IfSome, IfNone, Some};
ghost use Rattle.turn_lock.specs.Views.{weight};
ghost use Rattle.turn_lock.specs.Passes.{IsPassOf, IsIdle, IsSamePass, HasTurn, HasTicket, knows};
ghost use Rattle.turn_lock.specs.Passes.{Drew, TakesTurn, FitsPass, GrownBy, GivesBack};

use crate::held::Held;
use crate::pass::Pass;
use crate::plays::{Add, Draw, Look, PassOn};
use crate::rule::{COUNT, SERVING, TICKET};
use crate::told::Told;
use crate::turns::Turns;
use std::sync::Wait;
use std::thread;

impl<T: Told> Turns<T> {
    /// Waits for the pass's turn, and takes the value. Its list begins with all that the pass has
    /// seen, it has the pass's constants, and the entries of each of the pass's numbers are those
    /// that the number made. No memory is taken.
    pub fn turn<R: Wait>(&self, rt: &R, pass: &mut Pass<T>) -> Held<T>
        requires { IsPassOf self.now pass.old × IsIdle pass.old }
        ensures pass { TakesTurn pass.old pass.new result.value }
        ensures value { FitsPass pass.old result.value }
        ensures before { result.before ≡ length (T.list result.value) }
    {
        let ticket = self.draw(pass);
        for _ in rt.forever() {
            if let Some(value) = self.look(pass, ticket) {
                let before = value.count();
                return Held { value, before };
            }
            thread::yield_now();
        }
        unreachable!()
    }

    /// Puts back the value that the pass took, with the entries that were added to it, and ends the
    /// turn. No memory is taken.
    pub fn give_back(&self, pass: &mut Pass<T>, held: Held<T>)
        requires pass { IsPassOf self.now pass.old × HasTurn pass.old
            × (held.before ≡ length (knows pass.old).seen) }
        requires grown { GrownBy pass.old held.value }
        requires constants { (knows pass.old).constants ≡ Some (T.constants held.value) }
        ensures pass { GivesBack pass.old pass.new held.value }
        ensures weight { weight (knows pass.new) ≡ weight (knows pass.old) }
    {
        let Held { value, before } = held;
        let added = value.count() - before;
        let shared = &self.table.shared;
        let gone = shared.exchange(&mut pass.seat, 0, Some(value));
        let None = gone else { unreachable!() };
        for _ in 0..added {
            shared.fetch_add::<Add<T>>(&mut pass.seat, COUNT, 1);
        }
        shared.fetch_add::<PassOn<T>>(&mut pass.seat, SERVING, 1);
    }

    fn draw(&self, pass: &mut Pass<T>) -> u64
        requires { IsPassOf self.now pass.old × IsIdle pass.old }
        ensures { IsSamePass pass.old pass.new × Drew pass.old pass.new result }
    {
        self.table
            .shared
            .fetch_add::<Draw<T>>(&mut pass.seat, TICKET, 1)
    }

    // The value, where it is this pass's turn.
    fn look(&self, pass: &mut Pass<T>, ticket: u64) -> Option<T>
        requires { IsPassOf self.now pass.old × HasTicket pass.old ticket }
        ensures none { IfNone result (IsSamePass pass.old pass.new
            × (pass.new.seat.me ≡ pass.old.seat.me)) }
        ensures some { IfSome result (λ x. TakesTurn pass.old pass.new x
            × FitsPass pass.old x) }
    {
        let shared = &self.table.shared;
        if shared.load::<Look<T>>(&mut pass.seat, SERVING) != ticket {
            return None;
        }
        Some(shared.exchange(&mut pass.seat, 0, None).unwrap())
    }
}
