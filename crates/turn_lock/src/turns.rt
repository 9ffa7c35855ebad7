// A value that threads use in turns: its beginning and its end.
ghost use Rattle.std.specs.Prelude.{◌≡◌, [], ◌∷◌, Some, IfOk, IfErr};

use crate::pass::Pass;
use crate::rule::InTurn;
use crate::told::Told;
use crate::view::View;
use atomic_table::{Refused, Table};
use std::alloc::Global;
use std::snapshot::Snapshot;

/// There was no memory. The value comes back.
#[derive(Debug, Drop)]
pub struct NoRoom<T> {
    pub value: T,
}

/// A value that threads use in turns. Threads may share it, and move passes, where the value may be
/// moved between threads.
#[derive(Drop)]
pub struct Turns<T: Told> {
    pub(crate) table: Table<
        Option<T>,
        View<T::Entry, T::Constants>,
        Snapshot<T>,
        InTurn<T>,
        Global,
    >,
    ghost sized: { (table.shared.table_id.words ≡ 4) × (table.shared.table_id.slots ≡ 1) },
}

impl<T: Told> Turns<T> {
    ghost use Rattle.std.specs.Prelude.{ℕ, ◌+◌, ◌^◌, ◌++◌, List, All, Contains, map};
    ghost use Rattle.turn_lock.specs.Views.{HasAllNumbers, first_view, made_by, made_lists, weight};
    ghost use Rattle.turn_lock.specs.Passes.{IsPassOf, IsIdle, knows, value_at_first};

    /// A value and the one pass to it, whose share is 2^62. `NoRoom` comes where memory is refused.
    pub fn make(alloc: Global, value: T) -> Result<(Turns<T>, Pass<T>), NoRoom<T>>
        requires { All (λ e. T.caller e ≡ 0) (T.list value) }
        ensures pass { IfOk result (λ made. IsPassOf made.0 made.1 × IsIdle made.1
            × (knows made.1 ≡ first_view (T.list value) (T.constants value))) }
        ensures value { IfOk result (λ made. value_at_first made.0 ≡ value) }
        ensures err { IfErr result (λ none. none.value ≡ value) }
    {
        let about = Snapshot::of(&value);
        let slots = slot_of(alloc, value)?;
        match Table::new(alloc, &[0, 0, 0, 1], slots, &about) {
            Ok((table, seat)) => Ok((Turns { table }, Pass { seat })),
            Err(refused) => {
                let Refused { mut slots } = refused;
                let value = slots.pop().unwrap().unwrap();
                slots.destroy_empty();
                Err(NoRoom { value })
            }
        }
    }

    /// The value, once all other passes were joined into this one. Its list is what the pass has
    /// seen. The entries of each of the pass's numbers are those that the number made, and each
    /// entry that was added has one of these numbers. No memory is taken.
    pub fn close(self, pass: Pass<T>) -> T
        requires pass { IsPassOf self pass × IsIdle pass }
        requires alone { weight (knows pass) ≡ 2 ^ 62 }
        ensures list { T.list result ≡ (knows pass).seen }
        ensures constants { (knows pass).constants ≡ Some (T.constants result) }
        ensures made { All (λ m. made_by T.caller m.number (T.list result) ≡ m.entries)
            (made_lists (knows pass)) }
        ensures added { (added : List T.Entry)
            × (T.list (value_at_first self) ++ added ≡ T.list result)
            × All (λ e. Contains (map (λ m. m.number) (made_lists (knows pass))) (T.caller e))
            added }
        ensures numbers { HasAllNumbers (knows pass) }
    {
        let Turns { table } = self;
        let Pass { seat } = pass;
        let mut closed = table.close_with(seat);
        let value = closed.take(0).unwrap();
        closed.free();
        value
    }
}

// A slot with the value.
fn slot_of<T>(alloc: Global, value: T) -> Result<Vec<Option<T>>, NoRoom<T>>
    ensures ok { IfOk result (λ slots. slots.items ≡ Some value ∷ []) }
    ensures err { IfErr result (λ none. none.value ≡ value) }
{
    let mut slots = Vec::new(alloc);
    match slots.push(Some(value)) {
        Ok(()) => Ok(slots),
        Err(failed) => {
            slots.destroy_empty();
            Err(NoRoom {
                value: failed.value.unwrap(),
            })
        }
    }
}
