// The rule that each step keeps.
use crate::told::Told;
use crate::view::View;
use atomic_table::TableRule;
use std::marker::PhantomData;
use std::snapshot::Snapshot;

// The words of the table: the next ticket, the ticket that is served, the count of entries that
// were added, and the next number.
pub(crate) const TICKET: usize = 0;

pub(crate) const SERVING: usize = 1;

pub(crate) const COUNT: usize = 2;

pub(crate) const NAMES: usize = 3;

/// The rule of the turns. Its table is told the value at the beginning.
pub struct InTurn<T> {
    of: PhantomData<T>,
}

impl<T: Told> TableRule<Option<T>, View<T::Entry, T::Constants>, Snapshot<T>> for InTurn<T> {
    ghost use Rattle.turn_lock.specs.Rule.{IsInTurn};
    ghost use Rattle.turn_lock.specs.Views.{first_view};

    ghost holds = { λ first. IsInTurn T.list T.constants T.caller
        (T.list first.value) (T.constants first.value) };

    ghost first = { λ first. first_view (T.list first.value) (T.constants first.value) };
}
