// What each step tells its pass, and how passes are cut and joined.
ghost use Rattle.std.specs.Prelude.{ℕ};
ghost use Rattle.turn_lock.specs.Steps.{drew, looked, added, passed_on, signed, learned};
ghost use Rattle.turn_lock.specs.Views.{rest_of, part_of, both_of, spent_view};

use crate::told::Told;
use crate::view::View;
use atomic_table::{Join, Play, Split};
use std::marker::{Brand, PhantomData};

/// A ticket is drawn.
pub struct Draw<T> {
    of: PhantomData<T>,
}

impl<T: Told> Play<Option<T>, View<T::Entry, T::Constants>> for Draw<T> {
    ghost then = { drew };
}

/// The ticket that is served is looked at.
pub struct Look<T> {
    of: PhantomData<T>,
}

impl<T: Told> Play<Option<T>, View<T::Entry, T::Constants>> for Look<T> {
    ghost then = { looked T.list T.constants T.caller };
}

/// One more entry is counted.
pub struct Add<T> {
    of: PhantomData<T>,
}

impl<T: Told> Play<Option<T>, View<T::Entry, T::Constants>> for Add<T> {
    ghost then = { added T.list };
}

/// The next ticket is served.
pub struct PassOn<T> {
    of: PhantomData<T>,
}

impl<T: Told> Play<Option<T>, View<T::Entry, T::Constants>> for PassOn<T> {
    ghost then = { passed_on };
}

/// A number is drawn.
pub struct SignOn<T> {
    of: PhantomData<T>,
}

impl<T: Told> Play<Option<T>, View<T::Entry, T::Constants>> for SignOn<T> {
    ghost then = { signed };
}

/// What a joined pass had seen is found to begin what is seen.
pub struct Learn<T> {
    of: PhantomData<T>,
}

impl<T: Told> Play<Option<T>, View<T::Entry, T::Constants>> for Learn<T> {
    ghost then = { learned };
}

/// A share that is cut off. Each call picks it.
pub trait Portion {
    ghost share: { ℕ };
}

impl Portion for Brand {
    ghost share = { 1 };
}

/// A pass is cut in two.
pub struct Cut<J> {
    of: PhantomData<J>,
}

impl<E, C, J: Portion> Split<View<E, C>> for Cut<J> {
    ghost left = { rest_of J.share };

    ghost right = { part_of J.share };
}

/// Two passes are made one.
pub struct Unite<T> {
    of: PhantomData<T>,
}

impl<T: Told> Join<View<T::Entry, T::Constants>> for Unite<T> {
    ghost both = { both_of };

    ghost spent = { spent_view };
}
