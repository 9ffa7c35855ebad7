// A pass.
ghost use Rattle.std.specs.Prelude.{◌≡◌, ◌<◌, []};

use crate::told::Told;
use crate::view::View;
use atomic_table::Seat;

/// The right to take turns, with what its holder knows. It takes no bytes.
#[derive(Drop)]
pub struct Pass<T: Told> {
    pub(crate) seat: Seat<Option<T>, View<T::Entry, T::Constants>>,
    ghost live: { 0 < seat.me.0.share },
    ghost learned: { seat.me.0.told ≡ [] },
}
