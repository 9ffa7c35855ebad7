// The value of a turn.

/// The value, in the turn of one pass. It has no lifetime: it goes back by `Turns::give_back`.
pub struct Held<T> {
    pub(crate) value: T,
    // How many entries it had when it was taken.
    pub(crate) before: u64,
}

impl<T> Held<T> {
    ghost use Rattle.std.specs.Prelude.{◌≡◌};
    ghost use Rattle.std.specs.Borrow.{sem};
    ghost use Rattle.turn_lock.specs.Lending.{LendsValue};

    /// Lends the value.
    pub fn value(&mut self) -> &mut T
        ensures* writes_back { sem 𝓛 (LendsValue T.row self.entry result) }
        ensures value { result.now ≡ self.old.value }
    {
        &mut self.value
    }
}
