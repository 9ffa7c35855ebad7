// A clock that stands still.
ghost use Rattle.std.specs.Prelude.{◌≡◌, Some};

use crate::Clock;

/// A clock in memory, which stands still at a moment.
#[derive(Drop)]
pub struct MemClock {
    now: u64,
}

impl MemClock {
    /// A clock that stands still at this moment, in milliseconds.
    pub fn new(now: u64) -> Self
        ensures { ⟦<MemClock as Clock>⟧.moment result ≡ Some now }
    {
        MemClock { now }
    }
}

impl Clock for MemClock {
    ghost moment = { λ c. Some c.now };

    ghost loan = { λ _. 0 };

    fn now_ms(&mut self) -> u64 {
        self.now
    }
}
