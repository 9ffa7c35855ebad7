// What time it is.
ghost use Rattle.std.specs.Prelude.{◌≡◌, ℕ, Option, IfSome};

/// A clock. It never fails, and may give any value.
pub trait Clock {
    /// The moment that it gives, where it tells it.
    ghost moment: { Self → Option ℕ };

    /// Which loan it is, where it is a borrow. No call changes it.
    ghost loan: { Self → ℕ };

    /// The time, in milliseconds since the beginning of 1970 in UTC. A clock that tells its moment
    /// gives it, and keeps it.
    fn now_ms(&mut self) -> u64
        ensures moment { IfSome (moment self.old) (λ moment. result ≡ moment) }
        ensures keeps { moment self.new ≡ moment self.old }
        ensures stays { loan self.new ≡ loan self.old };
}

impl<C: Clock> Clock for &mut C {
    ghost moment = { λ c. C.moment c.now };

    ghost loan = { λ c. c.ghost_name };

    fn now_ms(&mut self) -> u64 {
        (**self).now_ms()
    }
}
