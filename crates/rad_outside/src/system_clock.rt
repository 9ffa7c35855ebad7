// The system's clock: a trusted adapter. It tells no moment.
ghost use Rattle.std.specs.Prelude.{None};

use crate::Clock;
use std::time::{self, SystemTime, UNIX_EPOCH};

/// The system's clock. Where it can't be read, or stands before 1970, it gives 0.
#[derive(Drop)]
pub struct SysClock<R: time::Clock + Drop> {
    rt: R,
}

impl<R: time::Clock + Drop> SysClock<R> {
    /// The clock of this runtime.
    pub fn new(rt: R) -> Self {
        SysClock { rt }
    }
}

impl<R: time::Clock + Drop> Clock for SysClock<R> {
    ghost moment = { λ _. None };

    ghost loan = { λ _. 0 };

    fn now_ms(&mut self) -> u64 {
        let Ok(now) = SystemTime::now(&self.rt) else {
            return 0;
        };
        match now.duration_since(UNIX_EPOCH) {
            Ok(since) => u64::try_from(since.as_millis()).unwrap_or(u64::MAX),
            Err(_) => 0,
        }
    }
}
