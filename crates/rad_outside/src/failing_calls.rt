// Which calls of an object in memory are to fail, by their numbers from 0.
ghost use Rattle.std.specs.Prelude.{◌≡◌, ◌↔◌, IsTrue};

#[derive(Drop)]
pub(crate) struct FailingCalls {
    listed: Vec<u64>,
    // How many calls there were. It stays at the type's end.
    had: u64,
}

impl FailingCalls {
    ghost use Rattle.rad_outside.specs.FailingCalls.{FailsNext, one_later};

    pub(crate) fn new(listed: Vec<u64>) -> Self
        ensures { result ≡ record { listed = listed; had = 0 } }
    {
        FailingCalls { listed, had: 0 }
    }

    // Whether the next call is to fail.
    pub(crate) fn fails_next(&self) -> bool
        ensures { IsTrue result ↔ FailsNext self.now }
    {
        self.listed.contains(&self.had)
    }

    // Counts a call.
    pub(crate) fn count_call(&mut self)
        ensures { self.new ≡ one_later self.old }
    {
        self.had = self.had.saturating_add(1);
    }
}
