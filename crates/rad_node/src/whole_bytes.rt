// A source of bytes in memory, none of whose takes fails.
ghost use Rattle.std.specs.Prelude.{◌≡◌, Some};

use rad_outside::{Failed, Source};

#[derive(Drop)]
pub(crate) struct WholeBytes<'a> {
    rest: &'a [u8],
}

impl WholeBytes<'_> {
    // A source of these bytes.
    pub(crate) fn new(bytes: &[u8]) -> WholeBytes<'_>
        ensures { result.rest.now ≡ bytes.now }
    {
        WholeBytes { rest: bytes }
    }
}

impl Source for WholeBytes<'_> {
    ghost use Rattle.std.specs.Prelude.{None};

    ghost left = { λ s. Some s.rest.now };

    ghost faults = { λ _. 0 };

    ghost loan = { λ _. 0 };

    ghost beside = { λ _. None };

    fn take(&mut self, into: &mut [u8]) -> Result<usize, Failed> {
        let n = self.rest.len().min(into.len());
        into[..n].copy_from_slice(&self.rest[..n]);
        self.rest = &self.rest[n..];
        Ok(n)
    }
}
