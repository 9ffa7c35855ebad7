// The name at the head of a bundle.
ghost use Rattle.std.specs.Prelude.{◌≡◌, ◌≤◌};
ghost use Rattle.std.specs.Io.KnownBytes.{IsAtEnd};
ghost use Rattle.rad_outside.specs.Causes.{HasCause};
ghost use Rattle.fetch_stages.specs.BundleJobs.{ReadsName};

use crate::input::Input;
use rad_base::{Oid, Rid};
use rad_outside::{Failed, Source};

// Takes the 20 bytes of a repository's name. None: the input ends before.
pub(crate) fn read_name<S: Source>(input: &mut Input<S>) -> Result<Option<Rid>, Failed>
    ensures loan { S.loan input.new.0 ≡ S.loan input.old.0 }
    ensures cause { HasCause (S.faults input.old.0) (S.faults input.new.0) result }
    ensures reads { ReadsName (S.left input.old.0) (S.left input.new.0) input.old.1 input.new.1
        result }
{
    let mut name = [0; 20];
    let mut count: usize = 0;
    'reading: while count < 20 {
        if let Err(Failed) = input.fill() {
            return Err(Failed);
        }
        let rest = input.rest();
        if rest.is_empty() {
            return Ok(None);
        }
        name[count] = rest[0];
        input.used(1);
        count += 1;
    }
    Ok(Some(Rid(Oid(name))))
}
