// How links are made: dialed, or accepted from those who dial.
ghost use Rattle.std.specs.Prelude.{◌≡◌, ℕ, List, Option, IfOk, OnOk, OnErr};
ghost use Rattle.rad_outside.specs.Causes.{HasCause};
ghost use Rattle.rad_outside.specs.Doors.{AddsAddress, GivesFirst};

use crate::{Failed, Link};

/// Where links come from.
pub trait Doors<L: Link> {
    /// The links that they have still to give, each as it stands, where they tell them.
    ghost links: { Self → Option (List L) };

    /// The addresses that were dialed with success, in UTF-8, where they tell them.
    ghost dialed: { Self → Option (List (List ℕ)) };

    /// How often a call has failed. It never falls, and stays at 2^64 - 1 once it stands there.
    ghost faults: { Self → ℕ };

    /// Which loan they are, where they are a borrow. No call changes it.
    ghost loan: { Self → ℕ };

    /// Dials an address, and gives the link to it. `Failed`: there is no such address, or who is
    /// there doesn't answer.
    fn dial(&mut self, address: &str) -> Result<L, Failed>
        ensures gives { IfOk result (GivesFirst (links self.old) (links self.new)) }
        ensures adds { OnOk result (AddsAddress (dialed self.old) (dialed self.new) address.now) }
        ensures fresh { IfOk result (λ link. L.Source.faults link ≡ 0) }
        ensures failed { OnErr result
            ((links self.new ≡ links self.old) × (dialed self.new ≡ dialed self.old)) }
        ensures cause { HasCause (faults self.old) (faults self.new) result }
        ensures stays { loan self.new ≡ loan self.old };

    /// Gives the link to whoever dials next. `Failed`: nobody can dial, or who did is gone.
    fn accept(&mut self) -> Result<L, Failed>
        ensures gives { IfOk result (GivesFirst (links self.old) (links self.new)) }
        ensures fresh { IfOk result (λ link. L.Source.faults link ≡ 0) }
        ensures failed { OnErr result (links self.new ≡ links self.old) }
        ensures dialed { dialed self.new ≡ dialed self.old }
        ensures cause { HasCause (faults self.old) (faults self.new) result }
        ensures stays { loan self.new ≡ loan self.old };
}

impl<L: Link, D: Doors<L>> Doors<L> for &mut D {
    ghost links = { λ d. D.links d.now };

    ghost dialed = { λ d. D.dialed d.now };

    ghost faults = { λ d. D.faults d.now };

    ghost loan = { λ d. d.ghost_name };

    fn dial(&mut self, address: &str) -> Result<L, Failed> {
        (**self).dial(address)
    }

    fn accept(&mut self) -> Result<L, Failed> {
        (**self).accept()
    }
}
