// Objects by name.
ghost use Rattle.std.specs.Prelude.{◌≡◌, ℕ, ◌≤◌, ◌+◌, Option, Some, IfOk, IfErr};
ghost use Rattle.std.specs.Borrow.{sem};
ghost use Rattle.std.specs.Io.BufRead.{Rests};
ghost use Rattle.std.specs.Option.{ForSome};
ghost use Rattle.commit_graph.specs.Objects.{ObjectMap, IsFoundAs, IsNamed, shown};
ghost use Rattle.commit_graph.specs.Faults.{IsAskedFor, KeepsObjects, Places};

use crate::GetFault;
use git_object::Kind;
use rad_base::Oid;

/// What gives objects by their names.
pub trait Objects {
    /// The objects by name, where they are told.
    ghost content: { Self → Option ObjectMap };

    /// How many times what lies below was at fault.
    ghost faults: { Self → ℕ };

    /// How many look-ups there were, at the most.
    ghost looks: { Self → ℕ };

    /// What else there is that no call changes, as a type of its own.
    ghost Beside: { Type 0 };

    /// What else there is that no call changes.
    ghost beside: { Self → Beside };

    /// Where the object of a name stands, in bytes from 0, if it stands at a place; what no call
    /// changes tells it.
    ghost places: { Beside → Places };

    /// The kind and the content of the object of a name; `None` where there is none.
    ///
    /// What it hands out has the name that was asked for. No call changes the objects, also where
    /// it is refused. `DiskFault` comes only where the count of faults rose, and the count stands
    /// still at every other answer. `Changed` comes only where the bytes read back at the place of
    /// the object have another name than the one asked for, and never where the objects are told.
    /// `NoMemory` can come at any time. A call is one look-up.
    fn get(&mut self, oid: &Oid) -> Result<Option<(Kind, &[u8])>, GetFault>
        ensures found { ForSome (content self.old)
            (λ m. IfOk result (λ found. shown found ≡ m oid.now)) }
        ensures named { IfOk result (IsFoundAs oid.now) }
        ensures asked { IfErr result (IsAskedFor oid.now) }
        ensures* keeps { sem 𝓛 (Rests Self.row self.entry (λ new.
            KeepsObjects content beside places faults Some self.old new result
            × (looks new ≤ looks self.old + 1))) };

    /// Each object that is told has its name.
    ghost named: { (objects : Self) → ForSome (content objects) IsNamed };
}
