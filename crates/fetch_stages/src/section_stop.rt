// Why a section is not put.

use fetch_wire::Break;
use repo_slice::KeepFault;

/// Why a section is not put.
#[derive(Clone, Copy, Debug, PartialEq, Eq)]
pub enum SectionStop {
    /// The input failed.
    ReadFault,
    /// The input ends inside the unit that begins at this place, or before it.
    Ends(u64),
    /// The limit stands inside the unit that begins at this place, or before it.
    TooLong(u64),
    /// A unit is broken.
    Bad(Break),
    /// Memory for its bytes was refused.
    NoMemory,
    /// A call of the keep was refused, or memory for a batch.
    Keep(KeepFault),
}

impl From<KeepFault> for SectionStop {
    ghost use Rattle.std.specs.Prelude.{◌≡◌};
    ghost use Rattle.fetch_stages.specs.declared.section_stop.SectionStop.TheVariants as stops;

    ghost from_gives = { λ why stop. stop ≡ stops.Keep why };

    fn from(why: KeepFault) -> Self {
        SectionStop::Keep(why)
    }
}
