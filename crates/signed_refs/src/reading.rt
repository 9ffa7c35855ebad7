// Reading signed refs.
ghost use Rattle.std.specs.Prelude.{◌≡◌, ◌∷◌, ◌++◌, [], OnOk, OnErr, IfOk, IfErr};
ghost use Rattle.signed_refs.specs.Lines.{AreRefs, IsAboveNames, SpellsRefs};
ghost use Rattle.signed_refs.specs.Readings.{ExplainsRefs};

use crate::line::line_behind;
use crate::{Refs, RefsFault};
use rad_base::{NoMemory, Oid};
use ref_name::RefName;
use std::alloc::Global;

const MOST_LINES: usize = 65_536;

// Adds a ref with a copy of its name.
fn add(alloc: Global, refs: &mut Refs, name: &[u8], oid: Oid) -> Result<(), NoMemory>
    requires { IsAboveNames refs.old name.now }
    ensures { OnOk result (refs.new ≡ refs.old ++ (name.now, oid) ∷ []) }
{
    let name = RefName::copy_of(alloc, name)?;
    refs.push(name, oid)?;
    Ok(())
}

/// Reads signed refs: 0 to 65,536 lines, each the 40 lower case hexadecimal digits of an object's
/// name, a space, the name of a ref and a line feed. The refs' names are strictly rising by their
/// bytes. Each begins with `refs/`, breaks no rule of git-check-ref-format, and is not
/// `refs/rad/sigrefs`. It is after the Radicle Heartwood protocol; the format is this project's
/// own.
///
/// `BadLine(n)` where line n, counted from 1 and at most 65,536, is the first that breaks this;
/// `TooMany` exactly where bytes follow 65,536 good lines.
pub fn read_refs(alloc: Global, bytes: &[u8]) -> Result<Refs, RefsFault>
    ensures refs { IfOk result (λ refs. SpellsRefs refs bytes.now) }
    ensures formed { IfOk result AreRefs }
    ensures refused { IfErr result (ExplainsRefs bytes.now) }
{
    let mut refs = Refs::new(alloc);
    let mut rest = bytes;
    'reading: while !rest.is_empty() {
        if refs.len() == MOST_LINES {
            return Err(RefsFault::TooMany);
        }
        let Some((name, oid, behind)) = line_behind(&refs, rest) else {
            return Err(RefsFault::BadLine(refs.len() + 1));
        };
        add(alloc, &mut refs, name, oid)?;
        rest = behind;
    }
    Ok(refs)
}
