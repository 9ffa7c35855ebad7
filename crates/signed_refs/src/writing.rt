// Writing signed refs.
ghost use Rattle.std.specs.Prelude.{◌≡◌, ◌++◌, ◌≤◌, length, OnOk, IfOk};
ghost use Rattle.std.specs.List.{AllByRecursion};
ghost use Rattle.signed_refs.specs.Lines.{IsRefLine, SpellsRefs, ref_line_text};

use crate::Refs;
use rad_base::{NoMemory, Oid};
use ref_name::RefName;
use std::alloc::Global;

// Adds a line.
fn push_line(alloc: Global, bytes: &mut Vec<u8>, name: &RefName, oid: &Oid) -> Result<(), NoMemory>
    ensures { OnOk result (bytes.new.items ≡ bytes.old.items ++ ref_line_text (name.now, oid.now)) }
{
    let digits = hex::encode(alloc, oid.0.as_slice())?;
    bytes.extend_from_slice(digits.as_bytes())?;
    bytes.extend_from_slice(b" ")?;
    bytes.extend_from_slice(name.as_slice())?;
    bytes.extend_from_slice(b"\n")?;
    Ok(())
}

/// The bytes of signed refs, as `read_refs` reads them. There are at most 65,536 refs; each name
/// begins with `refs/`, breaks no rule of git-check-ref-format, and is not `refs/rad/sigrefs`.
pub fn write_refs(alloc: Global, refs: &Refs) -> Result<Vec<u8>, NoMemory>
    requires lines { AllByRecursion IsRefLine refs.now }
    requires few { length refs.now ≤ 65536 }
    ensures { IfOk result (λ bytes. SpellsRefs refs.now bytes.items) }
{
    let mut bytes = Vec::new(alloc);
    for (name, oid) in refs.as_slice() {
        push_line(alloc, &mut bytes, name, oid)?;
    }
    Ok(bytes)
}
