// The lines of signed refs, read from the front.
ghost use Rattle.std.specs.Prelude.{◌≡◌, ◌++◌, ◌↔◌, ℕ, List, IsTrue, IfSome, IfNone};
ghost use Rattle.signed_refs.specs.Lines.{IsRefLine, IsSignedName, Line, ref_line_text};
ghost use Rattle.signed_refs.specs.Readings.{Continues};

use crate::Refs;
use rad_base::{Oid, after, line_front, oid_text_front};
use ref_name::check_ref_name;

// Whether a ref of this name may be signed.
fn is_signed_name(name: &[u8]) -> bool
    ensures { IsTrue result ↔ IsSignedName name.now }
{
    after(name, b"refs/").is_some()
        && check_ref_name(name).is_none()
        && name != b"refs/rad/sigrefs".as_slice()
}

// The line in front: the ref's name, the object's name, and what stands behind the line feed.
fn line_at(bytes: &[u8]) -> Option<(&[u8], Oid, &[u8])>
    ensures found { IfSome result (λ x. IsRefLine (x.0.now, x.1)
        × (bytes.now ≡ ref_line_text (x.0.now, x.1) ++ x.2.now)) }
    ensures none { IfNone result ((line : Line) (rest : List ℕ)
        → IsRefLine line → bytes.now ≡ ref_line_text line ++ rest → ⊥) }
{
    let (oid, rest) = oid_text_front(bytes)?;
    let rest = after(rest, b" ")?;
    let (name, rest) = line_front(rest)?;
    if is_signed_name(name) {
        Some((name, oid, rest))
    } else {
        None
    }
}

/// The line in front, where it may stand behind these refs: the ref's name, the object's name, and
/// what stands behind the line feed.
pub(crate) fn line_behind<'a>(refs: &Refs, bytes: &'a [u8]) -> Option<(&'a [u8], Oid, &'a [u8])>
    ensures found { IfSome result (λ x. Continues refs.now (x.0.now, x.1) x.2.now bytes.now) }
    ensures none { IfNone result ((line : Line) (rest : List ℕ)
        → Continues refs.now line rest bytes.now → ⊥) }
{
    let (name, oid, rest) = line_at(bytes)?;
    if refs.is_below(name) {
        Some((name, oid, rest))
    } else {
        None
    }
}
