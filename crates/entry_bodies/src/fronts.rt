// What stands at the front of a body's bytes.
ghost use Rattle.std.specs.Prelude.{◌≡◌, ◌∷◌, ◌++◌, ◌≤◌, ℕ, List, length, IfSome, IfNone};
ghost use Rattle.std.specs.Int.{to_be_bytes, w32};
ghost use Rattle.commit_graph.specs.Objects.{Object};
ghost use Rattle.fetch_wire.specs.Sections.{kind_byte};
ghost use Rattle.git_object.specs.declared.kind.Kind.{Kind};
ghost use Rattle.entry_bodies.specs.Bodies.{held_text};

use git_object::Kind;
use rad_base::four_bytes_front;

/// The most bytes that a content may have.
const MOST_CONTENT: usize = 33_554_432;

// The kind that a byte stands for.
fn kind_of(byte: u8) -> Option<Kind>
    ensures found { IfSome result (λ kind. byte ≡ kind_byte kind) }
    ensures none { IfNone result ((kind : Kind) → byte ≡ kind_byte kind → ⊥) }
{
    match byte {
        1 => Some(Kind::Commit),
        2 => Some(Kind::Tree),
        3 => Some(Kind::Blob),
        4 => Some(Kind::Tag),
        _ => None,
    }
}

// The kind at the front.
fn kind_front(bytes: &[u8]) -> Option<(Kind, &[u8])>
    ensures found { IfSome result (λ x. bytes.now ≡ kind_byte x.0 ∷ x.1.now) }
    ensures none { IfNone result ((kind : Kind) (rest : List ℕ)
        → bytes.now ≡ kind_byte kind ∷ rest → ⊥) }
{
    let (byte, rest) = bytes.split_first()?;
    let kind = kind_of(*byte)?;
    Some((kind, rest))
}

// The length at the front and as many bytes behind it.
fn content_front(bytes: &[u8]) -> Option<(&[u8], &[u8])>
    ensures found { IfSome result (λ x. (length x.0.now ≤ 33554432)
        × (bytes.now ≡ to_be_bytes w32 (length x.0.now) ++ (x.0.now ++ x.1.now))) }
    ensures none { IfNone result ((content rest : List ℕ) → length content ≤ 33554432
        → bytes.now ≡ to_be_bytes w32 (length content) ++ (content ++ rest) → ⊥) }
{
    let (length, rest) = four_bytes_front(bytes)?;
    let length = length as usize;
    if length > MOST_CONTENT || length > rest.len() {
        return None;
    }
    Some(rest.split_at(length))
}

/// The object at the front, and what stands behind it. None where none stands there.
pub(crate) fn object_front(bytes: &[u8]) -> Option<(Kind, &[u8], &[u8])>
    ensures found { IfSome result (λ x. (length x.1.now ≤ 33554432)
        × (bytes.now ≡ held_text (x.0, x.1.now) ++ x.2.now)) }
    ensures none { IfNone result ((object : Object) (rest : List ℕ)
        → length object.1 ≤ 33554432 → bytes.now ≡ held_text object ++ rest → ⊥) }
{
    let (kind, rest) = kind_front(bytes)?;
    let (content, rest) = content_front(rest)?;
    Some((kind, content, rest))
}
