// The fields of messages, at the front or the back of bytes.
ghost use Rattle.std.specs.Prelude.{◌≡◌, ◌∷◌, ◌++◌, ◌<◌, ◌≤◌, ◌↔◌, ◌^◌, ℕ, List, IsTrue, length};
ghost use Rattle.std.specs.Prelude.{replicate, IfSome, IfNone};
ghost use Rattle.std.specs.Int.{to_be_bytes, w64};
ghost use Rattle.std.specs.List.{AllPass};
ghost use Rattle.std.specs.Str.{IsUtf8};
ghost use Rattle.rad_base.specs.Sizes.{HasBytes};
ghost use Rattle.rad_base.specs.declared.names.Nid.{Nid};
ghost use Rattle.rad_base.specs.declared.names.Sig.{Sig};
ghost use Rattle.gossip_wire.specs.Fields.{IsAddress, IsAlias, is_address_byte, is_alias_byte};
ghost use Rattle.gossip_wire.specs.Fields.{sized, zeros_text};
ghost use Rattle.gossip_wire.specs.Messages.{IsSigned, signed_text};

use rad_base::{Nid, Sig, eight_bytes_front, nid_front, sig_front, two_bytes_front};

/// The most bytes of an alias.
const MOST_ALIAS: usize = 32;

fn is_alias_byte(byte: u8) -> bool
    ensures { result ≡ is_alias_byte byte }
{
    matches!(byte, 33..=126 | 128..=255)
}

fn is_address_byte(byte: u8) -> bool
    ensures { result ≡ is_address_byte byte }
{
    matches!(byte, 33..=126)
}

// Whether no byte is below 21 or is 7f, in hexadecimal digits.
fn is_visible_alias(bytes: &[u8]) -> bool
    ensures { IsTrue result ↔ AllPass is_alias_byte bytes.now }
{
    bytes.iter().all(|byte| is_alias_byte(*byte))
}

// Whether the bytes are UTF-8.
fn is_text(bytes: &[u8]) -> bool
    ensures yes { IsTrue result → IsUtf8 bytes.now }
    ensures no { IsUtf8 bytes.now → IsTrue result }
{
    std::str::from_utf8(bytes).is_ok()
}

// Whether the bytes are the name that a node goes by.
fn is_alias(bytes: &[u8]) -> bool
    ensures yes { IsTrue result → IsAlias bytes.now }
    ensures no { IsAlias bytes.now → IsTrue result }
{
    !bytes.is_empty() && bytes.len() <= MOST_ALIAS && is_visible_alias(bytes) && is_text(bytes)
}

// Whether each byte is from 21 to 7e, in hexadecimal digits.
fn is_visible_address(bytes: &[u8]) -> bool
    ensures { IsTrue result ↔ AllPass is_address_byte bytes.now }
{
    bytes.iter().all(|byte| is_address_byte(*byte))
}

// Whether the bytes are an address. They are no more than a length byte can say.
fn is_address(bytes: &[u8]) -> bool
    requires { length bytes.now ≤ 255 }
    ensures yes { IsTrue result → IsAddress bytes.now }
    ensures no { IsAddress bytes.now → IsTrue result }
{
    !bytes.is_empty() && is_visible_address(bytes)
}

// The length byte at the front and as many bytes behind it.
fn sized_front(bytes: &[u8]) -> Option<(&[u8], &[u8])>
    ensures found { IfSome result (λ x. (length x.0.now ≤ 255)
        × (bytes.now ≡ sized x.0.now ++ x.1.now)) }
    ensures none { IfNone result ((field rest : List ℕ) → bytes.now ≡ sized field ++ rest → ⊥) }
{
    let (length, rest) = bytes.split_first()?;
    let length = usize::from(*length);
    if length > rest.len() {
        return None;
    }
    Some(rest.split_at(length))
}

/// The alias at the front, and what stands behind it. None where none stands there.
pub(crate) fn alias_front(bytes: &[u8]) -> Option<(&[u8], &[u8])>
    ensures found { IfSome result (λ x. IsAlias x.0.now × (bytes.now ≡ sized x.0.now ++ x.1.now)) }
    ensures none { IfNone result
        ((alias rest : List ℕ) → IsAlias alias → bytes.now ≡ sized alias ++ rest → ⊥) }
{
    let (alias, rest) = sized_front(bytes)?;
    if !is_alias(alias) {
        return None;
    }
    Some((alias, rest))
}

/// The address at the front, and what stands behind it. None where none stands there.
pub(crate) fn address_front(bytes: &[u8]) -> Option<(&[u8], &[u8])>
    ensures found { IfSome result (λ x. IsAddress x.0.now
        × (bytes.now ≡ sized x.0.now ++ x.1.now)) }
    ensures none { IfNone result
        ((address rest : List ℕ) → IsAddress address → bytes.now ≡ sized address ++ rest → ⊥) }
{
    let (address, rest) = sized_front(bytes)?;
    if !is_address(address) {
        return None;
    }
    Some((address, rest))
}

// Whether all bytes are zero.
fn are_zeros(bytes: &[u8]) -> bool
    ensures { IsTrue result ↔ bytes.now ≡ replicate (length bytes.now) 0 }
{
    bytes.iter().all(|byte| *byte == 0)
}

/// The count of zero bytes, where the bytes are a count and so many zero bytes.
pub(crate) fn zeros_in(bytes: &[u8]) -> Option<u16>
    ensures found { IfSome result (λ n. (n < 2 ^ 16) × (bytes.now ≡ zeros_text n)) }
    ensures none { IfNone result ((n : ℕ) → n < 2 ^ 16 → bytes.now ≡ zeros_text n → ⊥) }
{
    let (count, rest) = two_bytes_front(bytes)?;
    if rest.len() == usize::from(count) && are_zeros(rest) {
        Some(count)
    } else {
        None
    }
}

/// So many bytes at the front, and what stands behind them.
pub(crate) fn bytes_front(bytes: &[u8], size: usize) -> (&[u8], &[u8])
    requires { size ≤ length bytes.now }
    ensures whole { HasBytes size result.0.now }
    ensures split { bytes.now ≡ result.0.now ++ result.1.now }
{
    bytes.split_at(size)
}

/// What stands before the last eight bytes, and the number in these. None where there are fewer.
pub(crate) fn number_behind(bytes: &[u8]) -> Option<(&[u8], u64)>
    ensures found { IfSome result (λ x. (x.1 < 2 ^ 64)
        × (bytes.now ≡ x.0.now ++ to_be_bytes w64 x.1)) }
    ensures none { IfNone result (length bytes.now < 8) }
{
    if bytes.len() < 8 {
        return None;
    }
    let (before, last) = bytes.split_at(bytes.len() - 8);
    let (number, _) = eight_bytes_front(last)?;
    Some((before, number))
}

/// Who announces, and the signature, at the front, and what stands behind them. None where there
/// are fewer than 96 bytes.
pub(crate) fn signed_front(bytes: &[u8]) -> Option<(Nid, Sig, &[u8])>
    ensures found { IfSome result (λ x. IsSigned x.0 x.1
        × (bytes.now ≡ signed_text x.0 x.1 x.2.now)) }
    ensures none { IfNone result ((node : Nid) (sig : Sig) (rest : List ℕ)
        → IsSigned node sig → bytes.now ≡ signed_text node sig rest → ⊥) }
{
    let (node, rest) = nid_front(bytes)?;
    let (sig, rest) = sig_front(rest)?;
    Some((node, sig, rest))
}
