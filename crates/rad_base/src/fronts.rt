// Reading what stands at the front of bytes: words, names and lines.
ghost use Rattle.std.specs.Prelude.{◌≡◌, ◌++◌, ◌<◌, ◌^◌, ℕ, List, length, IfSome, IfNone};
ghost use Rattle.std.specs.Int.{to_be_bytes, w16, w32, w64};
ghost use Rattle.hex.specs.Hex.{encode_lower};
ghost use Rattle.rad_base.specs.declared.names.Nid.{Nid};
ghost use Rattle.rad_base.specs.declared.names.Oid.{Oid};
ghost use Rattle.rad_base.specs.RemoteTexts.{IsPair, pair_text};
ghost use Rattle.rad_base.specs.Sizes.{IsNid, IsOid, IsSig, Lacks, SplitsAt};

use crate::hexadecimal::{parse_nid, parse_oid, parse_sig};
use crate::{Nid, Oid, Sig};

/// What stands behind a word. None where the bytes do not begin with it.
pub fn after<'a>(bytes: &'a [u8], word: &[u8]) -> Option<&'a [u8]>
    ensures found { IfSome result (λ rest. bytes.now ≡ word.now ++ rest.now) }
    ensures none { IfNone result ((rest : List ℕ) → bytes.now ≡ word.now ++ rest → ⊥) }
{
    bytes.strip_prefix(word)
}

/// What stands before the first byte `stop`, and what stands behind it. None where there is none.
pub fn until(bytes: &[u8], stop: u8) -> Option<(&[u8], &[u8])>
    ensures found { IfSome result (λ x. SplitsAt stop bytes.now x.0.now x.1.now) }
    ensures none { IfNone result (Lacks stop bytes.now) }
{
    for (at, byte) in bytes.iter().enumerate() {
        if *byte == stop {
            return Some((&bytes[..at], &bytes[at + 1..]));
        }
    }
    None
}

/// The first line without its line feed, and what stands behind it. None where no line ends.
pub fn line_front(bytes: &[u8]) -> Option<(&[u8], &[u8])>
    ensures found { IfSome result (λ x. SplitsAt 10 bytes.now x.0.now x.1.now) }
    ensures none { IfNone result (Lacks 10 bytes.now) }
{
    until(bytes, b'\n')
}

/// The object's name in the first 20 bytes. None where there are fewer.
pub fn oid_front(bytes: &[u8]) -> Option<(Oid, &[u8])>
    ensures found { IfSome result (λ x. IsOid x.0 × (bytes.now ≡ x.0.0 ++ x.1.now)) }
    ensures none { IfNone result (length bytes.now < 20) }
{
    let (front, rest) = bytes.split_first_chunk::<20>()?;
    Some((Oid(*front), rest))
}

/// The node's key in the first 32 bytes. None where there are fewer.
pub fn nid_front(bytes: &[u8]) -> Option<(Nid, &[u8])>
    ensures found { IfSome result (λ x. IsNid x.0 × (bytes.now ≡ x.0.0 ++ x.1.now)) }
    ensures none { IfNone result (length bytes.now < 32) }
{
    let (front, rest) = bytes.split_first_chunk::<32>()?;
    Some((Nid(*front), rest))
}

/// The signature in the first 64 bytes. None where there are fewer.
pub fn sig_front(bytes: &[u8]) -> Option<(Sig, &[u8])>
    ensures found { IfSome result (λ x. IsSig x.0 × (bytes.now ≡ x.0.0 ++ x.1.now)) }
    ensures none { IfNone result (length bytes.now < 64) }
{
    let (front, rest) = bytes.split_first_chunk::<64>()?;
    Some((Sig(*front), rest))
}

/// The object's name that the first 40 bytes spell in lower case hexadecimal digits. None where
/// they spell none.
pub fn oid_text_front(bytes: &[u8]) -> Option<(Oid, &[u8])>
    ensures found { IfSome result (λ x. IsOid x.0 × (bytes.now ≡ encode_lower x.0.0 ++ x.1.now)) }
    ensures none { IfNone result
        ((oid : Oid) (rest : List ℕ) → IsOid oid → bytes.now ≡ encode_lower oid.0 ++ rest → ⊥) }
{
    let (digits, rest) = bytes.split_first_chunk::<40>()?;
    let oid = parse_oid(digits)?;
    Some((oid, rest))
}

/// The node's key that the first 64 bytes spell in lower case hexadecimal digits. None where they
/// spell none.
pub fn nid_text_front(bytes: &[u8]) -> Option<(Nid, &[u8])>
    ensures found { IfSome result (λ x. IsNid x.0 × (bytes.now ≡ encode_lower x.0.0 ++ x.1.now)) }
    ensures none { IfNone result
        ((nid : Nid) (rest : List ℕ) → IsNid nid → bytes.now ≡ encode_lower nid.0 ++ rest → ⊥) }
{
    let (digits, rest) = bytes.split_first_chunk::<64>()?;
    let nid = parse_nid(digits)?;
    Some((nid, rest))
}

/// The signature that the first 128 bytes spell in lower case hexadecimal digits. None where they
/// spell none.
pub fn sig_text_front(bytes: &[u8]) -> Option<(Sig, &[u8])>
    ensures found { IfSome result (λ x. IsSig x.0 × (bytes.now ≡ encode_lower x.0.0 ++ x.1.now)) }
    ensures none { IfNone result
        ((sig : Sig) (rest : List ℕ) → IsSig sig → bytes.now ≡ encode_lower sig.0 ++ rest → ⊥) }
{
    let (digits, rest) = bytes.split_first_chunk::<128>()?;
    let sig = parse_sig(digits)?;
    Some((sig, rest))
}

/// The number in the first two bytes. None where there are fewer.
pub fn two_bytes_front(bytes: &[u8]) -> Option<(u16, &[u8])>
    ensures found { IfSome result (λ x. (x.0 < 2 ^ 16)
        × (bytes.now ≡ to_be_bytes w16 x.0 ++ x.1.now)) }
    ensures none { IfNone result (length bytes.now < 2) }
{
    let (number, rest) = bytes.split_first_chunk::<2>()?;
    Some((u16::from_be_bytes(*number), rest))
}

/// The number in the first four bytes. None where there are fewer.
pub fn four_bytes_front(bytes: &[u8]) -> Option<(u32, &[u8])>
    ensures found { IfSome result (λ x. (x.0 < 2 ^ 32)
        × (bytes.now ≡ to_be_bytes w32 x.0 ++ x.1.now)) }
    ensures none { IfNone result (length bytes.now < 4) }
{
    let (number, rest) = bytes.split_first_chunk::<4>()?;
    Some((u32::from_be_bytes(*number), rest))
}

/// The number in the first eight bytes. None where there are fewer.
pub fn eight_bytes_front(bytes: &[u8]) -> Option<(u64, &[u8])>
    ensures found { IfSome result (λ x. (x.0 < 2 ^ 64)
        × (bytes.now ≡ to_be_bytes w64 x.0 ++ x.1.now)) }
    ensures none { IfNone result (length bytes.now < 8) }
{
    let (number, rest) = bytes.split_first_chunk::<8>()?;
    Some((u64::from_be_bytes(*number), rest))
}

/// The remote at the front, and what stands behind it. None where there are fewer than 52 bytes.
pub fn remote_front(bytes: &[u8]) -> Option<(Nid, Oid, &[u8])>
    ensures found { IfSome result (λ x. IsPair (x.0, x.1)
        × (bytes.now ≡ pair_text (x.0, x.1) ++ x.2.now)) }
    ensures none { IfNone result ((pair : Nid × Oid) (rest : List ℕ)
        → IsPair pair → bytes.now ≡ pair_text pair ++ rest → ⊥) }
{
    let (node, rest) = nid_front(bytes)?;
    let (oid, rest) = oid_front(rest)?;
    Some((node, oid, rest))
}
