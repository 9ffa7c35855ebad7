// Reading the lines of a keyring file.
ghost use Rattle.std.specs.Prelude.{◌≡◌, ◌∷◌, ◌++◌, ◌↔◌, ℕ, List, IsTrue, IfOk, IfSome, IfNone};
ghost use Rattle.hex.specs.Hex.{encode_lower};
ghost use Rattle.rad_base.specs.declared.names.Nid.{Nid};
ghost use Rattle.keyring.specs.declared.accept.Accept.{Accept};
ghost use Rattle.rad_base.specs.Sizes.{IsNid};
ghost use Rattle.keyring.specs.Lines.{BeginsWithLine, IsText, KeyringLine, accepted, named, owned};
ghost use Rattle.keyring.specs.Readers.{seen};

use crate::accept::{Accept, Digest};
use crate::message::message_of;
use rad_base::{Nid, NoMemory, after, line_front, nid_text_front, sig_text_front, until};
use std::alloc::Global;

/// A line of a keyring file, without where it lies in the file.
#[derive(Drop)]
pub enum Entry {
    /// `name`, a text and a key.
    Named(Vec<u8>, Nid),
    /// `accept`, a key, a digest and a signature.
    Accepted(Accept),
    /// `own` and a message.
    Owned(Vec<u8>),
}

// Whether a line may name this text.
fn is_text(text: &[u8]) -> bool
    ensures { IsTrue result ↔ IsText text.now }
{
    !text.is_empty() && text.len() <= 128 && text.iter().all(|byte| matches!(*byte, b'!'..=b'~'))
}

// The text in front of a space, and what stands behind the space.
fn text_front(bytes: &[u8]) -> Option<(&[u8], &[u8])>
    ensures found { IfSome result (λ x. IsText x.0.now
        × (bytes.now ≡ x.0.now ++ 32 ∷ x.1.now)) }
    ensures none { IfNone result ((text rest : List ℕ)
        → IsText text → bytes.now ≡ text ++ 32 ∷ rest → ⊥) }
{
    let (text, rest) = until(bytes, b' ')?;
    if is_text(text) {
        Some((text, rest))
    } else {
        None
    }
}

// The 64 digits in front of a space, and what stands behind the space.
fn word_front(bytes: &[u8]) -> Option<(Nid, &[u8])>
    ensures found { IfSome result (λ x. IsNid x.0
        × (bytes.now ≡ encode_lower x.0.0 ++ 32 ∷ x.1.now)) }
    ensures none { IfNone result ((nid : Nid) (rest : List ℕ)
        → IsNid nid → bytes.now ≡ encode_lower nid.0 ++ 32 ∷ rest → ⊥) }
{
    let (nid, rest) = nid_text_front(bytes)?;
    let rest = after(rest, b" ")?;
    Some((nid, rest))
}

// The line of a name in front, and what stands behind its line feed.
fn name_front(bytes: &[u8]) -> Option<(&[u8], Nid, &[u8])>
    ensures found { IfSome result (λ x. BeginsWithLine (named x.0.now x.1) x.2.now bytes.now) }
    ensures none { IfNone result ((text : List ℕ) (key : Nid) (rest : List ℕ)
        → BeginsWithLine (named text key) rest bytes.now → ⊥) }
{
    let rest = after(bytes, b"name ")?;
    let (text, rest) = text_front(rest)?;
    let (key, rest) = nid_text_front(rest)?;
    let rest = after(rest, b"\n")?;
    Some((text, key, rest))
}

// The line of a signature in front, and what stands behind its line feed.
fn accept_front(bytes: &[u8]) -> Option<(Accept, &[u8])>
    ensures found { IfSome result (λ x. BeginsWithLine (accepted x.0) x.1.now bytes.now) }
    ensures none { IfNone result ((accept : Accept) (rest : List ℕ)
        → BeginsWithLine (accepted accept) rest bytes.now → ⊥) }
{
    let rest = after(bytes, b"accept ")?;
    let (key, rest) = word_front(rest)?;
    let (digest, rest) = word_front(rest)?;
    let (sig, rest) = sig_text_front(rest)?;
    let rest = after(rest, b"\n")?;
    let digest = Digest(digest.0);
    Some((Accept { key, digest, sig }, rest))
}

// The line of an own message in front, and what stands behind its line feed.
fn own_front(alloc: Global, bytes: &[u8]) -> Result<Option<(Vec<u8>, &[u8])>, NoMemory>
    ensures found { IfOk result (λ line.
        IfSome line (λ x. BeginsWithLine (owned x.0.items) x.1.now bytes.now)) }
    ensures none { IfOk result (λ line. IfNone line ((message rest : List ℕ)
        → BeginsWithLine (owned message) rest bytes.now → ⊥)) }
{
    let Some(rest) = after(bytes, b"own ") else {
        return Ok(None);
    };
    let Some((digits, rest)) = line_front(rest) else {
        return Ok(None);
    };
    match message_of(alloc, digits)? {
        Some(message) => Ok(Some((message, rest))),
        None => Ok(None),
    }
}

// The line in front, and what stands behind its line feed.
pub fn entry_front(alloc: Global, bytes: &[u8]) -> Result<Option<(Entry, &[u8])>, NoMemory>
    ensures found { IfOk result (λ line.
        IfSome line (λ x. BeginsWithLine (seen x.0) x.1.now bytes.now)) }
    ensures none { IfOk result (λ line. IfNone line ((other : KeyringLine) (rest : List ℕ)
        → BeginsWithLine other rest bytes.now → ⊥)) }
{
    if let Some((text, key, rest)) = name_front(bytes) {
        let text = text.to_vec(alloc)?;
        return Ok(Some((Entry::Named(text, key), rest)));
    }
    if let Some((accept, rest)) = accept_front(bytes) {
        return Ok(Some((Entry::Accepted(accept), rest)));
    }
    match own_front(alloc, bytes)? {
        Some((message, rest)) => Ok(Some((Entry::Owned(message), rest))),
        None => Ok(None),
    }
}
