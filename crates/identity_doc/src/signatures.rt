// Reading the signatures beside an identity document.
ghost use Rattle.std.specs.Prelude.{◌≡◌, ◌↔◌, ℕ, List, IsTrue, IfOk, IfErr, IfSome, IfNone};
ghost use Rattle.identity_doc.specs.Signatures.{BeginsWithSignature, AreSignatures};
ghost use Rattle.identity_doc.specs.SignatureReaders.{ExplainsSignatures, KeyMayFollow};
ghost use Rattle.identity_doc.specs.declared.signatures.SignatureLine.{SignatureLine};

use rad_base::{Nid, NoMemory, Sig, after, nid_text_front, sig_text_front};
use std::alloc::{AllocFailed, Global};

/// A key and a signature of it.
#[derive(Clone, Copy, Debug, PartialEq, Eq)]
pub struct SignatureLine {
    pub key: Nid,
    pub sig: Sig,
}

/// Why a blob of signatures was not read.
#[derive(Clone, Copy, Debug, PartialEq, Eq)]
pub enum SignaturesFault {
    /// The first line that breaks the grammar, counted from 1.
    BadLine(usize),
    /// Memory was refused.
    NoMemory,
}

impl<T: Drop> From<AllocFailed<T>> for SignaturesFault {
    ghost use Rattle.std.specs.Prelude.{◌≡◌};
    ghost use Rattle.identity_doc.specs.declared.signatures.SignaturesFault.{SignaturesFault};
    ghost use Rattle.identity_doc.specs.declared.signatures.SignaturesFault.TheVariants.{NoMemory};

    ghost from_gives = { λ _ fault. fault ≡ NoMemory };

    fn from(_: AllocFailed<T>) -> Self {
        SignaturesFault::NoMemory
    }
}

// The line in front, and what stands behind its line feed.
fn line_in_front(bytes: &[u8]) -> Option<(SignatureLine, &[u8])>
    ensures found { IfSome result (λ x. BeginsWithSignature x.0 x.1.now bytes.now) }
    ensures none { IfNone result ((line : SignatureLine) (rest : List ℕ)
        → BeginsWithSignature line rest bytes.now → ⊥) }
{
    let (key, rest) = nid_text_front(bytes)?;
    let rest = after(rest, b" ")?;
    let (sig, rest) = sig_text_front(rest)?;
    let rest = after(rest, b"\n")?;
    Some((SignatureLine { key, sig }, rest))
}

// Whether a key is above that of the last line, if there is one.
fn may_follow(lines: &[SignatureLine], key: &Nid) -> bool
    ensures { IsTrue result ↔ KeyMayFollow lines.now key.now }
{
    match lines.last() {
        None => true,
        Some(line) => line.key.cmp(key).is_lt(),
    }
}

/// Reads the signatures of a change of an identity document. The blob has any number of lines,
/// each `<key> <signature>` and a line feed: a key (32 bytes) and a signature (64) in lower case
/// hexadecimal digits, the keys strictly rising. This is this project's own format. `BadLine(n)`
/// where line n, counted from 1, is the first that breaks this.
pub(crate) fn read_signatures(
    alloc: Global,
    bytes: &[u8],
) -> Result<Vec<SignatureLine>, SignaturesFault>
    ensures read { IfOk result (λ lines. AreSignatures bytes.now lines.items) }
    ensures refused { IfErr result (ExplainsSignatures bytes.now) }
{
    let mut lines = Vec::new(alloc);
    let mut rest = bytes;
    'reading: while !rest.is_empty() {
        let Some((line, behind)) = line_in_front(rest) else {
            return Err(SignaturesFault::BadLine(lines.len() + 1));
        };
        if !may_follow(&lines, &line.key) {
            return Err(SignaturesFault::BadLine(lines.len() + 1));
        }
        lines.push(line)?;
        rest = behind;
    }
    Ok(lines)
}
