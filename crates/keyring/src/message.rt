// Messages of the node's own, in hexadecimal digits.
ghost use Rattle.std.specs.Prelude.{◌≡◌, ◌↔◌, ℕ, List, IsTrue, IfOk, IfSome, IfNone};
ghost use Rattle.hex.specs.Hex.{encode_lower};
ghost use Rattle.keyring.specs.Lines.{IsMessage};
ghost use Rattle.keyring.specs.Readers.{IsSpelling};

use rad_base::{NoMemory, is_lower_text};
use std::alloc::Global;

// Whether a text spells a message.
fn is_spelling(digits: &[u8]) -> bool
    ensures { IsTrue result ↔ IsSpelling digits.now }
{
    let count = digits.len();
    count >= 2 && count <= 131_070 && count % 2 == 0 && is_lower_text(digits)
}

// The message that digits spell.
pub fn message_of(alloc: Global, digits: &[u8]) -> Result<Option<Vec<u8>>, NoMemory>
    ensures found { IfOk result (λ found. IfSome found (λ message. IsMessage message.items
        × (digits.now ≡ encode_lower message.items))) }
    ensures none { IfOk result (λ found. IfNone found ((message : List ℕ)
        → IsMessage message → digits.now ≡ encode_lower message → ⊥)) }
{
    if !is_spelling(digits) {
        return Ok(None);
    }
    match hex::decode(alloc, digits) {
        Ok(message) => Ok(Some(message)),
        // An even number of lower case digits fails to be decoded for want of memory alone.
        Err(_) => Err(NoMemory),
    }
}
