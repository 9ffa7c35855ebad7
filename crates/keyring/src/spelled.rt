// Texts that spell a key by themselves.
ghost use Rattle.std.specs.Prelude.{◌≡◌};
ghost use Rattle.keyring.specs.Texts.{direct_key};

use rad_base::{Nid, after, nid_text_front};

// The key that a text spells by itself.
pub fn spelled_key(text: &[u8]) -> Option<Nid>
    ensures { result ≡ direct_key text.now }
{
    let digits = after(text, b"did:key:fed01")?;
    let (key, rest) = nid_text_front(digits)?;
    if rest.is_empty() { Some(key) } else { None }
}
