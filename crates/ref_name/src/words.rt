// Words at the front, at the end and inside of bytes.
ghost use Rattle.std.specs.Prelude.{◌↔◌, ◌<◌, length, IsTrue};
ghost use Rattle.rad_base.specs.Lists.{BeginsWith};
ghost use Rattle.ref_name.specs.Rules.{Ends, Has};

use rad_base::after;

pub(crate) fn begins(bytes: &[u8], word: &[u8]) -> bool
    ensures { IsTrue result ↔ BeginsWith word.now bytes.now }
{
    after(bytes, word).is_some()
}

pub(crate) fn ends(bytes: &[u8], word: &[u8]) -> bool
    ensures { IsTrue result ↔ Ends word.now bytes.now }
{
    bytes.ends_with(word)
}

// Whether a word, which is not empty, stands somewhere.
pub(crate) fn has(bytes: &[u8], word: &[u8]) -> bool
    requires { 0 < length word.now }
    ensures { IsTrue result ↔ Has word.now bytes.now }
{
    let mut rest = bytes;
    'seeking: while let Some((_, more)) = rest.split_first() {
        if begins(rest, word) {
            return true;
        }
        rest = more;
    }
    false
}
